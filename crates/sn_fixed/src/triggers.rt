//! Triggers.
ghost use Rattle.std.specs.Prelude.{◌≡◌};
ghost use Rattle.sn_fixed.specs.Triggers.{rises};

/// Whether a trigger rises from one sample to the next: from at most 0 to above 0.
pub fn rises(before: i32, now: i32) -> bool
    ensures { result ≡ rises before now }
{
    now > 0 && before <= 0
}
