//! A law about the definitions of this crate.
ghost use Rattle.std.specs.Prelude.{◌<◌, ◌↔◌, ℕ};
ghost use Rattle.sn_tcp.specs.Pace.{IsDue, blocks_due};

/// The blocks that are due are those whose times have come.
pub fn blocks_come_due()
    ensures { (rate nanos k : ℕ) → (k < blocks_due rate nanos) ↔ IsDue rate nanos k }
{}
