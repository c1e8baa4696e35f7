//! The done word of a unit that ends.
ghost use Rattle.std.specs.Prelude.{◌≡◌};
ghost use Rattle.sn_mem.specs.Done.{ended};

/// The done word of a unit after a frame at which it is at its end: 0 before the end, 1 from there
/// until the block is settled, and 2 after that. A unit ends once.
pub fn ended(done: u64) -> u64
    ensures { result ≡ ended done }
{
    if done == 0 { 1 } else { done }
}
