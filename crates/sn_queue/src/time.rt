ghost use Rattle.std.specs.Prelude.{◌≡◌, ◌≤◌, ◌<◌, ℕ};
ghost use Rattle.sn_ports.specs.Limits.{most_count};
ghost use Rattle.sn_queue.specs.Time.{due, at, IsInReach, IsLeastDue};

/// The number of the boundary at which `tag` is due: the last block that begins no later than it. A
/// tag and the `base`, which is the time of block 0, count in units of 2^-32 seconds (OSC 1.0, time
/// tags); `rate` is in frames a second.
pub fn due(tag: u128, base: u64, rate: u32) -> u64
    requires { IsInReach tag base rate }
    ensures value { result ≡ due tag base rate }
    ensures monotone { (later : ℕ) → tag ≤ later → result ≤ due later base rate }
{
    let base = u128::from(base);
    if tag <= base {
        return 0;
    }
    ((tag - base) * u128::from(rate) / (1 << 38)) as u64
}

/// The tag of the boundary before `block`, rounded up.
pub fn at(block: u64, base: u64, rate: u32) -> u128
    requires block { block < most_count }
    requires rate { 0 < rate }
    ensures value { result ≡ at block base rate }
    ensures least { 1 ≤ block → IsLeastDue result block base rate }
{
    u128::from(base) + (u128::from(block) << 38).div_ceil(u128::from(rate))
}
