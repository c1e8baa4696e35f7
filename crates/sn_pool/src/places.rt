//! Where the pool's region begins, and that buses stand apart before it.
ghost use Rattle.std.specs.Prelude.{◌≢◌, ◌<◌, ◌≤◌, ◌+◌, ℕ};
ghost use Rattle.sn_ports.specs.Limits.{audio_bus_count, control_bus_count};
ghost use Rattle.sn_mem.specs.Layout.{audio_place, control_place};
ghost use Rattle.sn_pool.specs.Pools.{AreDisjoint};

use sn_mem::BUS_WORDS;

/// The first word of the pool's region, which stands after the buses.
pub const POOL_BASE: u32 = BUS_WORDS as u32;

/// No word is in two buses, and each bus ends before the pool's region begins.
pub fn buses_lie_apart()
    ensures audio { (m n : ℕ) → m ≢ n → AreDisjoint (audio_place m) (audio_place n) }
    ensures control { (m n : ℕ) → m ≢ n → AreDisjoint (control_place m) (control_place n) }
    ensures both { (m n : ℕ) → m < audio_bus_count → AreDisjoint (audio_place m) (control_place n) }
    ensures audio_below { (n : ℕ) → n < audio_bus_count → (audio_place n).at + (audio_place n).len ≤ POOL_BASE }
    ensures control_below { (n : ℕ) → n < control_bus_count → (control_place n).at + (control_place n).len ≤ POOL_BASE }
{}
