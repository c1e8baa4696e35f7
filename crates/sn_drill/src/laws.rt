//! A law of drills.
ghost use Rattle.std.specs.Prelude.{◌≤◌, ◌<◌, ℕ};
ghost use Rattle.sn_drill.specs.Stream.{drill_stream};
ghost use Rattle.sn_drill.specs.Valid.{HasStream};

/// The packets of each drill could come as a stream.
pub fn framed_drill()
    ensures { (seed blocks rate : ℕ) → 0 < rate → blocks ≤ 20000 → HasStream (drill_stream seed blocks rate) }
{}
