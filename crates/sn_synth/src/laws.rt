//! Laws of what a synth makes of words.
ghost use Rattle.std.specs.Prelude.{◌≡◌, ℕ, List, ℤ, Option};
ghost use Rattle.std.specs.List.{All};
ghost use Rattle.sn_def.specs.declared.control.Control.{Control};
ghost use Rattle.sn_def.specs.Definition.{Definition};
ghost use Rattle.sn_def.specs.StateWords.{state_words};
ghost use Rattle.sn_def.specs.WellFormed.{IsWellFormed};
ghost use Rattle.sn_mem.specs.declared.extents.Extent.{Extent};
ghost use Rattle.sn_mem.specs.declared.extents.Foot.{Foot};
ghost use Rattle.sn_mem.specs.declared.buffers.BufferPlace.{BufferPlace};
ghost use Rattle.sn_mem.specs.Buffers.{MayBePlace};
ghost use Rattle.sn_io.specs.ByFoot.{IsByFoot, IsPart};
ghost use Rattle.sn_synth.specs.Words.{synth_words};
ghost use Rattle.sn_synth.specs.Conditions.{AreControlsOf, MayRun};

/// A law: with a foot that has what a synth asks for, the synth's block sees and changes the words of
/// the foot alone.
pub fn synth_by_foot()
    ensures { (rate b : ℕ) (node : ℤ) (f : Foot) (places : List (Option BufferPlace)) (d : Definition) (controls : List Control) (state : Extent) → IsWellFormed d → AreControlsOf d controls → All MayBePlace places → state.len ≡ state_words rate d → MayRun f places controls d state → IsByFoot f (synth_words rate b node d controls places state.at) }
{}

/// A law: what a synth may do with a part of a foot, it may do with the whole foot.
pub fn wider_foot_runs()
    ensures { (part whole : Foot) (places : List (Option BufferPlace)) (controls : List Control) (d : Definition) (state : Extent) → IsPart part whole → MayRun part places controls d state → MayRun whole places controls d state }
{}
