//! Laws of changes of words that see and change a foot alone, and of units that do; and of units that end.
ghost use Rattle.std.specs.List.{All};
ghost use Rattle.std.specs.Prelude.{◌≡◌, ◌≤◌, ℕ, ◌+◌, true, List, ℤ, Option, length, slice_index};
ghost use Rattle.sn_mem.specs.Layout.{audio_bus_words};
ghost use Rattle.sn_def.specs.declared.kind.Kind.{Kind};
ghost use Rattle.sn_def.specs.declared.kind.Kind.TheVariants as kinds;
ghost use Rattle.sn_def.specs.declared.control.Now.{Now};
ghost use Rattle.sn_mem.specs.declared.extents.Foot.{Foot};
ghost use Rattle.sn_mem.specs.declared.buffers.BufferPlace.{BufferPlace};
ghost use Rattle.sn_mem.specs.declared.moves.Moved.{Moved};
ghost use Rattle.sn_mem.specs.Words.{MayWrite, touches};
ghost use Rattle.sn_mem.specs.ThroughFoot.{kept_to};
ghost use Rattle.sn_mem.specs.Blocks.{samples_at};
ghost use Rattle.sn_mem.specs.Buffers.{Buffer};
ghost use Rattle.sn_done.specs.Done.{IsUnseen};
ghost use Rattle.sn_io.specs.Triggers.{trigger_block};
ghost use Rattle.sn_io.specs.BufferUnits.{buffer_unit};
ghost use Rattle.sn_io.specs.ByFoot.{Agree, BlocksAgree, IsByFoot, IsPart};
ghost use Rattle.sn_io.specs.Joints.{MayAdd, with_lanes};
ghost use Rattle.sn_io.specs.OverWords.{bus_unit_over, onto_block};
ghost use Rattle.sn_io.specs.BuffersOverWords.{buffer_unit_over};
ghost use Rattle.sn_io.specs.Conditions.{MayReach, MayReachBuffer};

/// A law: a change that sees and changes a foot alone is the same if it is kept to the foot.
pub fn kept_to_its_foot()
    ensures { (f : Foot) (change : List ℕ → List ℕ) (ws : List ℕ) → IsByFoot f change → kept_to f change ws ≡ change ws }
{}

/// A law: any change that is kept to a foot sees and changes the foot alone.
pub fn kept_is_by_foot()
    ensures { (f : Foot) (change : List ℕ → List ℕ) → IsByFoot f (kept_to f change) }
{}

/// A law: two changes that see and change a foot alone do so one after the other, and so does no
/// change.
pub fn by_foot_in_turn()
    ensures nothing { (f : Foot) → IsByFoot f (λ ws. ws) }
    ensures two { (f : Foot) (first second : List ℕ → List ℕ) → IsByFoot f first → IsByFoot f second → IsByFoot f (λ ws. second (first ws)) }
{}

/// A law: a change that sees and changes a part of a foot alone sees and changes the foot alone.
pub fn by_wider_foot()
    ensures { (part whole : Foot) (change : List ℕ → List ℕ) → IsPart part whole → IsByFoot part change → IsByFoot whole change }
{}

/// A law: adding lanes to their buses sees and changes only a foot that may read the lanes and write the buses.
pub fn lanes_by_foot()
    ensures { (f : Foot) (b : ℕ) (lanes : List Moved) → All (MayAdd f) lanes → IsByFoot f (with_lanes b lanes) }
{}

/// A law: a signal that was put onto a lane, which was not written in this block, and is added to a bus from there, is
/// added as it is.
pub fn lanes_add_what_was_put()
    ensures { (b : ℕ) (ws ls : List ℕ) (at lane : ℕ) (signal : List ℤ) → (slice_index ls lane ≡ b + 1 → ⊥) → lane + audio_bus_words ≤ length ls → onto_block true b ws at (samples_at (onto_block true b ls lane signal) (lane + 1)) ≡ onto_block true b ws at signal }
{}

/// A law: let words agree where a foot may touch them, and let the foot have what a unit on buses reaches. Then they
/// agree there after the unit's block, and its outputs are the same.
pub fn bus_unit_by_foot()
    ensures { (kind : Kind) (now : Now) (f : Foot) (n : ℕ) (us ws : List ℕ) (at len : ℕ) (inputs : List (List ℤ)) → MayWrite f at len → MayReach kind f n inputs → Agree (touches f) us ws → BlocksAgree (touches f) (bus_unit_over kind now n us at len inputs) (bus_unit_over kind now n ws at len inputs) }
{}

/// A law: the same for a unit on a buffer.
pub fn buffer_unit_by_foot()
    ensures { (kind : Kind) (now : Now) (f : Foot) (n : ℕ) (places : List (Option BufferPlace)) (us ws : List ℕ) (at len : ℕ) (inputs : List (List ℤ)) → MayWrite f at len → MayReachBuffer kind f inputs places → Agree (touches f) us ws → BlocksAgree (touches f) (buffer_unit_over kind now n places us at len inputs) (buffer_unit_over kind now n places ws at len inputs) }
{}

/// A law: a unit that ends does not see whether the block in which it ended was settled.
pub fn ends_are_unseen()
    ensures silence { (now : Now) (inputs : List (List ℤ)) → IsUnseen (λ ws. trigger_block kinds.DetectSilence now ws inputs) }
    ensures free { (now : Now) (inputs : List (List ℤ)) → IsUnseen (λ ws. trigger_block kinds.FreeSelf now ws inputs) }
    ensures pause { (now : Now) (inputs : List (List ℤ)) → IsUnseen (λ ws. trigger_block kinds.PauseSelf now ws inputs) }
    ensures playing { (now : Now) (n : ℕ) (inputs : List (List ℤ)) (buffers : List (Option Buffer)) → IsUnseen {A = List (List ℤ) × List (Option Buffer)} (λ ws. let r = buffer_unit kinds.PlayBuf now n ws inputs buffers in (r.state, (r.outputs, r.buffers))) }
    ensures placing { (now : Now) (n : ℕ) (inputs : List (List ℤ)) (buffers : List (Option Buffer)) → IsUnseen {A = List (List ℤ) × List (Option Buffer)} (λ ws. let r = buffer_unit kinds.PlayBufL now n ws inputs buffers in (r.state, (r.outputs, r.buffers))) }
    ensures recording { (now : Now) (n : ℕ) (inputs : List (List ℤ)) (buffers : List (Option Buffer)) → IsUnseen {A = List (List ℤ) × List (Option Buffer)} (λ ws. let r = buffer_unit kinds.RecordBuf now n ws inputs buffers in (r.state, (r.outputs, r.buffers))) }
{}
