//! Laws of the ids that the server chooses.
ghost use Rattle.std.specs.Prelude.{◌≡◌, ℕ, ℤ, negsuc, false, Some, None, Err};
ghost use Rattle.sn_osc.specs.Shape.{MessageShape};
ghost use Rattle.sn_reply.specs.declared.reason.Reason.TheVariants.{IdInUse};
ghost use Rattle.sn_tree.specs.Trees.{holds};
ghost use Rattle.sn_world.specs.declared.repetition.NewGroup.{NewGroup};
ghost use Rattle.sn_world.specs.Choosing.{AreChosen};
ghost use Rattle.sn_world.specs.Commands.{command};
ghost use Rattle.sn_world.specs.NewNodes.{judge_group};
ghost use Rattle.sn_world.specs.NewSynth.{NewSynth, new_outcome};
ghost use Rattle.sn_world.specs.Opening.{opening};
ghost use Rattle.sn_world.specs.Settling.{settled};
ghost use Rattle.sn_world.specs.Walk.{walk};
ghost use Rattle.sn_world.specs.World.{World, Turn};

/// A law: in the opening world the id that the server chooses next is below the ids of all nodes. It stays so after
/// each command, after each block, and after what happens then.
pub fn chosen_ids_stay_below()
    ensures opens { (rate memory clients : ℕ) → AreChosen (opening rate memory clients) }
    ensures commands { (from : ℕ) (m : MessageShape) (t : Turn) → AreChosen t.world → AreChosen (command from m t).world }
    ensures blocks { (b : ℕ) (w : World) → AreChosen w → AreChosen (walk b w) }
    ensures settles { (b : ℕ) (t : Turn) → AreChosen t.world → AreChosen (settled b t).world }
{}

/// A law: no node has the id that the server chooses next. A new node that asks for one with -1 is refused as having an
/// id in use only if none is left.
pub fn chosen_ids_are_free()
    ensures free { (w : World) (id : ℤ) → AreChosen w → w.next_id ≡ Some id → holds id w.nodes ≡ false }
    ensures groups { (w : World) (r : NewGroup) → AreChosen w → r.node.id ≡ negsuc 0 → judge_group w r ≡ Some IdInUse → w.next_id ≡ None }
    ensures synths { (r : NewSynth) (t : Turn) → AreChosen t.world → r.node.id ≡ negsuc 0 → new_outcome (Some r) t ≡ Err IdInUse → t.world.next_id ≡ None }
{}
