//! Laws of what an engine does, each a fact about all of it.
ghost use Rattle.std.specs.Prelude.{◌≡◌, ℕ, false, List, Option};
ghost use Rattle.std.specs.List.{AllByRecursion};
ghost use Rattle.sn_osc.specs.Shape.{MessageShape};
ghost use Rattle.sn_pcm.specs.declared.settings.Settings.{Settings};
ghost use Rattle.sn_world.specs.Choosing.{AreChosen};
ghost use Rattle.sn_world.specs.World.{Turn};
ghost use Rattle.sn_world.specs.Ending.{is_completing};
ghost use Rattle.sn_engine.specs.Boundary.{act_message};
ghost use Rattle.sn_engine.specs.Running.{Running, opened, at_boundary, with_block, with_settled};
ghost use Rattle.sn_engine.specs.Histories.{AreSteps};

/// Whatever a message carries, all of its completion messages act: none is left after as many acted as may nest.
pub fn no_completion_is_left()
    ensures { (from : ℕ) (m : MessageShape) (t : Turn) → is_completing (act_message from m t).next ≡ false }
{}

/// A law: from the opening on, over a whole run, the id that the server chooses next is below the ids of all nodes.
pub fn chosen_ids_are_below()
    ensures opens { (s : Settings) (base : ℕ) (limit : Option ℕ) (clients : ℕ) → AreChosen (opened s base limit clients).world }
    ensures boundaries { (r : Running) → AreChosen r.world → AreChosen (at_boundary r).world }
    ensures blocks { (r : Running) → AreChosen r.world → AreChosen (with_block r).world }
    ensures settles { (r : Running) → AreChosen r.world → AreChosen (with_settled r).world }
    ensures runs { (s : Settings) (base : ℕ) (limit : Option ℕ) (clients : ℕ) (rs : List Running) → AreSteps (opened s base limit clients) rs → AllByRecursion (λ (r : Running). AreChosen r.world) rs }
{}
