//! Done words of units that ended in the last block.
ghost use Rattle.std.specs.Prelude.{◌≡◌, ◌<◌, ◌+◌, ℕ, map};
ghost use Rattle.sn_def.specs.StateWords.{unit_words, units_words};
ghost use Rattle.sn_mem.specs.Words.{MayWrite, SameButWords};
ghost use Rattle.sn_tree.specs.Trees.{running_labels};
ghost use Rattle.sn_world.specs.Pictures.{Pictures, WritesWorld};
ghost use Rattle.sn_world.specs.Settling.{settled_at, settled_units};
ghost use Rattle.sn_world.specs.SettleWords.{settled_walk};
ghost use Rattle.sn_settle.specs.Eventful.{AreWithin, IsEventfulOf, IsWithin, all_settled, settled_synth, synth_at};

use crate::eventful::{Eventful, EventfulSynth};
use sn_def::{Def, Unit};
use sn_mem::Port;
use sn_world::Stage;

/// Sets a unit's done word to 2 if it is 1.
fn settle_unit<P: Port>(port: &mut P, unit: &Unit, at: u32)
    requires writes { (rate : ℕ) × MayWrite (P.foot port.old) at (unit_words rate unit.now) }
    ensures words { P.words port.new ≡ settled_at unit.now at (P.words port.old) }
    ensures port { SameButWords P.foot P.rest port.old port.new }
{
    let Some(_action) = unit.done_action() else {
        return;
    };
    if port.load(at) == 1 {
        port.store(at, 2);
    }
}

/// Sets each done word of a synth's units to 2 if it is 1.
fn settle_units<P: Port>(port: &mut P, rate: u32, def: &Def, units: &[Unit], at: u32)
    requires same { units.now ≡ def.now.units }
    requires writes { MayWrite (P.foot port.old) at (units_words rate units.now) }
    ensures words { P.words port.new ≡ settled_units rate units.now at (P.words port.old) }
    ensures port { SameButWords P.foot P.rest port.old port.new }
{
    let mut number = 0;
    for unit in units {
        let words = def.unit_words(number, rate);
        settle_unit(port, unit, at + words.first);
        number += 1;
    }
}

/// The same of a synth.
fn settle_synth<P: Port>(port: &mut P, stage: &Stage, synth: &EventfulSynth)
    requires within { IsWithin stage.now.rate stage.now.pool.region (synth_at synth.now) }
    requires bounded { stage.now.pool.region.at + stage.now.pool.region.len < 4294967296 }
    requires foot { WritesWorld (P.foot port.old) stage.now.pool.region }
    ensures words { P.words port.new ≡ settled_synth stage.now.rate (synth_at synth.now) (P.words port.old) }
    ensures port { SameButWords P.foot P.rest port.old port.new }
{
    let def = &synth.def;
    settle_units(port, stage.rate, def, def.units.as_slice(), synth.state.at);
}

/// The same of synths, one after the other.
fn settle_synths<P: Port>(port: &mut P, stage: &Stage, synths: &[EventfulSynth])
    requires within { AreWithin stage.now.rate stage.now.pool.region (map synth_at synths.now) }
    requires bounded { stage.now.pool.region.at + stage.now.pool.region.len < 4294967296 }
    requires foot { WritesWorld (P.foot port.old) stage.now.pool.region }
    ensures words { P.words port.new ≡ all_settled stage.now.rate (map synth_at synths.now) (P.words port.old) }
    ensures port { SameButWords P.foot P.rest port.old port.new }
{
    for synth in synths {
        settle_synth(port, stage, synth);
    }
}

/// Sets each done word of all synths that ran to 2 if it is 1.
pub fn settle_words<P: Port>(port: &mut P, stage: &Stage, eventful: &Eventful)
    requires pictures { Pictures stage.now (P.words port.old) }
    requires eventful { IsEventfulOf stage.now eventful.now }
    requires foot { WritesWorld (P.foot port.old) stage.now.pool.region }
    ensures words { P.words port.new ≡ settled_walk stage.now.rate (running_labels stage.now.tree.attached) (P.words port.old) }
    ensures port { SameButWords P.foot P.rest port.old port.new }
{
    settle_synths(port, stage, eventful.as_slice());
}
