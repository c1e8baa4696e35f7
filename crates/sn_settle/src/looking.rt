//! What a block left in the state words of the units: triggers that are told, and ends that are noted.
ghost use Rattle.std.specs.Prelude.{◌≡◌, ◌≤◌, ◌<◌, ◌+◌, ◌*◌, ◌^◌, ℕ, length, map};
ghost use Rattle.sn_ports.specs.Limits.{most_clients};
ghost use Rattle.sn_def.specs.StateWords.{unit_words, units_words};
ghost use Rattle.sn_mem.specs.Words.{MayRead, SameButWords};
ghost use Rattle.sn_reply.specs.declared.events.Notice.{Notice};
ghost use Rattle.sn_world.specs.Settling.{triggers_at, endings_at, unit_triggers, unit_endings};
ghost use Rattle.sn_tree.specs.Trees.{running_labels};
ghost use Rattle.sn_world.specs.Pictures.{Pictures, WritesWorld};
ghost use Rattle.sn_world.specs.SettleWords.{walk_triggers, walk_endings};
ghost use Rattle.sn_world.specs.declared.endings.Ending.{Ending};
ghost use Rattle.sn_settle.specs.Telling.{HaveRoom, AreTold, AreNoted, CanLook, AreSeen};
ghost use Rattle.sn_settle.specs.Looking.{listed};
ghost use Rattle.sn_settle.specs.Eventful.{AreWithin, IsEventfulOf, IsWithin, all_endings, all_triggers, synth_at, synth_endings, synth_triggers};

use crate::eventful::{Eventful, EventfulSynth};
use crate::telling::tell;
use sn_def::{Def, Now, Unit};
use sn_mem::{Port, sample_of};
use sn_ports::Text;
use sn_reply::Notice;
use sn_world::{Ending, Endings, Flags, Stage};

/// The trigger that a unit sent in a block, its state's words being those from a place on.
fn trigger_at<P: Port>(port: &mut P, now: &Now, unit: &Unit, at: u32) -> Option<Notice>
    requires reads { (rate : ℕ) × MayRead (P.foot port.old) at (unit_words rate unit.now) }
    requires block { now.now.block < 2 ^ 63 }
    ensures trigger { listed result ≡ triggers_at now.now.block now.now.node unit.now at (P.words port.old) }
    ensures words { P.words port.new ≡ P.words port.old }
    ensures port { SameButWords P.foot P.rest port.old port.new }
{
    if !unit.sends() {
        return None;
    }
    if port.load(at) != now.block + 1 {
        return None;
    }
    let id = sample_of(port.load(at + 1));
    let value = sample_of(port.load(at + 2));
    Some(Notice::Tr {
        node: now.node,
        id,
        value,
    })
}

/// The end of a unit in the last block.
fn ending_at<P: Port>(port: &mut P, now: &Now, unit: &Unit, at: u32) -> Option<Ending>
    requires reads { (rate : ℕ) × MayRead (P.foot port.old) at (unit_words rate unit.now) }
    ensures ending { listed result ≡ endings_at now.now.node unit.now at (P.words port.old) }
    ensures words { P.words port.new ≡ P.words port.old }
    ensures port { SameButWords P.foot P.rest port.old port.new }
{
    let Some(action) = unit.done_action() else {
        return None;
    };
    if port.load(at) != 1 {
        return None;
    }
    Some(Ending {
        node: now.node,
        action,
    })
}

/// Tells of a trigger that was found.
fn tell_found(flags: &Flags, found: Option<Notice>, outs: &mut [Text])
    requires clients { length outs.old ≤ most_clients }
    requires room { HaveRoom (48 * length (listed found)) outs.old }
    ensures { AreTold flags.now (listed found) outs.old outs.new }
{
    match found {
        Some(notice) => tell(flags, &notice, outs),
        None => {}
    }
}

/// Notes an end that was found.
fn note_found(found: Option<Ending>, endings: &mut Endings)
    requires room { length (listed found) ≤ endings.old.spare }
    ensures { AreNoted (listed found) endings.old endings.new }
{
    match found {
        Some(ending) => endings.push_within(ending),
        None => {}
    }
}

/// Tells a unit's trigger, and notes its end.
fn look_at_unit<P: Port>(
    port: &mut P,
    flags: &Flags,
    now: &Now,
    unit: &Unit,
    at: u32,
    endings: &mut Endings,
    outs: &mut [Text],
)
    requires reads { (rate : ℕ) × MayRead (P.foot port.old) at (unit_words rate unit.now) }
    requires block { now.now.block < 2 ^ 63 }
    requires can { CanLook (triggers_at now.now.block now.now.node unit.now at (P.words port.old)) (endings_at now.now.node unit.now at (P.words port.old)) outs.old endings.old }
    ensures seen { AreSeen flags.now (triggers_at now.now.block now.now.node unit.now at (P.words port.old)) (endings_at now.now.node unit.now at (P.words port.old)) outs.old outs.new endings.old endings.new }
    ensures words { P.words port.new ≡ P.words port.old }
    ensures port { SameButWords P.foot P.rest port.old port.new }
{
    let trigger = trigger_at(port, now, unit, at);
    tell_found(flags, trigger, outs);
    let ending = ending_at(port, now, unit, at);
    note_found(ending, endings);
}

/// Tells the triggers of a synth's units, and notes their ends.
fn look_at_units<P: Port>(
    port: &mut P,
    flags: &Flags,
    now: &Now,
    def: &Def,
    units: &[Unit],
    at: u32,
    endings: &mut Endings,
    outs: &mut [Text],
)
    requires same { units.now ≡ def.now.units }
    requires reads { MayRead (P.foot port.old) at (units_words now.now.rate units.now) }
    requires block { now.now.block < 2 ^ 63 }
    requires can { CanLook (unit_triggers now.now.rate now.now.block now.now.node units.now at (P.words port.old)) (unit_endings now.now.rate now.now.node units.now at (P.words port.old)) outs.old endings.old }
    ensures seen { AreSeen flags.now (unit_triggers now.now.rate now.now.block now.now.node units.now at (P.words port.old)) (unit_endings now.now.rate now.now.node units.now at (P.words port.old)) outs.old outs.new endings.old endings.new }
    ensures words { P.words port.new ≡ P.words port.old }
    ensures port { SameButWords P.foot P.rest port.old port.new }
{
    let mut number = 0;
    for unit in units {
        let words = def.unit_words(number, now.rate);
        look_at_unit(port, flags, now, unit, at + words.first, endings, outs);
        number += 1;
    }
}

/// Tells the triggers of a synth, and notes the ends of its units.
fn look_at_synth<P: Port>(
    port: &mut P,
    stage: &Stage,
    block: u64,
    synth: &EventfulSynth,
    endings: &mut Endings,
    outs: &mut [Text],
)
    requires within { IsWithin stage.now.rate stage.now.pool.region (synth_at synth.now) }
    requires bounded { stage.now.pool.region.at + stage.now.pool.region.len < 4294967296 }
    requires foot { WritesWorld (P.foot port.old) stage.now.pool.region }
    requires block { block < 2 ^ 63 }
    requires can { CanLook (synth_triggers stage.now.rate block (synth_at synth.now) (P.words port.old)) (synth_endings stage.now.rate (synth_at synth.now) (P.words port.old)) outs.old endings.old }
    ensures seen { AreSeen stage.now.notify (synth_triggers stage.now.rate block (synth_at synth.now) (P.words port.old)) (synth_endings stage.now.rate (synth_at synth.now) (P.words port.old)) outs.old outs.new endings.old endings.new }
    ensures words { P.words port.new ≡ P.words port.old }
    ensures port { SameButWords P.foot P.rest port.old port.new }
{
    let now = Now {
        rate: stage.rate,
        block,
        node: synth.node,
        unit: 0,
    };
    let def = &synth.def;
    look_at_units(
        port,
        &stage.notify,
        &now,
        def,
        def.units.as_slice(),
        synth.state.at,
        endings,
        outs,
    );
}

/// Looks at synths, one after the other.
fn look_at_synths<P: Port>(
    port: &mut P,
    stage: &Stage,
    block: u64,
    synths: &[EventfulSynth],
    endings: &mut Endings,
    outs: &mut [Text],
)
    requires within { AreWithin stage.now.rate stage.now.pool.region (map synth_at synths.now) }
    requires bounded { stage.now.pool.region.at + stage.now.pool.region.len < 4294967296 }
    requires foot { WritesWorld (P.foot port.old) stage.now.pool.region }
    requires block { block < 2 ^ 63 }
    requires can { CanLook (all_triggers stage.now.rate block (map synth_at synths.now) (P.words port.old)) (all_endings stage.now.rate (map synth_at synths.now) (P.words port.old)) outs.old endings.old }
    ensures seen { AreSeen stage.now.notify (all_triggers stage.now.rate block (map synth_at synths.now) (P.words port.old)) (all_endings stage.now.rate (map synth_at synths.now) (P.words port.old)) outs.old outs.new endings.old endings.new }
    ensures words { P.words port.new ≡ P.words port.old }
    ensures port { SameButWords P.foot P.rest port.old port.new }
{
    for synth in synths {
        look_at_synth(port, stage, block, synth, endings, outs);
    }
}

/// Tells the triggers of all synths that ran in a block, and notes the ends of their units. Only the eventful ones are
/// looked at.
pub fn look_at_all<P: Port>(
    port: &mut P,
    stage: &Stage,
    eventful: &Eventful,
    block: u64,
    endings: &mut Endings,
    outs: &mut [Text],
)
    requires pictures { Pictures stage.now (P.words port.old) }
    requires eventful { IsEventfulOf stage.now eventful.now }
    requires foot { WritesWorld (P.foot port.old) stage.now.pool.region }
    requires block { block < 2 ^ 63 }
    requires can { CanLook (walk_triggers stage.now.rate block (running_labels stage.now.tree.attached) (P.words port.old)) (walk_endings stage.now.rate (running_labels stage.now.tree.attached) (P.words port.old)) outs.old endings.old }
    ensures seen { AreSeen stage.now.notify (walk_triggers stage.now.rate block (running_labels stage.now.tree.attached) (P.words port.old)) (walk_endings stage.now.rate (running_labels stage.now.tree.attached) (P.words port.old)) outs.old outs.new endings.old endings.new }
    ensures words { P.words port.new ≡ P.words port.old }
    ensures port { SameButWords P.foot P.rest port.old port.new }
{
    look_at_synths(port, stage, block, eventful.as_slice(), endings, outs);
}
