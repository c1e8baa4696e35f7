//! Values that are set.
ghost use Rattle.std.specs.Prelude.{◌≡◌, ◌<◌, ℕ, List, map, None};
ghost use Rattle.sn_ports.specs.Limits.{control_bus_count};
ghost use Rattle.sn_osc.specs.Shape.{argument_of};
ghost use Rattle.sn_mem.specs.Words.{SameButWords};
ghost use Rattle.sn_mem.specs.Buses.{control_buses};
ghost use Rattle.sn_reply.specs.Replies.{ReplyShape};
ghost use Rattle.sn_world.specs.declared.stage.Stage.{Stage};
ghost use Rattle.sn_world.specs.World.{turn_of};
ghost use Rattle.sn_world.specs.Pictures.{Pictures, WritesBuses};
ghost use Rattle.sn_world.specs.Rows.{first_refusal};
ghost use Rattle.sn_world.specs.Buses.{bus_refusal, with_value, set_row};
ghost use Rattle.sn_world.specs.Answers.{Follows, UnlessFollowed};
ghost use Rattle.sn_buscmd.specs.Setting.{change_all, set_pair, value_refusal, KeepsOtherWords};

use crate::judging::first_refusal;
use sn_mem::{Places, Port, word_of};
use sn_osc::Arg;
use sn_ports::NoMemory;
use sn_reply::Reason;
use sn_world::{BusValue, pairs, some_of};
use std::alloc::Global;

/// Sets the control bus with a number.
pub fn set_value<P: Port>(port: &mut P, number: u32, value: i32)
    requires bus { number < control_bus_count }
    requires foot { WritesBuses (P.foot port.old) }
    ensures buses { control_buses (P.words port.new) ≡ with_value (control_buses (P.words port.old)) number value }
    ensures others { KeepsOtherWords (P.words port.old) (P.words port.new) }
    ensures port { SameButWords P.foot P.rest port.old port.new }
{
    port.store(Places::control(number).at + 1, word_of(value));
}

/// Sets one control bus.
fn set_bus<P: Port>(port: &mut P, pair: &BusValue)
    requires bus { bus_refusal pair.now.bus ≡ None }
    requires foot { WritesBuses (P.foot port.old) }
    ensures buses { control_buses (P.words port.new) ≡ set_pair pair.now (control_buses (P.words port.old)) }
    ensures others { KeepsOtherWords (P.words port.old) (P.words port.new) }
    ensures port { SameButWords P.foot P.rest port.old port.new }
{
    set_value(port, pair.bus as u32, pair.value);
}

/// Sets control buses, one after the other.
fn set_buses<P: Port>(port: &mut P, pairs: &[BusValue])
    requires all { first_refusal value_refusal pairs.now ≡ None }
    requires foot { WritesBuses (P.foot port.old) }
    ensures buses { control_buses (P.words port.new) ≡ change_all set_pair pairs.now (control_buses (P.words port.old)) }
    ensures others { KeepsOtherWords (P.words port.old) (P.words port.new) }
    ensures port { SameButWords P.foot P.rest port.old port.new }
{
    for pair in pairs {
        set_bus(port, pair);
    }
}

/// `/c_set` (bus value)..
pub fn run_set<P: Port>(
    alloc: Global,
    port: &mut P,
    arguments: &[Arg],
) -> Result<Option<Reason>, NoMemory>
    requires foot { WritesBuses (P.foot port.old) }
    ensures row { (from : ℕ) (stage : Stage) (replies : List ReplyShape) → Pictures stage (P.words port.old)
        → Follows result (set_row from (map argument_of arguments.now) (turn_of stage (P.words port.old) replies)) (turn_of stage (P.words port.new) replies) }
    ensures unchanged { UnlessFollowed result (P.words port.new ≡ P.words port.old) }
    ensures others { KeepsOtherWords (P.words port.old) (P.words port.new) }
    ensures port { SameButWords P.foot P.rest port.old port.new }
{
    let Some(all) = some_of(pairs::<BusValue>(alloc, arguments)?) else {
        return Ok(Some(Reason::Arguments));
    };
    if let Some(reason) = first_refusal(&all, ()) {
        return Ok(Some(reason));
    }
    set_buses(port, &all);
    Ok(None)
}
