//! Runs of buses that are set to one value.
ghost use Rattle.std.specs.Prelude.{◌≡◌, ◌≤◌, ◌+◌, ℕ, List, map, None, OnErr, OnOk};
ghost use Rattle.std.specs.List.{All};
ghost use Rattle.sn_ports.specs.Limits.{control_bus_count};
ghost use Rattle.sn_osc.specs.Shape.{argument_of};
ghost use Rattle.sn_mem.specs.Words.{SameButWords};
ghost use Rattle.sn_mem.specs.Buses.{control_buses};
ghost use Rattle.sn_reply.specs.Replies.{ReplyShape};
ghost use Rattle.sn_world.specs.declared.stage.Stage.{Stage};
ghost use Rattle.sn_world.specs.World.{turn_of};
ghost use Rattle.sn_world.specs.Pictures.{Pictures, WritesBuses};
ghost use Rattle.sn_world.specs.Rows.{first_refusal};
ghost use Rattle.sn_world.specs.Buses.{fill_row};
ghost use Rattle.sn_world.specs.Answers.{Follows, UnlessFollowed};
ghost use Rattle.sn_buscmd.specs.Fills.{fill_buses};
ghost use Rattle.sn_buscmd.specs.Setting.{change_all, fill_run, fill_refusal, KeepsOtherWords};

use crate::fills::fills_of;
use crate::judging::first_refusal;
use crate::setting::set_value;
use sn_fills::{Fill, once_each};
use sn_mem::Port;
use sn_osc::Arg;
use sn_ports::NoMemory;
use sn_reply::Reason;
use sn_world::{BusFill, some_of, triples};
use std::alloc::Global;

/// Sets control buses in a row to one value.
fn fill_buses<P: Port>(port: &mut P, fill: &Fill)
    requires within { fill.now.first + fill.now.count ≤ control_bus_count }
    requires foot { WritesBuses (P.foot port.old) }
    ensures buses { control_buses (P.words port.new) ≡ fill_buses fill.now (control_buses (P.words port.old)) }
    ensures others { KeepsOtherWords (P.words port.old) (P.words port.new) }
    ensures port { SameButWords P.foot P.rest port.old port.new }
{
    for number in fill.first..fill.end() {
        set_value(port, number, fill.value);
    }
}

/// Fills control buses, one fill after the other.
fn fill_each<P: Port>(port: &mut P, fills: &[Fill])
    requires within { All (λ f. f.first + f.count ≤ control_bus_count) fills.now }
    requires foot { WritesBuses (P.foot port.old) }
    ensures buses { control_buses (P.words port.new) ≡ change_all fill_buses fills.now (control_buses (P.words port.old)) }
    ensures others { KeepsOtherWords (P.words port.old) (P.words port.new) }
    ensures port { SameButWords P.foot P.rest port.old port.new }
{
    for fill in fills {
        fill_buses(port, fill);
    }
}

/// Fills runs of control buses, each bus once.
fn fill_runs<P: Port>(alloc: Global, port: &mut P, runs: &[BusFill]) -> Result<(), NoMemory>
    requires all { first_refusal fill_refusal runs.now ≡ None }
    requires foot { WritesBuses (P.foot port.old) }
    ensures buses { OnOk result (control_buses (P.words port.new) ≡ change_all fill_run runs.now (control_buses (P.words port.old))) }
    ensures unchanged { OnErr result (P.words port.new ≡ P.words port.old) }
    ensures others { KeepsOtherWords (P.words port.old) (P.words port.new) }
    ensures port { SameButWords P.foot P.rest port.old port.new }
{
    let fills = fills_of(alloc, runs)?;
    let once = once_each(alloc, &fills)?;
    fill_each(port, &once);
    Ok(())
}

/// `/c_fill` (bus count value)..
pub fn run_fill<P: Port>(
    alloc: Global,
    port: &mut P,
    arguments: &[Arg],
) -> Result<Option<Reason>, NoMemory>
    requires foot { WritesBuses (P.foot port.old) }
    ensures row { (from : ℕ) (stage : Stage) (replies : List ReplyShape) → Pictures stage (P.words port.old)
        → Follows result (fill_row from (map argument_of arguments.now) (turn_of stage (P.words port.old) replies)) (turn_of stage (P.words port.new) replies) }
    ensures unchanged { UnlessFollowed result (P.words port.new ≡ P.words port.old) }
    ensures others { KeepsOtherWords (P.words port.old) (P.words port.new) }
    ensures port { SameButWords P.foot P.rest port.old port.new }
{
    let Some(all) = some_of(triples::<BusFill>(alloc, arguments)?) else {
        return Ok(Some(Reason::Arguments));
    };
    if let Some(reason) = first_refusal(&all, ()) {
        return Ok(Some(reason));
    }
    fill_runs(alloc, port, &all)?;
    Ok(None)
}
