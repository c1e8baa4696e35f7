//! Runs of buses that are set to values.
ghost use Rattle.std.specs.Prelude.{◌≡◌, ℕ, List, length, map, None};
ghost use Rattle.sn_osc.specs.Shape.{argument_of};
ghost use Rattle.sn_mem.specs.Words.{SameButWords};
ghost use Rattle.sn_mem.specs.Buses.{control_buses};
ghost use Rattle.sn_reply.specs.Replies.{ReplyShape};
ghost use Rattle.sn_world.specs.declared.stage.Stage.{Stage};
ghost use Rattle.sn_world.specs.World.{turn_of};
ghost use Rattle.sn_world.specs.Pictures.{Pictures, WritesBuses};
ghost use Rattle.sn_world.specs.Rows.{first_refusal};
ghost use Rattle.sn_world.specs.Buses.{run_refusal};
ghost use Rattle.sn_world.specs.Runs.{setn_row};
ghost use Rattle.sn_world.specs.Answers.{Follows, UnlessFollowed};
ghost use Rattle.sn_buscmd.specs.Setting.{change_all, set_values, values_refusal, KeepsOtherWords};

use crate::judging::first_refusal;
use crate::setting::set_value;
use sn_mem::Port;
use sn_osc::Arg;
use sn_ports::NoMemory;
use sn_reply::Reason;
use sn_world::{ValueRun, some_of, value_runs};
use std::alloc::Global;

/// Sets control buses in a row, each to its value.
fn set_run<P: Port>(port: &mut P, run: &ValueRun)
    requires run { run_refusal run.now.first (length run.now.values) ≡ None }
    requires foot { WritesBuses (P.foot port.old) }
    ensures buses { control_buses (P.words port.new) ≡ set_values run.now (control_buses (P.words port.old)) }
    ensures others { KeepsOtherWords (P.words port.old) (P.words port.new) }
    ensures port { SameButWords P.foot P.rest port.old port.new }
{
    let values = run.values();
    let mut number = run.first() as u32;
    for value in values {
        set_value(port, number, *value);
        number += 1;
    }
}

/// Sets runs of control buses, one after the other.
fn set_runs<P: Port>(port: &mut P, runs: &[ValueRun])
    requires all { first_refusal values_refusal runs.now ≡ None }
    requires foot { WritesBuses (P.foot port.old) }
    ensures buses { control_buses (P.words port.new) ≡ change_all set_values runs.now (control_buses (P.words port.old)) }
    ensures others { KeepsOtherWords (P.words port.old) (P.words port.new) }
    ensures port { SameButWords P.foot P.rest port.old port.new }
{
    for run in runs {
        set_run(port, run);
    }
}

/// `/c_setn` (bus count value..)..
pub fn run_set_runs<P: Port>(
    alloc: Global,
    port: &mut P,
    arguments: &[Arg],
) -> Result<Option<Reason>, NoMemory>
    requires foot { WritesBuses (P.foot port.old) }
    ensures row { (from : ℕ) (stage : Stage) (replies : List ReplyShape) → Pictures stage (P.words port.old)
        → Follows result (setn_row from (map argument_of arguments.now) (turn_of stage (P.words port.old) replies)) (turn_of stage (P.words port.new) replies) }
    ensures unchanged { UnlessFollowed result (P.words port.new ≡ P.words port.old) }
    ensures others { KeepsOtherWords (P.words port.old) (P.words port.new) }
    ensures port { SameButWords P.foot P.rest port.old port.new }
{
    let Some(all) = some_of(value_runs(alloc, arguments)?) else {
        return Ok(Some(Reason::Arguments));
    };
    if let Some(reason) = first_refusal(&all, ()) {
        return Ok(Some(reason));
    }
    set_runs(port, &all);
    Ok(None)
}
