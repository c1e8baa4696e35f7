//! What a unit uses.
ghost use Rattle.std.specs.Prelude.{◌≡◌, ◌<◌, ◌-◌, ◌^◌, length};
ghost use Rattle.sn_synth.specs.Conditions.{index_of, index_value};
ghost use Rattle.sn_def.specs.declared.table.Bank.TheVariants.{Audio};
ghost use Rattle.sn_foot.specs.Putting.{span};

use sn_def::{Access, Bank, Control, Input, Unit};

/// How many signals follow a unit's index.
fn signals(unit: &Unit) -> usize
    ensures count { result ≡ length unit.now.inputs - 1 }
    ensures few { result < 2 ^ 61 }
{
    unit.inputs.as_slice().len().saturating_sub(1)
}

/// How many buses a unit uses from its index on, if it uses any.
fn channels(access: Access, unit: &Unit) -> usize
    ensures count { result ≡ span access Audio unit.now }
    ensures few { result < 2 ^ 61 }
{
    match access {
        Access::Read => unit.outputs as usize,
        Access::Write => signals(unit),
    }
}

/// How many resources of a sort a unit uses from its index on, if it uses any.
pub fn span(access: Access, bank: Bank, unit: &Unit) -> usize
    ensures count { result ≡ span access bank unit.now }
    ensures few { result < 2 ^ 61 }
{
    match bank {
        Bank::Audio => channels(access, unit),
        Bank::Control => channels(access, unit),
        Bank::Buffer => 1,
    }
}

/// The present value of an index input.
fn index_value(controls: &[Control], input: &Input) -> i32
    ensures { result ≡ index_value controls.now input.now }
{
    match input {
        Input::Literal(value) => *value,
        Input::Control(number) => match controls.get(*number as usize) {
            Some(control) => control.value,
            None => 0,
        },
        Input::Wire(_) => 0,
    }
}

/// The present value of a unit's index, which is its first input.
pub fn index_of(controls: &[Control], unit: &Unit) -> i32
    ensures { result ≡ index_of controls.now unit.now }
{
    match unit.inputs.as_slice().first() {
        Some(input) => index_value(controls, input),
        None => 0,
    }
}
