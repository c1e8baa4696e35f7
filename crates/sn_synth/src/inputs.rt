//! The blocks of a unit's inputs.
ghost use Rattle.std.specs.Prelude.{◌≡◌, ◌<◌, ◌≤◌, ◌++◌, ◌∷◌, [], length};
ghost use Rattle.sn_ports.specs.Limits.{most_wires};
ghost use Rattle.sn_synth.specs.Synths.{input_block, input_blocks};
ghost use Rattle.sn_synth.specs.Conditions.{IsKnown, AreKnown};

use sn_def::Input;
use sn_mem::{Blocks, Values};

fn push_input(input: Input, values: &Values, wires: &Blocks, blocks: &mut Blocks)
    requires known { IsKnown (length values.now) (length wires.now) input }
    requires room { length blocks.old < most_wires }
    ensures { blocks.new ≡ blocks.old ++ input_block values.now wires.now input ∷ [] }
{
    match input {
        Input::Literal(value) => blocks.push_equal(value),
        Input::Control(number) => blocks.push_equal(values.at(number as usize)),
        Input::Wire(number) => blocks.push_from(wires, number as usize),
    }
}

/// Replaces what `blocks` held by the blocks of a unit's inputs, in their order.
pub(crate) fn gather(inputs: &[Input], values: &Values, wires: &Blocks, blocks: &mut Blocks)
    requires known { AreKnown (length values.now) (length wires.now) inputs.now }
    requires few { length inputs.now ≤ most_wires }
    ensures { blocks.new ≡ input_blocks values.now wires.now inputs.now }
{
    blocks.clear();
    for input in inputs {
        push_input(*input, values, wires, blocks);
    }
}
