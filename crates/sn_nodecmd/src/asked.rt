//! What `/s_new` asks for.
ghost use Rattle.std.specs.Prelude.{◌≡◌, List, ℕ, map, is_some, IfSome};
ghost use Rattle.std.specs.Option.{option_map};
ghost use Rattle.std.specs.Borrow.{Bor};
ghost use Rattle.sn_osc.specs.Shape.{argument_of};
ghost use Rattle.sn_world.specs.Rows.{pairs};
ghost use Rattle.sn_world.specs.NewSynth.{text_of, control_value, new_synth};
ghost use Rattle.sn_nodecmd.specs.Asking.{request_of, AreValues};

use sn_osc::Arg;
use sn_world::{NewNode, Triple};

/// The arguments of `/s_new`.
#[derive(Clone, Copy)]
pub struct AskedSynth<'a> {
    /// The name of a definition.
    pub name: &'a [u8],
    pub node: NewNode,
    /// Controls and their values, in turn.
    pub values: &'a [Arg],
}

fn text_of(argument: &Arg) -> Option<&[u8]>
    ensures { option_map (λ (t : Bor (List ℕ)). t.now) result ≡ text_of (argument_of argument.now) }
{
    match argument {
        Arg::Text(text) => Some(text.as_slice()),
        _ => None,
    }
}

fn is_value(control: &Arg, value: &Arg) -> bool
    ensures { result ≡ is_some (control_value (argument_of control.now) (argument_of value.now)) }
{
    match (control, value) {
        (Arg::Blob(_), _) => false,
        (_, Arg::Int(_)) => true,
        _ => false,
    }
}

/// Whether the arguments are controls and values, in turn.
fn are_values(arguments: &[Arg]) -> bool
    ensures { result ≡ is_some (pairs control_value (map argument_of arguments.now)) }
{
    let mut rest = arguments;
    while let [control, value, after @ ..] = rest {
        if !is_value(control, value) {
            return false;
        }
        rest = after;
    }
    rest.is_empty()
}

/// What arguments ask for, if they are those of `/s_new`.
pub fn asked_by(arguments: &[Arg]) -> Option<AskedSynth<'_>>
    ensures request { option_map request_of result ≡ new_synth (map argument_of arguments.now) }
    ensures values { IfSome result (λ a. AreValues a.values.now) }
{
    let [name, id, action, target, values @ ..] = arguments else {
        return None;
    };
    let Some(name) = text_of(name) else {
        return None;
    };
    let Some(node) = NewNode::from_three(id, action, target) else {
        return None;
    };
    if !are_values(values) {
        return None;
    }
    Some(AskedSynth { name, node, values })
}
