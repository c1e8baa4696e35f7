//! Controls by their numbers or names.
ghost use Rattle.std.specs.Prelude.{◌≡◌};
ghost use Rattle.std.specs.Option.{option_map};
ghost use Rattle.sn_osc.specs.Shape.{argument_of};
ghost use Rattle.sn_def.specs.Defs.{definition_of};
ghost use Rattle.sn_world.specs.NewSynth.{control_name, control_of};
ghost use Rattle.sn_nodecmd.specs.Runs.{name_of};

use crate::controls::numbered;
use sn_def::Def;
use sn_osc::Arg;

/// A control of a definition, by its number or by its name.
#[derive(Clone, Copy, PartialEq, Eq, PartialOrd, Ord)]
pub enum NamedControl<'a> {
    Numbered(i32),
    Named(&'a [u8]),
}

/// The control that an argument names.
pub fn control_name(argument: &Arg) -> Option<NamedControl<'_>>
    ensures { option_map name_of result ≡ control_name (argument_of argument.now) }
{
    match argument {
        Arg::Int(number) => Some(NamedControl::Numbered(*number)),
        Arg::Text(name) => Some(NamedControl::Named(name.as_slice())),
        Arg::Blob(_) => None,
    }
}

/// Its number, if it is one of the definition's.
pub fn number_of(def: &Def, control: NamedControl<'_>) -> Option<u32>
    ensures { result ≡ control_of (definition_of def.now) (name_of control.entry) }
{
    match control {
        NamedControl::Numbered(number) => numbered(def, number),
        NamedControl::Named(name) => def.control_named(name),
    }
}
