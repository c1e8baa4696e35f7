//! Definitions of instruments: the text in which they are written, read and printed.
#![tactic(auto)]

mod arrays;
mod asked;
mod control;
mod controls;
mod definition;
mod draft;
mod facts;
mod fault;
mod fields;
mod inputs;
mod kind;
mod known;
mod laws;
mod layout;
mod line;
mod lookup;
mod parts;
mod printing;
mod state;
mod table;
mod text;
mod unit;
mod version;
mod wires;

pub use arrays::{Run, Runs};
pub use control::{Control, Controls, Now};
pub use definition::{Def, Names, Param, Params};
pub use facts::touches;
pub use fault::{DefFault, DefKind, Unread};
pub use kind::Kind;
pub use laws::{
    first_fault_is_read, kinds_are_named, lines_are_judged, lines_are_read, names_are_short,
    no_prefix, one_definition, rows_fit, written_is_well_formed,
};
pub use layout::UnitWords;
pub use printing::print;
pub use table::{Access, Bank, Ends, Family, Mark, Row, StateSize, Use, family_of, row_of};
pub use text::read;
pub use unit::{Input, Inputs, Unit, Units};
