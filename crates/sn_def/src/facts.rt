//! What the rows of kinds say of their units.
ghost use Rattle.std.specs.Prelude.{◌≡◌, slice_get};
ghost use Rattle.sn_def.specs.Units.{row_of};
ghost use Rattle.sn_def.specs.StateWords.{literal_value};
ghost use Rattle.sn_def.specs.Facts.{is_access, is_bank, touches, sends, action_of, done_action};

use crate::kind::Kind;
use crate::table::{self, Access, Bank, Ends, ends_of, row_of};
use crate::unit::{Input, Unit};

fn is_access(access: Access, used: Access) -> bool
    ensures { result ≡ is_access access used }
{
    match (access, used) {
        (Access::Read, Access::Read) => true,
        (Access::Write, Access::Write) => true,
        _ => false,
    }
}

fn is_bank(bank: Bank, used: Bank) -> bool
    ensures { result ≡ is_bank bank used }
{
    match (bank, used) {
        (Bank::Audio, Bank::Audio) => true,
        (Bank::Control, Bank::Control) => true,
        (Bank::Buffer, Bank::Buffer) => true,
        _ => false,
    }
}

/// Whether units of a kind read, or write, buses or buffers of a sort.
pub fn touches(access: Access, bank: Bank, kind: Kind) -> bool
    ensures { result ≡ touches access bank kind }
{
    match row_of(kind).uses {
        Some(used) => is_access(access, used.access) && is_bank(bank, used.bank),
        None => false,
    }
}

/// The value of an input that is a literal.
fn literal_at(inputs: &[Input], place: u32) -> i32
    ensures { result ≡ literal_value (slice_get inputs.now place) }
{
    match inputs.get(place as usize) {
        Some(Input::Literal(value)) => *value,
        _ => 0,
    }
}

fn action_of(ends: Ends, inputs: &[Input]) -> Option<i32>
    ensures { result ≡ action_of ends inputs.now }
{
    match ends {
        Ends::Never => None,
        Ends::Input(place) => Some(literal_at(inputs, place)),
        Ends::Always(action) => Some(action),
    }
}

impl Unit {
    /// Whether the unit sends triggers.
    pub fn sends(&self) -> bool
        ensures { result ≡ sends self.now.kind }
    {
        table::sends(self.kind)
    }

    /// What the unit does when it ends, if it is one that ends.
    pub fn done_action(&self) -> Option<i32>
        ensures { result ≡ done_action self.now.kind self.now.inputs }
    {
        action_of(ends_of(self.kind), self.inputs.as_slice())
    }
}
