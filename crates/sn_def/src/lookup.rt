//! The kinds by their names.
ghost use Rattle.std.specs.Prelude.{◌≡◌};
ghost use Rattle.std.specs.Str.{bytes_eq};
ghost use Rattle.sn_def.specs.Units.{kind_named, row_of};

use crate::kind::Kind;
use crate::table::{KINDS, row_of};

fn has_name(kind: Kind, name: &[u8]) -> bool
    ensures { result ≡ bytes_eq (row_of kind).name name.now }
{
    row_of(kind).name == name
}

/// The kind of this name.
#[tactic(auto, unfolding(crate::specs::Units::kind_named))]
pub(crate) fn kind_named(name: &[u8]) -> Option<Kind>
    ensures { result ≡ kind_named name.now }
{
    KINDS.iter().copied().find(|kind| has_name(*kind, name))
}
