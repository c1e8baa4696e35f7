//! The wires that a unit line names.
ghost use Rattle.std.specs.Prelude.{◌≡◌, ◌≤◌, ◌+◌, length};
ghost use Rattle.std.specs.List.{list_all};
ghost use Rattle.sn_ports.specs.Limits.{most_wires};
ghost use Rattle.sn_def.specs.Reading.{wires_at, is_name};
ghost use Rattle.sn_def.specs.Answers.{Gives, texts};

use crate::draft::Draft;
use crate::fault::{DefKind, Refused};
use crate::fields::is_name;
use crate::version::Version;
use std::alloc::Global;

/// Gives each name to a new wire. Each name has to be new.
pub(crate) fn give_wires<'a>(
    alloc: Global,
    draft: Draft<'a>,
    names: &[&'a [u8]],
) -> Result<Draft<'a>, Refused>
    requires { length draft.wires + length names.now ≤ most_wires }
    ensures { Gives (λ d. d) result (wires_at draft.entry (texts names.now)) }
{
    let mut given = draft;
    for name in names {
        if given.find(name).is_some() {
            return Err(Refused::Because(DefKind::Twice));
        }
        given = given.with_wire(alloc, name)?;
    }
    Ok(given)
}

fn all_names(version: Version, fields: &[&[u8]]) -> bool
    ensures { result ≡ list_all (λ f. is_name version f.now) fields.now }
{
    fields.iter().all(|field| is_name(version, *field))
}

/// Whether each field is a name.
pub(crate) fn are_names(version: Version, fields: &[&[u8]]) -> bool
    ensures { result ≡ list_all (is_name version) (texts fields.now) }
{
    all_names(version, fields)
}
