//! The lines of units, and each line after the first two.
ghost use Rattle.std.specs.Prelude.{◌≡◌, ◌==◌, ◌<◌, ◌≤◌, ◌+◌, length, Err, IfOk, IfErr, OnOk};
ghost use Rattle.std.specs.List.{list_any};
ghost use Rattle.sn_ports.specs.Limits.{most_units, most_wires};
ghost use Rattle.sn_def.specs.Reading.{unit_with, unit_at, line_at, first_of};
ghost use Rattle.sn_def.specs.Parts.{parts_seen};
ghost use Rattle.sn_def.specs.Answers.{Gives, texts};

use crate::controls::{array_line, control_line};
use crate::draft::Draft;
use crate::fault::{DefKind, Refused};
use crate::fields::{is_array_word, is_reserved};
use crate::inputs::inputs;
use crate::kind::Kind;
use crate::lookup::kind_named;
use crate::parts::{Parts, counts_fit, unit_parts};
use crate::table::row_of;
use crate::version::Version;
use crate::wires::{are_names, give_wires};
use sn_ports::limits::{MOST_UNITS, MOST_WIRES};
use std::alloc::Global;

/// The kind of a unit of these counts and names, or what is wrong with them.
#[tactic(auto, unfolding(crate::specs::Reading::unit_at, crate::specs::Reading::unit_of))]
fn unit_kind<'a>(version: Version, draft: &Draft<'a>, parts: Parts<'_, 'a>) -> Result<Kind, DefKind>
    ensures right { IfOk result (λ kind. unit_at version draft.now (parts_seen parts.entry) ≡ unit_with draft.now (parts_seen parts.entry) kind) }
    ensures wrong { IfErr result (λ kind. unit_at version draft.now (parts_seen parts.entry) ≡ Err kind) }
    ensures units { OnOk result (length draft.now.units < most_units) }
    ensures wires { OnOk result (length draft.now.wires + length parts.entry.outputs.now ≤ most_wires) }
{
    if draft.units() >= MOST_UNITS || draft.wires() + parts.outputs.len() > MOST_WIRES {
        return Err(DefKind::Limit);
    }
    let Some(kind) = kind_named(parts.unit) else {
        return Err(DefKind::Unit);
    };
    if !counts_fit(&row_of(kind), parts.inputs.len(), parts.outputs.len()) {
        return Err(DefKind::Count);
    }
    if !are_names(version, parts.outputs) {
        return Err(DefKind::Name);
    }
    Ok(kind)
}

/// One more unit, of this kind and with right counts and names.
///
/// Its inputs are found before its names are given, so none of them is a wire of its own. A name that is given twice
/// comes before what is wrong with an input.
fn unit_with<'a>(
    alloc: Global,
    draft: Draft<'a>,
    parts: Parts<'_, 'a>,
    kind: Kind,
) -> Result<Draft<'a>, Refused>
    requires units { length draft.units < most_units }
    requires wires { length draft.wires + length parts.outputs.now ≤ most_wires }
    ensures { Gives (λ d. d) result (unit_with draft.entry (parts_seen parts.entry) kind) }
{
    let row = row_of(kind);
    let inputs = inputs(alloc, &draft, row.inputs, parts.inputs);
    let named = give_wires(alloc, draft, parts.outputs)?;
    Ok(named.with_unit(kind, inputs?, parts.outputs.len() as u32)?)
}

/// A unit line, by its parts. Its counts and names are judged first, which takes no memory.
fn unit<'a>(
    alloc: Global,
    version: Version,
    draft: Draft<'a>,
    parts: Parts<'_, 'a>,
) -> Result<Draft<'a>, Refused>
    ensures { Gives (λ d. d) result (unit_at version draft.entry (parts_seen parts.entry)) }
{
    let kind = unit_kind(version, &draft, parts)?;
    unit_with(alloc, draft, parts, kind)
}

/// Whether one of the fields is empty.
fn any_empty(fields: &[&[u8]]) -> bool
    ensures { result ≡ list_any (λ f. length f.now == 0) fields.now }
{
    fields.iter().any(|field| (*field).is_empty())
}

fn has_empty(fields: &[&[u8]]) -> bool
    ensures { result ≡ list_any (λ f. length f == 0) (texts fields.now) }
{
    any_empty(fields)
}

fn first_of<'a>(fields: &[&'a [u8]]) -> &'a [u8]
    ensures { result.now ≡ first_of (texts fields.now) }
{
    match fields {
        [] => &[],
        [word, ..] => word,
    }
}

/// A line between the first two and `end`, by its fields.
#[tactic(auto, unfolding(crate::specs::Reading::line_at))]
pub(crate) fn line<'a>(
    alloc: Global,
    version: Version,
    draft: Draft<'a>,
    fields: &[&'a [u8]],
) -> Result<Draft<'a>, Refused>
    ensures { Gives (λ d. d) result (line_at version draft.entry (texts fields.now)) }
{
    if has_empty(fields) {
        return Err(Refused::Because(DefKind::Line));
    }
    let word = first_of(fields);
    if word == b"control".as_slice() {
        return control_line(alloc, version, draft, fields);
    }
    if is_array_word(version, word) {
        return array_line(alloc, version, draft, fields);
    }
    if is_reserved(version, word) {
        return Err(Refused::Because(DefKind::Line));
    }
    match unit_parts(fields) {
        None => Err(Refused::Because(DefKind::Line)),
        Some(parts) => unit(alloc, version, draft, parts),
    }
}
