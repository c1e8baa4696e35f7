//! The lines of controls and of arrays of controls.
ghost use Rattle.std.specs.Prelude.{◌≡◌, ◌+◌, ◌<◌, ◌≤◌, false, length, Ok, Err, None, IfOk, IfErr, OnOk, FitsSigned};
ghost use Rattle.std.specs.Int.{w32};
ghost use Rattle.sn_ports.specs.Limits.{most_wires, most_elements};
ghost use Rattle.sn_fixed.specs.Literal.{literal};
ghost use Rattle.sn_def.specs.Definition.{named, with_control};
ghost use Rattle.sn_def.specs.Drafts.{has_point};
ghost use Rattle.sn_def.specs.Reading.{control_at, control_line_at, default_of, defaults_at, array_with, array_at, array_line_at};
ghost use Rattle.sn_def.specs.Answers.{Gives, texts};

use crate::draft::Draft;
use crate::fault::{DefKind, Refused};
use crate::fields::is_name;
use crate::version::Version;
use sn_fixed::literal;
use sn_ports::limits::MOST_ELEMENTS;
use std::alloc::Global;

/// The first value of a control of this name, or what is wrong with its line.
#[tactic(auto, unfolding(crate::specs::Reading::control_at))]
fn control_value<'a>(
    version: Version,
    draft: &Draft<'a>,
    name: &'a [u8],
    value: &[u8],
) -> Result<i32, DefKind>
    ensures right { IfOk result (λ default. control_at version draft.now name.now value.now ≡ Ok (with_control draft.now name.now default)) }
    ensures wrong { IfErr result (λ kind. control_at version draft.now name.now value.now ≡ Err kind) }
    ensures fresh { OnOk result (named draft.now name.now ≡ None) }
    ensures room { OnOk result (length draft.now.controls < most_wires) }
{
    if draft.units() != 0 {
        return Err(DefKind::Line);
    }
    if draft.controls() >= version.most_controls() {
        return Err(DefKind::Limit);
    }
    if !is_name(version, name) {
        return Err(DefKind::Name);
    }
    if draft.find(name).is_some() {
        return Err(DefKind::Twice);
    }
    match literal(value) {
        None => Err(DefKind::Number),
        Some(default) => Ok(default),
    }
}

/// One more control. Its line is judged first, which takes no memory.
fn control<'a>(
    alloc: Global,
    version: Version,
    draft: Draft<'a>,
    name: &'a [u8],
    value: &[u8],
) -> Result<Draft<'a>, Refused>
    ensures { Gives (λ d. d) result (control_at version draft.entry name.now value.now) }
{
    let default = control_value(version, &draft, name, value)?;
    Ok(draft.with_control(alloc, name, default)?)
}

/// A line `control NAME LITERAL`, by its fields.
pub(crate) fn control_line<'a>(
    alloc: Global,
    version: Version,
    draft: Draft<'a>,
    fields: &[&'a [u8]],
) -> Result<Draft<'a>, Refused>
    ensures { Gives (λ d. d) result (control_line_at version draft.entry (texts fields.now)) }
{
    match fields {
        [_, name, value] => control(alloc, version, draft, name, value),
        _ => Err(Refused::Because(DefKind::Line)),
    }
}

/// The value of a literal.
fn default_of(field: &[u8]) -> Result<i32, DefKind>
    ensures value { result ≡ default_of (literal field.now) }
    ensures fits { IfOk result (λ x. FitsSigned w32 x) }
{
    match literal(field) {
        None => Err(DefKind::Number),
        Some(value) => Ok(value),
    }
}

/// The values of literals.
fn defaults(alloc: Global, literals: &[&[u8]]) -> Result<Vec<i32>, Refused>
    ensures { Gives (λ v. v.items) result (defaults_at (texts literals.now)) }
{
    let mut values = Vec::new(alloc);
    for field in literals {
        let value = default_of(field)?;
        values.push(value)?;
    }
    Ok(values)
}

/// Whether an array of this name, with these literals, may stand here, or what is wrong with its line.
#[tactic(auto, using(crate::proofs::ElementNames::name_plain), unfolding(crate::specs::Reading::array_at))]
fn judge_array<'a>(
    version: Version,
    draft: &Draft<'a>,
    name: &'a [u8],
    literals: &[&[u8]],
) -> Result<(), DefKind>
    ensures right { OnOk result (array_at version draft.now name.now (texts literals.now) ≡ array_with draft.now name.now (texts literals.now)) }
    ensures wrong { IfErr result (λ kind. array_at version draft.now name.now (texts literals.now) ≡ Err kind) }
    ensures fresh { OnOk result (named draft.now name.now ≡ None) }
    ensures plain { OnOk result (has_point name.now ≡ false) }
    ensures few { OnOk result (length literals.now ≤ most_elements) }
    ensures room { OnOk result (length draft.now.controls + length literals.now ≤ most_wires) }
{
    if draft.units() != 0 {
        return Err(DefKind::Line);
    }
    if literals.len() > MOST_ELEMENTS
        || draft.controls() + literals.len() > version.most_controls()
    {
        return Err(DefKind::Limit);
    }
    if !is_name(version, name) {
        return Err(DefKind::Name);
    }
    if draft.find(name).is_some() {
        return Err(DefKind::Twice);
    }
    Ok(())
}

/// One more array. Its line is judged first, which takes no memory.
fn array<'a>(
    alloc: Global,
    version: Version,
    draft: Draft<'a>,
    name: &'a [u8],
    literals: &[&[u8]],
) -> Result<Draft<'a>, Refused>
    requires { 0 < length literals.now }
    ensures { Gives (λ d. d) result (array_at version draft.entry name.now (texts literals.now)) }
{
    judge_array(version, &draft, name, literals)?;
    let defaults = defaults(alloc, literals)?;
    Ok(draft.with_array(alloc, name, &defaults)?)
}

/// A line `array NAME LITERAL ..`, by its fields.
pub(crate) fn array_line<'a>(
    alloc: Global,
    version: Version,
    draft: Draft<'a>,
    fields: &[&'a [u8]],
) -> Result<Draft<'a>, Refused>
    ensures { Gives (λ d. d) result (array_line_at version draft.entry (texts fields.now)) }
{
    match fields {
        [_, name, literals @ ..] => {
            if literals.is_empty() || *name == b"=".as_slice() {
                return Err(Refused::Because(DefKind::Line));
            }
            array(alloc, version, draft, name, literals)
        }
        _ => Err(Refused::Because(DefKind::Line)),
    }
}
