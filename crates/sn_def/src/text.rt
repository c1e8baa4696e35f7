//! Reading a whole text.
ghost use Rattle.std.specs.Prelude.{◌≡◌, ◌+◌, ◌<◌, Err, IfOk};
ghost use Rattle.sn_def.specs.Reading.{pieces, line_at, at_line, fault, is_over, body_at, end_at, def_at, def_and_body, named_at, after_title, versioned_at, title_at, text_at};
ghost use Rattle.sn_def.specs.Versions.{version_of};
ghost use Rattle.sn_def.specs.Defs.{definition_of};
ghost use Rattle.sn_def.specs.Answers.{Reads, texts, told_at};
ghost use Rattle.sn_def.specs.Grammar.{DefinitionText};
ghost use Rattle.sn_def.specs.Faults.{DefinitionFault};
ghost use Rattle.sn_def.specs.declared.fault.DefFault.{DefFault};
ghost use Rattle.sn_def.specs.declared.fault.Unread.TheVariants as unread;

use crate::definition::Def;
use crate::draft::Draft;
use crate::fault::{DefFault, DefKind, Refused, Unread};
use crate::fields::{fields, is_name, lines};
use crate::line::line;
use crate::version::Version;
use sn_fixed::literal_bytes;
use sn_ports::Text;
use std::alloc::Global;

/// This is wrong with that line.
fn bad(line: u32, kind: DefKind) -> Unread
    ensures { result ≡ unread.Bad (fault line kind) }
{
    Unread::Bad(DefFault { line, kind })
}

/// Whether nothing stands after the last line feed.
fn is_over(after: &[&[u8]]) -> bool
    ensures { result ≡ is_over (texts after.now) }
{
    match after {
        [last] => last.is_empty(),
        _ => false,
    }
}

/// The whole definition, if nothing stands after the line `end`, which has this number.
fn after_end<'a>(number: u32, draft: Draft<'a>, after: &[&'a [u8]]) -> Result<Draft<'a>, DefFault>
    requires { number < 4294967295 }
    ensures { result ≡ end_at number draft.entry (texts after.now) }
{
    if is_over(after) {
        return Ok(draft);
    }
    Err(DefFault {
        line: number + 1,
        kind: DefKind::Line,
    })
}

/// The line `end`, which has this number, is the last one.
fn end<'a>(number: u32, draft: Draft<'a>, after: &[&'a [u8]]) -> Result<Draft<'a>, Unread>
    requires { number < 4294967295 }
    ensures { Reads (λ d. d) result (end_at number draft.entry (texts after.now)) }
{
    Ok(after_end(number, draft, after)?)
}

/// What is answered for a line that was refused.
fn told(line: u32, why: Refused) -> Unread
    ensures { result ≡ told_at line why }
{
    match why {
        Refused::NoMemory => Unread::NoMemory,
        Refused::Because(kind) => bad(line, kind),
    }
}

/// The line of this number, between the first two and `end`.
#[tactic(auto, using(crate::proofs::Refusing::told_reads))]
fn next_line<'a>(
    alloc: Global,
    version: Version,
    number: u32,
    draft: Draft<'a>,
    text: &'a [u8],
) -> Result<Draft<'a>, Unread>
    ensures { Reads (λ d. d) result (at_line number (line_at version draft.entry (pieces 32 text.now))) }
{
    let fields = fields(alloc, text)?;
    match line(alloc, version, draft, &fields) {
        Ok(next) => Ok(next),
        Err(why) => Err(told(number, why)),
    }
}

/// The lines after the first two.
fn body<'a>(
    alloc: Global,
    version: Version,
    draft: Draft<'a>,
    lines: &[&'a [u8]],
) -> Result<Draft<'a>, Unread>
    ensures { Reads (λ d. d) result (body_at version 3 draft.entry (texts lines.now)) }
{
    let mut read = draft;
    for (at, text) in lines.iter().enumerate() {
        let number = read.line(at);
        if at + 1 == lines.len() {
            return Err(bad(number, DefKind::Line));
        }
        if *text == b"end".as_slice() {
            return end(number, read, &lines[at + 1..]);
        }
        read = next_line(alloc, version, number, read, text)?;
    }
    Err(bad(read.line(lines.len()), DefKind::Line))
}

/// The fields of the line `def NAME`.
fn named<'a>(alloc: Global, version: Version, word: &[u8], name: &[u8]) -> Result<Draft<'a>, Unread>
    ensures { Reads (λ d. d) result (named_at version word.now name.now) }
{
    if word != b"def".as_slice() || name.is_empty() {
        return Err(bad(2, DefKind::Line));
    }
    if !is_name(version, name) {
        return Err(bad(2, DefKind::Name));
    }
    Ok(Draft::new(alloc, Text::from_slice(alloc, name)?))
}

/// The line `def NAME`, by its fields.
fn def<'a>(alloc: Global, version: Version, fields: &[&[u8]]) -> Result<Draft<'a>, Unread>
    ensures { Reads (λ d. d) result (def_at version (texts fields.now)) }
{
    match fields {
        [word, name] => named(alloc, version, word, name),
        _ => Err(bad(2, DefKind::Line)),
    }
}

/// The line `def NAME`, and the lines after it.
fn def_and_body<'a>(
    alloc: Global,
    version: Version,
    text: &[u8],
    after: &[&'a [u8]],
) -> Result<Draft<'a>, Unread>
    ensures { Reads (λ d. d) result (def_and_body version (pieces 32 text.now) (texts after.now)) }
{
    let fields = fields(alloc, text)?;
    let draft = def(alloc, version, &fields)?;
    body(alloc, version, draft, after)
}

/// The lines after the first.
fn after_title<'a>(alloc: Global, version: Version, lines: &[&'a [u8]]) -> Result<Draft<'a>, Unread>
    ensures { Reads (λ d. d) result (after_title version (texts lines.now)) }
{
    match lines {
        [] => Err(bad(2, DefKind::Line)),
        [text, after @ ..] => {
            if after.is_empty() {
                return Err(bad(2, DefKind::Line));
            }
            def_and_body(alloc, version, text, after)
        }
    }
}

/// The lines after the first, which names the version.
fn versioned<'a>(alloc: Global, title: &[u8], lines: &[&'a [u8]]) -> Result<Draft<'a>, Unread>
    ensures { Reads (λ d. d) result (versioned_at (version_of title.now) (texts lines.now)) }
{
    match Version::of(title) {
        None => Err(bad(1, DefKind::Line)),
        Some(version) => after_title(alloc, version, lines),
    }
}

/// The lines of a text.
fn title<'a>(alloc: Global, lines: &[&'a [u8]]) -> Result<Draft<'a>, Unread>
    ensures { Reads (λ d. d) result (title_at (texts lines.now)) }
{
    match lines {
        [] => Err(bad(1, DefKind::Line)),
        [text, after @ ..] => {
            if after.is_empty() {
                return Err(bad(1, DefKind::Line));
            }
            versioned(alloc, text, after)
        }
    }
}

/// What a text is, read from left to right.
#[tactic(auto, unfolding(crate::specs::Reading::text_at))]
fn read_lines(alloc: Global, text: &[u8]) -> Result<Def, Unread>
    ensures { Reads definition_of result (text_at text.now) }
{
    let lines = lines(alloc, text)?;
    let draft = title(alloc, &lines)?;
    Ok(draft.into_def(alloc)?)
}

/// The definition that a text is, or the first line at which no valid text continues and what is wrong there.
///
/// # Errors
///
/// `Bad` comes exactly if the text is no definition text.
pub fn read(alloc: Global, text: &[u8]) -> Result<Def, Unread>
    ensures read { Reads definition_of result (text_at text.now) }
    ensures text { IfOk result (λ d. DefinitionText text.now (definition_of d)) }
    ensures fault { (f : DefFault) → result ≡ Err (unread.Bad f) → DefinitionFault text.now f.line f.kind }
{
    literal_bytes();
    read_lines(alloc, text)
}
