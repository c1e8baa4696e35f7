//! Lines, fields and names.
ghost use Rattle.std.specs.Prelude.{◌≡◌, IfOk};
ghost use Rattle.std.specs.List.{list_all};
ghost use Rattle.sn_def.specs.Reading.{pieces, is_name, is_array_word, is_reserved, begins_name, is_name_byte};
ghost use Rattle.sn_def.specs.Answers.{texts};

use crate::version::Version;
use std::alloc::{AllocError, Global};

/// The lines of a text: what stands between line feeds. The last one is cut.
pub(crate) fn lines(alloc: Global, text: &[u8]) -> Result<Vec<&[u8]>, AllocError>
    ensures { IfOk result (λ v. texts v.items ≡ pieces 10 text.now) }
{
    text.split(|byte| *byte == b'\n').collect(alloc)
}

/// The fields of a line, which stand between spaces.
pub(crate) fn fields(alloc: Global, line: &[u8]) -> Result<Vec<&[u8]>, AllocError>
    ensures { IfOk result (λ v. texts v.items ≡ pieces 32 line.now) }
{
    line.split(|byte| *byte == b' ').collect(alloc)
}

fn begins_name(byte: u8) -> bool
    ensures { result ≡ begins_name byte }
{
    matches!(byte, b'A'..=b'Z') || matches!(byte, b'a'..=b'z') || byte == b'_'
}

fn is_name_byte(byte: u8) -> bool
    ensures { result ≡ is_name_byte byte }
{
    begins_name(byte) || byte.is_ascii_digit()
}

fn are_name_bytes(bytes: &[u8]) -> bool
    ensures { result ≡ list_all is_name_byte bytes.now }
{
    bytes.iter().all(|byte| is_name_byte(*byte))
}

/// Whether the word begins the line of an array.
pub(crate) fn is_array_word(version: Version, word: &[u8]) -> bool
    ensures { result ≡ is_array_word version word.now }
{
    version.has_arrays() && word == b"array".as_slice()
}

/// Whether the word begins lines.
pub(crate) fn is_reserved(version: Version, word: &[u8]) -> bool
    ensures { result ≡ is_reserved version word.now }
{
    word == b"snova".as_slice()
        || word == b"def".as_slice()
        || word == b"control".as_slice()
        || word == b"end".as_slice()
        || is_array_word(version, word)
}

/// Whether a field is a name.
#[tactic(auto, unfolding(crate::specs::Reading::is_name))]
pub(crate) fn is_name(version: Version, field: &[u8]) -> bool
    ensures { result ≡ is_name version field.now }
{
    !field.is_empty()
        && begins_name(field[0])
        && field.len() <= 31
        && are_name_bytes(field)
        && !is_reserved(version, field)
}
