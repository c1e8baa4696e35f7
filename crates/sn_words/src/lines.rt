//! Command lines: their first word, and what is said of those that are refused.
ghost use Rattle.std.specs.Prelude.{◌≡◌};
ghost use Rattle.sn_words.specs.Words.{begins_with};

use sn_ports::Word;

/// The words choose nothing.
#[derive(Clone, Copy, Debug, PartialEq, Eq)]
pub struct BadWord {
    /// The index of the first bad word, from 0; if a word is missing, the number of words.
    pub index: u32,
}

/// Whether the first word is this one.
pub(crate) fn begins_with(name: &[u8], words: &[Word]) -> bool
    ensures { result ≡ begins_with name.now words.now }
{
    match words.first() {
        Some(first) => first.as_slice() == name,
        None => false,
    }
}
