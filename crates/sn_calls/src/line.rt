//! The words of a row, and bytes as rows spell them.
use sn_ports::NoMemory;
use std::alloc::{AllocError, AllocFailed, Global};
use std::io;

/// Why a row has no answer.
#[derive(Clone, Copy)]
pub enum Unanswered {
    /// Memory ran out.
    NoMemory,
    /// It is no row, or asks for what can't be asked.
    NoRow,
    /// A file or a socket failed.
    Outside,
}

impl From<NoMemory> for Unanswered {
    fn from(_: NoMemory) -> Self {
        Unanswered::NoMemory
    }
}

impl From<AllocError> for Unanswered {
    fn from(_: AllocError) -> Self {
        Unanswered::NoMemory
    }
}

impl<T: Drop> From<AllocFailed<T>> for Unanswered {
    fn from(_: AllocFailed<T>) -> Self {
        Unanswered::NoMemory
    }
}

impl From<io::Error> for Unanswered {
    fn from(_: io::Error) -> Self {
        Unanswered::Outside
    }
}

/// What a call answers, as a row says it.
pub type Answer = Result<String, Unanswered>;

/// Rows that are answered one after another.
pub trait Rows {
    /// What holds between two rows.
    ghost ready: { Self → Type 0 };

    /// Carries out the call that a row names.
    fn answer(&mut self, line: &mut Line<'_>) -> Answer
        requires { ready self.old }
        ensures { ready self.new };
}

/// The words of a row that are left.
#[derive(Clone, Copy)]
pub struct Line<'a> {
    rest: &'a str,
}

impl<'a> Line<'a> {
    /// All words of a row.
    pub fn new(row: &'a str) -> Line<'a> {
        Line { rest: row }
    }

    /// What is left, spaces among it.
    pub fn rest(&self) -> &'a str {
        self.rest
    }

    /// The next word, or an empty one if none is left.
    pub fn word(&mut self) -> &'a str {
        let (word, rest) = self.rest.split_once(' ').unwrap_or((self.rest, ""));
        self.rest = rest;
        word
    }

    /// The next word as an integer.
    pub fn int(&mut self) -> Result<i32, Unanswered> {
        self.word().parse::<i32>().map_err(|_| Unanswered::NoRow)
    }

    /// The next word as a natural number.
    pub fn natural(&mut self) -> Result<u32, Unanswered> {
        self.word().parse::<u32>().map_err(|_| Unanswered::NoRow)
    }

    /// The next word as an integer of 64 bits.
    pub fn wide(&mut self) -> Result<i64, Unanswered> {
        self.word().parse::<i64>().map_err(|_| Unanswered::NoRow)
    }

    /// The next word as an integer of 128 bits.
    pub fn widest(&mut self) -> Result<i128, Unanswered> {
        self.word().parse::<i128>().map_err(|_| Unanswered::NoRow)
    }

    /// The next word as natural numbers between commas; `-` stands for none.
    pub fn naturals(&mut self, alloc: Global) -> Result<Vec<u32>, Unanswered> {
        let mut numbers = Vec::new(alloc);
        let word = self.word();
        if word == "-" {
            return Ok(numbers);
        }
        for part in word.split(',') {
            let number = part.parse::<u32>().map_err(|_| Unanswered::NoRow)?;
            numbers.push(number)?;
        }
        Ok(numbers)
    }
}

/// A word as an answer.
pub fn said(alloc: Global, word: &str) -> Answer {
    Ok(String::from_str(alloc, word)?)
}

/// A number as an answer.
pub fn number(alloc: Global, value: i128) -> Answer {
    Ok(format!(in alloc; "{value}")?)
}

/// Whether something holds, as an answer.
pub fn truth(alloc: Global, value: bool) -> Answer {
    said(alloc, if value { "true" } else { "false" })
}

/// An integer as an answer, if there is one.
pub fn int_if_any(alloc: Global, value: Option<i32>) -> Answer {
    Ok(format!(in alloc; "{value:?}")?)
}

/// A natural number as an answer, if there is one.
pub fn natural_if_any(alloc: Global, value: Option<u32>) -> Answer {
    Ok(format!(in alloc; "{value:?}")?)
}

fn spelling(alloc: Global, byte: u8) -> Answer {
    match byte {
        0 => said(alloc, "\\0"),
        b'\n' => said(alloc, "\\n"),
        b' '..=b'~' => Ok(format!(in alloc; "{}", char::from(byte))?),
        _ => Ok(format!(in alloc; "\\x{byte:02x}")?),
    }
}

/// Bytes as rows spell them: `\0`, `\n` and `\xHH` are one byte each, and all else stands for itself.
pub fn spelled(alloc: Global, bytes: &[u8]) -> Answer {
    let mut out = String::new(alloc);
    for byte in bytes {
        out.push_str(spelling(alloc, *byte)?.as_str())?;
    }
    Ok(out)
}
