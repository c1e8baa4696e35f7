//! What may be wrong with a text.
ghost use Rattle.std.specs.Prelude.{◌≡◌};
ghost use Rattle.sn_def.specs.declared.fault.Unread.TheVariants as unread;

use sn_ports::NoMemory;
use std::alloc::{AllocError, AllocFailed};

/// What is wrong with a line of a definition text.
#[derive(Clone, Copy, Debug, PartialEq, Eq)]
pub enum DefKind {
    /// It is cut, misses its shape, or is no line that may stand here.
    Line,
    /// A name is not made of 1 to 31 letters, digits and `_`, begins with a digit, or is a word that begins lines.
    Name,
    /// More than 128 controls in version 1 or 512 in version 2, 64 literals of an array, 256 units or 512 wires.
    Limit,
    /// A name is given twice.
    Twice,
    /// The value of a control or of an element of an array is no literal.
    Number,
    /// The unit is unknown.
    Unit,
    /// The unit takes another number of inputs or gives another number of outputs.
    Count,
    /// An input is neither a literal nor a known name.
    Input,
    /// An index input is a wire.
    Index,
    /// A constant input is no literal, or one that its unit does not take.
    Constant,
}

/// The first line, counted from 1, at which no valid text continues, and what is wrong with it.
#[derive(Clone, Copy, Debug, PartialEq, Eq)]
pub struct DefFault {
    /// The line's number, from 1.
    pub line: u32,
    /// What is wrong with the line.
    pub kind: DefKind,
}

/// Why a text was not read.
#[derive(Clone, Copy, Debug, PartialEq, Eq)]
pub enum Unread {
    /// Memory ran out.
    NoMemory,
    /// The text is no definition.
    Bad(DefFault),
}

/// Why a line was not read.
#[derive(Clone, Copy, Debug, PartialEq, Eq)]
pub(crate) enum Refused {
    /// Memory ran out.
    NoMemory,
    /// This is wrong with the line.
    Because(DefKind),
}

impl From<NoMemory> for Unread {
    ghost from_gives = { λ _ e. e ≡ unread.NoMemory };

    fn from(_: NoMemory) -> Self {
        Unread::NoMemory
    }
}

impl From<AllocError> for Unread {
    ghost from_gives = { λ _ e. e ≡ unread.NoMemory };

    fn from(_: AllocError) -> Self {
        Unread::NoMemory
    }
}

impl From<DefFault> for Unread {
    ghost from_gives = { λ fault e. e ≡ unread.Bad fault };

    fn from(fault: DefFault) -> Self {
        Unread::Bad(fault)
    }
}

impl From<DefKind> for Refused {
    ghost use Rattle.sn_def.specs.declared.fault.Refused.TheVariants as refused;

    ghost from_gives = { λ kind e. e ≡ refused.Because kind };

    fn from(kind: DefKind) -> Self {
        Refused::Because(kind)
    }
}

impl From<NoMemory> for Refused {
    ghost use Rattle.sn_def.specs.declared.fault.Refused.TheVariants as refused;

    ghost from_gives = { λ _ e. e ≡ refused.NoMemory };

    fn from(_: NoMemory) -> Self {
        Refused::NoMemory
    }
}

impl From<AllocError> for Refused {
    ghost use Rattle.sn_def.specs.declared.fault.Refused.TheVariants as refused;

    ghost from_gives = { λ _ e. e ≡ refused.NoMemory };

    fn from(_: AllocError) -> Self {
        Refused::NoMemory
    }
}

impl<T: Drop> From<AllocFailed<T>> for Refused {
    ghost use Rattle.sn_def.specs.declared.fault.Refused.TheVariants as refused;

    ghost from_gives = { λ _ e. e ≡ refused.NoMemory };

    fn from(_: AllocFailed<T>) -> Self {
        Refused::NoMemory
    }
}
