ghost use Rattle.std.specs.Prelude.{◌≡◌};
ghost use Rattle.sn_score.specs.declared.fault.Refused.TheVariants as refused;
ghost use Rattle.sn_score.specs.declared.fault.Unscored.TheVariants as unscored;

use sn_ports::NoMemory;
use std::alloc::AllocError;

/// Why no packets were read from a text.
#[derive(Clone, Copy, Debug, PartialEq, Eq)]
pub enum Unscored {
    /// Memory ran out.
    NoMemory,
    /// The text is no score: the lines before this one, counted from 1, begin some score, and with this
    /// one they begin none. A text that ends inside a bundle has its fault one line after its last.
    Bad { line: u32 },
}

/// Why a line was not read.
#[derive(Clone, Copy, Debug, PartialEq, Eq)]
pub(crate) enum Refused {
    /// Memory ran out.
    NoMemory,
    /// No score goes on with this line.
    Fault,
}

impl From<NoMemory> for Unscored {
    ghost from_gives = { λ _ e. e ≡ unscored.NoMemory };

    fn from(_: NoMemory) -> Self {
        Unscored::NoMemory
    }
}

impl From<AllocError> for Unscored {
    ghost from_gives = { λ _ e. e ≡ unscored.NoMemory };

    fn from(_: AllocError) -> Self {
        Unscored::NoMemory
    }
}

impl From<NoMemory> for Refused {
    ghost from_gives = { λ _ e. e ≡ refused.NoMemory };

    fn from(_: NoMemory) -> Self {
        Refused::NoMemory
    }
}
