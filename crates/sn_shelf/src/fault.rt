ghost use Rattle.std.specs.Prelude.{◌≡◌};
ghost use Rattle.sn_shelf.specs.declared.fault.Unexpanded.TheVariants as unexpanded;

use sn_ports::NoMemory;
use std::alloc::{AllocError, AllocFailed};

/// Why a packet was not expanded, or a file not read.
#[derive(Clone, Copy, Debug, PartialEq, Eq)]
pub enum Unexpanded {
    /// Memory ran out.
    NoMemory,
    /// The shelf failed.
    Failed,
}

impl From<NoMemory> for Unexpanded {
    ghost from_gives = { λ _ e. e ≡ unexpanded.NoMemory };

    fn from(_: NoMemory) -> Self {
        Unexpanded::NoMemory
    }
}

impl From<AllocError> for Unexpanded {
    ghost from_gives = { λ _ e. e ≡ unexpanded.NoMemory };

    fn from(_: AllocError) -> Self {
        Unexpanded::NoMemory
    }
}

impl<T: Drop> From<AllocFailed<T>> for Unexpanded {
    ghost from_gives = { λ _ e. e ≡ unexpanded.NoMemory };

    fn from(_: AllocFailed<T>) -> Self {
        Unexpanded::NoMemory
    }
}
