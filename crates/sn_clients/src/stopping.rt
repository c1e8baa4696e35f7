//! The rule of the stop word, and what each step on it tells.
use crate::ends::Sight;
use atomic_table::{Play, Seat, Table, TableRule};
use std::alloc::Global;

pub struct StopRule;

impl TableRule<u8, Sight, ()> for StopRule {
    ghost use Rattle.sn_clients.specs.StopWord.{Stops, new_setter};

    ghost holds = { λ _. Stops };

    ghost first = { λ _. new_setter };
}

pub type StopTable = Table<u8, Sight, (), StopRule, Global>;

pub type StopSeat = Seat<u8, Sight>;

/// The outlet sets the word.
pub(crate) struct Sets;

impl Play<u8, Sight> for Sets {
    ghost use Rattle.sn_clients.specs.StopWord.{Set};

    ghost then = { Set };
}

/// An inlet looks at the word.
pub(crate) struct Looks;

impl Play<u8, Sight> for Looks {
    ghost use Rattle.sn_clients.specs.StopWord.{Looked};

    ghost then = { Looked };
}

/// The outlet looks at the word.
pub(crate) struct Hears;

impl Play<u8, Sight> for Hears {
    ghost use Rattle.sn_clients.specs.StopWord.{Heard};

    ghost then = { Heard };
}
