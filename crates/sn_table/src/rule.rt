//! The rule of the table of words, and what each step on it tells.
use atomic_table::{Join, Play, Seat, Split, Table, TableRule};
use sn_machine::View;
use std::alloc::Global;
use std::marker::{Brand, PhantomData};

/// How many memory words and job words a table has.
#[derive(Drop)]
pub struct TableSize {
    pub words: u32,
    pub jobs: u32,
}

pub struct Rounds;

impl TableRule<u8, View, TableSize> for Rounds {
    ghost use Rattle.sn_table.specs.Tables.{TableHolds, first_view};

    ghost holds = { λ key s. TableHolds key.words key.jobs s };

    ghost first = { λ key. first_view key.words key.jobs };
}

pub type SharedTable = Table<u8, View, TableSize, Rounds, Global>;

pub type TableSeat = Seat<u8, View>;

pub(crate) struct Claims;

impl Play<u8, View> for Claims {
    ghost use Rattle.sn_table.specs.Tables.{claimed};

    ghost then = { claimed };
}

pub(crate) struct Loads;

impl Play<u8, View> for Loads {
    ghost use Rattle.sn_table.specs.Tables.{loaded};

    ghost then = { loaded };
}

pub(crate) struct Stores;

impl Play<u8, View> for Stores {
    ghost use Rattle.sn_table.specs.Tables.{stored};

    ghost then = { stored };
}

pub(crate) struct Splits;

impl Split<View> for Splits {
    ghost use Rattle.sn_machine.specs.Steps.{split_main, split_worker};

    ghost left = { split_main };

    ghost right = { split_worker };
}

pub(crate) struct Ends;

impl Play<u8, View> for Ends {
    ghost use Rattle.sn_table.specs.Tables.{ended};

    ghost then = { ended };
}

pub(crate) struct Releases;

impl Play<u8, View> for Releases {
    ghost use Rattle.sn_table.specs.Tables.{paid};

    ghost then = { paid };
}

pub(crate) struct Joins;

impl Join<View> for Joins {
    ghost use Rattle.sn_machine.specs.States.{spent};
    ghost use Rattle.sn_machine.specs.Steps.{join_view};

    ghost both = { join_view };

    ghost spent = { spent };
}

/// The jobs and the script with which a round begins.
pub trait Going {
    ghost use Rattle.std.specs.Prelude.{List, ℕ};
    ghost use Rattle.sn_round.specs.declared.jobs.Job.{Job};

    ghost jobs: { List Job };

    ghost script: { List (List ℕ) };
}

impl Going for Brand {
    ghost use Rattle.std.specs.Prelude.{[]};

    ghost jobs = { [] };

    ghost script = { [] };
}

pub(crate) struct Goes<C> {
    going: PhantomData<C>,
}

impl<C: Going> Play<u8, View> for Goes<C> {
    ghost use Rattle.sn_table.specs.Tables.{went};

    ghost then = { went C.jobs C.script };
}

pub(crate) struct WritesMemory;

impl Play<u8, View> for WritesMemory {
    ghost use Rattle.sn_table.specs.Tables.{wrote_memory};

    ghost then = { wrote_memory };
}

pub(crate) struct WritesCount;

impl Play<u8, View> for WritesCount {
    ghost use Rattle.sn_table.specs.Tables.{wrote_count};

    ghost then = { wrote_count };
}

pub(crate) struct LoadsIdle;

impl Play<u8, View> for LoadsIdle {
    ghost use Rattle.sn_table.specs.Tables.{looked_idle};

    ghost then = { looked_idle };
}

pub(crate) struct Rests;

impl Play<u8, View> for Rests {
    ghost use Rattle.sn_table.specs.Tables.{came_to_rest};

    ghost then = { came_to_rest };
}

pub(crate) struct Looks;

impl Play<u8, View> for Looks {
    ghost use Rattle.sn_table.specs.Tables.{looked};

    ghost then = { looked };
}
