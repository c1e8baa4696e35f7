//! The port of the commands: main's, while no round runs.
ghost use Rattle.std.specs.Prelude.{◌≡◌, length};
ghost use Rattle.sn_machine.specs.States.{IsIdle};
ghost use Rattle.sn_table.specs.Answers.{main_view, IsMainOf};

use crate::rule::TableSeat;
use crate::seats::{MainSeat, Shared};
use sn_mem::Port;

/// Main's port to all memory words.
pub struct MainPort<'a> {
    shared: &'a Shared,
    main: &'a mut MainSeat,
    ghost of: { IsMainOf shared.now main.now },
    ghost idle: { IsIdle (main_view main.now) },
}

/// What a port keeps of main's seat. No value of it is made.
pub struct MainRest {
    /// The reference to the seat.
    pub seat: u64,
    /// Main's place, except for the memory words and the count of the stores.
    pub place: TableSeat,
}

impl<'a> MainPort<'a> {
    /// Main's port, while no round runs.
    pub fn new(shared: &'a Shared, main: &'a mut MainSeat) -> MainPort<'a>
        requires of { IsMainOf shared.now main.old }
        requires idle { IsIdle (main_view main.old) }
        ensures same_reference { result.main.ghost_name ≡ main.entry.ghost_name }
        ensures same { result.main.now ≡ main.old }
    {
        MainPort { shared, main }
    }
}

impl Drop for MainPort<'_> {
    fn drop(self)
        ensures { self.exit.1.0.now ≡ self.entry.main.now }
    {
        let MainPort { shared: _, main: _ } = self;
    }
}

impl Port for MainPort<'_> {
    ghost use Rattle.std.specs.Prelude.{length};
    ghost use Rattle.sn_mem.specs.Words.{everything, everything_is};
    ghost use Rattle.sn_machine.specs.States.{memory_in};
    ghost use Rattle.sn_table.specs.Answers.{main_view};
    ghost use Rattle.sn_table.specs.MainRests.{main_rest};

    type Rest = MainRest;

    ghost words = { λ p. memory_in (main_view p.main.now).main.phase };

    ghost foot = { λ p. everything (length (memory_in (main_view p.main.now).main.phase)) };

    ghost rest = { λ p. record { seat = p.main.ghost_name; place = main_rest p.main.now } };

    fn load(&mut self, at: u32) -> u64 {
        self.shared.load(self.main, at)
    }

    fn store(&mut self, at: u32, value: u64) {
        self.shared.store(self.main, at, value);
    }

    ghost inside = { λ p x t. everything_is (length (memory_in (main_view p.main.now).main.phase)) x t };
}
