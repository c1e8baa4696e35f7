//! The port of a seat that runs a job.
ghost use Rattle.std.specs.Prelude.{◌≡◌};
ghost use Rattle.sn_machine.specs.Fits.{IsBusy};
ghost use Rattle.sn_table.specs.Answers.{view, IsSeatOf};

use crate::rule::TableSeat;
use crate::seats::{Shared, WorkerSeat};
use sn_mem::Port;

/// The port of a seat that runs a job, with the job's foot.
pub struct SeatPort<'a> {
    shared: &'a Shared,
    seat: &'a mut WorkerSeat,
    ghost of: { IsSeatOf shared.now seat.now },
    ghost busy: { IsBusy (view seat.now) },
}

/// What a port keeps of its seat. No value of it is made.
pub struct SeatRest {
    /// The reference to the seat.
    pub seat: u64,
    /// The seat's place, except for its picture.
    pub place: TableSeat,
}

impl<'a> SeatPort<'a> {
    /// The port of a seat that runs a job.
    pub fn new(shared: &'a Shared, seat: &'a mut WorkerSeat) -> SeatPort<'a>
        requires of { IsSeatOf shared.now seat.old }
        requires busy { IsBusy (view seat.old) }
        ensures same_reference { result.seat.ghost_name ≡ seat.entry.ghost_name }
        ensures same { result.seat.now ≡ seat.old }
    {
        SeatPort { shared, seat }
    }
}

impl Drop for SeatPort<'_> {
    fn drop(self)
        ensures { self.exit.1.0.now ≡ self.entry.seat.now }
    {
        let SeatPort { shared: _, seat: _ } = self;
    }
}

impl Port for SeatPort<'_> {
    ghost use Rattle.sn_machine.specs.Fits.{foot_of, picture_of};
    ghost use Rattle.sn_table.specs.Answers.{view, rest_of};

    type Rest = SeatRest;

    ghost words = { λ p. picture_of (view p.seat.now) };

    ghost foot = { λ p. foot_of (view p.seat.now) };

    ghost rest = { λ p. record { seat = p.seat.ghost_name; place = rest_of p.seat.now } };

    fn load(&mut self, at: u32) -> u64 {
        self.shared.read(self.seat, at)
    }

    fn store(&mut self, at: u32, value: u64) {
        self.shared.write(self.seat, at, value);
    }

    ghost use Rattle.sn_table.specs.Inside.{is_inside};

    ghost inside = { λ p x t. is_inside (view p.seat.now) x p.seat.now.fits p.busy t };
}
