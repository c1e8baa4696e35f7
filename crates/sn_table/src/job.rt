//! One job, run through the port of its seat.
ghost use Rattle.std.specs.Prelude.{◌≡◌, ◌<◌};
ghost use Rattle.sn_machine.specs.Fits.{IsBusy, foot_of, job_of, picture_of};
ghost use Rattle.sn_machine.specs.Steps.{pictured};
ghost use Rattle.sn_table.specs.Answers.{view, IsSeatOf};

use crate::port::SeatPort;
use crate::seats::{Shared, WorkerSeat};
use sn_mem::Scratch;
use sn_round::Work;

/// Runs the job that a seat has got.
pub fn run_job<W: Work>(
    shared: &Shared,
    seat: &mut WorkerSeat,
    work: &W,
    job: u32,
    scratch: &mut Scratch,
)
    requires ready { W.ready work.now }
    requires of { IsSeatOf shared.now seat.old }
    requires busy { IsBusy (view seat.old) }
    requires job { (job < W.jobs work.now) × (job_of (view seat.old) ≡ job) }
    requires foot { foot_of (view seat.old) ≡ W.foot_of work.now job }
    ensures of { IsSeatOf shared.now seat.new }
    ensures view { view seat.new ≡ pictured (view seat.old) job (W.outcome work.now job (picture_of (view seat.old))) }
{
    let mut port = SeatPort::new(shared, seat);
    work.run(job, &mut port, scratch);
}
