//! The calls of the shared words.
ghost use Rattle.std.specs.Prelude.{◌≡◌, ◌+◌, ◌^◌, ◌<◌, ◌≤◌, [], true, Contains, IfOk, length, slice_get, slice_index, slice_set};
ghost use Rattle.sn_ports.specs.Limits.{most_jobs};
ghost use Rattle.sn_mem.specs.Words.{writes, touches};
ghost use Rattle.sn_round.specs.Jobs.{successors};
ghost use Rattle.sn_machine.specs.States.{ENDED as Ended};
ghost use Rattle.sn_machine.specs.Fits.{IsBusy, IsFree, foot_of, job_of, picture_of};
ghost use Rattle.sn_machine.specs.Steps.{CanClaim, CanEnd, CanSplit, claim_view, ended_view, pictured, read_view, split_main, split_worker};
ghost use Rattle.sn_table.specs.Tables.{first_view};
ghost use Rattle.sn_table.specs.Answers.{view, main_view, IsSeatOf, IsMainOf, IsPlaceOf, OwesFirst, Claimed, IsGot, Pays, ReadyBelow, Released};

use crate::rule::{
    Claims, Ends, Loads, Looks, Releases, SharedTable, Splits, Stores, TableSeat, TableSize,
};
use crate::seats::{Claim, MainSeat, Release, Shared, WorkerSeat};
use sn_machine::{CLAIMED, ENDED};
use sn_ports::NoMemory;
use sn_round::Plan;
use std::alloc::Global;

impl Shared {
    /// `words` memory words and `jobs` job words, all 0, and main's seat, which is idle. For a moment the words take
    /// twice their room.
    pub fn open(alloc: Global, words: u32, jobs: u32) -> Result<(Shared, MainSeat), NoMemory>
        requires words { (1 ≤ words) × (words < 2 ^ 31) }
        requires jobs { jobs ≤ most_jobs }
        ensures { IfOk result (λ r. (r.0.words ≡ words) × (r.0.jobs ≡ jobs) × IsMainOf r.0 r.1 × (main_view r.1 ≡ first_view words jobs)) }
    {
        let zeros = vec![in alloc; 0u64; (words + jobs) as usize]?;
        let size = TableSize { words, jobs };
        let (table, place) = SharedTable::of_words(alloc, &zeros, &size)?;
        Ok((Shared { table, words, jobs }, MainSeat { place }))
    }

    /// Loads a memory word that the job of the seat may touch.
    pub(crate) fn read(&self, seat: &mut WorkerSeat, at: u32) -> u64
        requires seat { IsSeatOf self.now seat.old }
        requires busy { IsBusy (view seat.old) }
        requires allowed { touches (foot_of (view seat.old)) at ≡ true }
        ensures same { (seat.new.place.table_id ≡ seat.old.place.table_id) × (seat.new.place.id ≡ seat.old.place.id) × (view seat.new ≡ view seat.old) }
        ensures word { result ≡ slice_index (picture_of (view seat.old)) at }
    {
        self.table
            .shared
            .load::<Loads>(&mut seat.place, at as usize)
    }

    /// Stores to a memory word that the job of the seat may write.
    pub(crate) fn write(&self, seat: &mut WorkerSeat, at: u32, value: u64)
        requires seat { IsSeatOf self.now seat.old }
        requires busy { IsBusy (view seat.old) }
        requires allowed { writes (foot_of (view seat.old)) at ≡ true }
        ensures same { (seat.new.place.table_id ≡ seat.old.place.table_id) × (seat.new.place.id ≡ seat.old.place.id) }
        ensures picture { view seat.new ≡ pictured (view seat.old) (job_of (view seat.old)) (slice_set (picture_of (view seat.old)) at value) }
    {
        self.table
            .shared
            .store::<Stores>(&mut seat.place, at as usize, value);
    }

    /// Sets the word of a job to CLAIMED if it is 0, and returns what it was.
    fn take(&self, place: &mut TableSeat, job: u32) -> u64
        requires place { IsPlaceOf self.now place.old }
        requires few { job < self.now.jobs }
        requires may { CanClaim place.old.me.0 job }
        ensures place { IsPlaceOf self.now place.new }
        ensures step { place.new.me.0 ≡ claim_view place.old.me.0 job result }
        ensures sweep { place.old.me.0.worker.sweeps ≡ true → (IsFree place.old.me.0 job → result ≡ 0) × (result ≡ 0 → IsFree place.old.me.0 job) }
    {
        let at = self.words as usize + job as usize;
        self.table
            .shared
            .compare_exchange::<Claims>(place, at, 0, CLAIMED)
    }

    /// Claims a job of the round. `Got` comes only from a word that was 0, and the seat then runs the job.
    pub fn claim(&self, seat: &mut WorkerSeat, job: u32) -> Claim
        requires seat { IsSeatOf self.now seat.old }
        requires may { CanClaim (view seat.old) job }
        ensures seat { IsSeatOf self.now seat.new }
        ensures step { Claimed (view seat.old) job result (view seat.new) }
        ensures sweep { (view seat.old).worker.sweeps ≡ true → (IsFree (view seat.old) job → IsGot result) × (IsGot result → IsFree (view seat.old) job) }
    {
        let word = self.take(&mut seat.place, job);
        if word == 0 {
            seat.job = job;
            seat.owing = false;
            Claim::Got
        } else {
            Claim::Busy { word }
        }
    }

    /// Splits a worker's seat from main's, in a round of which no seat was joined yet or none is live.
    pub fn split(&self, main: &mut MainSeat) -> WorkerSeat
        requires main { IsMainOf self.now main.old }
        requires may { CanSplit (main_view main.old) }
        ensures main { IsMainOf self.now main.new }
        ensures left { main_view main.new ≡ split_main (main_view main.old) }
        ensures seat { IsSeatOf self.now result }
        ensures right { view result ≡ split_worker (main_view main.old) }
    {
        let place = self.table.shared.split_seat::<Splits>(&mut main.place);
        WorkerSeat {
            place,
            job: 0,
            paid: 0,
            owing: false,
        }
    }

    /// Stores ENDED to the word of the job that the place runs.
    fn finish(&self, place: &mut TableSeat, job: u32)
        requires place { IsPlaceOf self.now place.old }
        requires few { job < self.now.jobs }
        requires may { CanEnd place.old.me.0 job (picture_of place.old.me.0) }
        ensures place { IsPlaceOf self.now place.new }
        ensures step { place.new.me.0 ≡ ended_view place.old.me.0 job }
    {
        let at = self.words as usize + job as usize;
        self.table.shared.store::<Ends>(place, at, ENDED);
    }

    /// Takes 1 off the word that the first debt of the place names, and returns what is left.
    fn pay(&self, place: &mut TableSeat, next: u32) -> u64
        requires place { IsPlaceOf self.now place.old }
        requires few { next < self.now.jobs }
        requires debt { OwesFirst place.old.me.0 next }
        ensures place { IsPlaceOf self.now place.new }
        ensures step { Pays place.old.me.0 next result place.new.me.0 }
    {
        let at = self.words as usize + next as usize;
        self.table.shared.fetch_sub::<Releases>(place, at, 1) - 1
    }

    /// Ends the job that the seat runs. The seat then owes a release to each successor.
    pub fn end(&self, seat: &mut WorkerSeat)
        requires seat { IsSeatOf self.now seat.old }
        requires may { CanEnd (view seat.old) (job_of (view seat.old)) (picture_of (view seat.old)) }
        ensures seat { IsSeatOf self.now seat.new }
        ensures step { view seat.new ≡ ended_view (view seat.old) (job_of (view seat.old)) }
    {
        self.finish(&mut seat.place, seat.job);
        seat.paid = 0;
        seat.owing = true;
    }

    /// Pays the next debt. `Ready` comes exactly if 0 is left, and `NoMore` exactly if nothing is owed.
    pub fn release(&self, seat: &mut WorkerSeat, plan: &Plan) -> Release
        requires seat { IsSeatOf self.now seat.old }
        requires plan { plan.now ≡ (view seat.old).worker.jobs }
        ensures seat { IsSeatOf self.now seat.new }
        ensures step { Released (view seat.old) result (view seat.new) }
        ensures below { ReadyBelow self.now.jobs result }
    {
        if !seat.owing {
            return Release::NoMore;
        }
        let Some(next) = successor(plan, seat.job, seat.paid) else {
            return Release::NoMore;
        };
        let left = self.pay(&mut seat.place, next);
        seat.paid += 1;
        if left == 0 {
            Release::Ready(next)
        } else {
            Release::Held(left)
        }
    }

    /// Reads the word of a job.
    fn glance(&self, place: &mut TableSeat, job: u32) -> u64
        requires place { IsPlaceOf self.now place.old }
        requires few { job < self.now.jobs }
        requires live { place.old.me.0.worker.live ≡ true }
        ensures place { IsPlaceOf self.now place.new }
        ensures step { place.new.me.0 ≡ read_view place.old.me.0 job result }
        ensures sweep { place.old.me.0.worker.sweeps ≡ true → job < length place.old.me.0.worker.jobs → result ≡ Ended → Contains place.old.me.0.worker.ended job }
    {
        let at = self.words as usize + job as usize;
        self.table.shared.load::<Looks>(place, at)
    }

    /// Reads the word of a job of the round. On the sweep's seat a job whose word is ENDED is one that the seat knows
    /// to have ended.
    pub fn look(&self, seat: &mut WorkerSeat, job: u32) -> u64
        requires seat { IsSeatOf self.now seat.old }
        requires live { (view seat.old).worker.live ≡ true }
        requires job { job < length (view seat.old).worker.jobs }
        ensures seat { IsSeatOf self.now seat.new }
        ensures step { view seat.new ≡ read_view (view seat.old) job result }
        ensures sweep { (view seat.old).worker.sweeps ≡ true → result ≡ Ended → Contains (view seat.old).worker.ended job }
    {
        self.glance(&mut seat.place, job)
    }
}

/// The successor of a job with this number, if there is one.
fn successor(plan: &Plan, job: u32, number: u32) -> Option<u32>
    requires { job < length plan.now }
    ensures { result ≡ slice_get (successors plan.now job) number }
{
    plan.successors(job)
        .as_slice()
        .get(number as usize)
        .copied()
}
