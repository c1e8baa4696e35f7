//! Laws of the jobs of a round.
ghost use Rattle.std.specs.Prelude.{◌≡◌, ◌↔◌, ◌<◌, ◌≤◌, ◌+◌, ℕ, List, length, Contains};
ghost use Rattle.sn_mem.specs.Words.{Clash};
ghost use Rattle.sn_round.specs.declared.jobs.Job.{Job};
ghost use Rattle.sn_round.specs.Jobs.{AreJobs, IsRaceFree, Ordered, foot_at, predecessors, successors, times};
ghost use Rattle.sn_round.specs.Scripts.{IsScript, list_at, sequential};

use crate::work::Work;

/// A law: a job that is ordered before another stands before it.
pub fn ordered_rises()
    ensures { (jobs : List Job) (i j : ℕ) → AreJobs jobs → Ordered jobs i j → i < j }
{}

/// A law: of two jobs that clash, the lower is ordered before the higher.
pub fn lower_comes_first()
    ensures { (jobs : List Job) (i j : ℕ) → AreJobs jobs → IsRaceFree jobs → i < j → j < length jobs → Clash (foot_at jobs i) (foot_at jobs j) → Ordered jobs i j }
{}

/// A law: the successors of a job are the jobs of which it is a predecessor.
pub fn successors_are_the_inverse()
    ensures { (jobs : List Job) (i j : ℕ) → Contains (successors jobs i) j ↔ ((j < length jobs) × Contains (predecessors jobs j) i) }
{}

/// A law: no job is named twice among the successors of a job.
pub fn successors_are_distinct()
    ensures { (jobs : List Job) (i j : ℕ) → times j (successors jobs i) ≤ 1 }
{}

/// A law: a sequential script begins with the words that it is given, and each next list is what the next job makes of
/// the one before.
pub fn sequential_goes_on()
    ensures first { (outcome : ℕ → List ℕ → List ℕ) (n : ℕ) (base : List ℕ) → list_at (sequential outcome n base) 0 ≡ base }
    ensures next { (outcome : ℕ → List ℕ → List ℕ) (n i : ℕ) (base : List ℕ) → i < n → list_at (sequential outcome n base) (i + 1) ≡ outcome i (list_at (sequential outcome n base) i) }
{}

/// A law: what the jobs of a work make of some words, one job after the other, is a script.
pub fn sequential_is_a_script<W: Work>(work: &W)
    ensures { (jobs : List Job) (base : List ℕ) → W.jobs work.now ≡ length jobs → ((j : ℕ) → j < length jobs → W.foot_of work.now j ≡ foot_at jobs j) → IsScript jobs (length base) (sequential (W.outcome work.now) (length jobs) base) }
{
    let _ = work;
}
