//! One worker's deque, with ways to take from those of the others.
ghost use Rattle.std.specs.Prelude.{◌≡◌, ◌+◌, ◌<◌, ◌≤◌, ◌^◌, length, IfOk};
ghost use Rattle.sn_ports.specs.Limits.{most_workers, most_jobs};
ghost use Rattle.sn_crew.specs.Looks.{FitsJobs};

use crate::deques::{OtherDeque, OwnDeque, give, pop};
use crate::hints::{Counts, Found, Hints, Look};
use crossbeam_deque::Steal;
use sn_ports::NoMemory;
use sn_ports::limits::MOST_JOBS;
use std::alloc::Global;

/// No deque has more hints: a round has at most this many jobs, and each becomes ready once.
const MOST_HINTS: u32 = MOST_JOBS;

/// One worker's deque, with ways to take from those of the others. `Empty` says that the deque was empty at one moment
/// of the call, and `Again` that a steal met another one.
#[derive(Drop)]
pub struct DequeHints {
    own: OwnDeque,
    // The number of its own deque.
    place: u32,
    others: Vec<OtherDeque>,
    pub(crate) counts: Vec<Counts>,
    found: Found,
    ghost one_each: { length counts.items ≡ length others.items + 1 },
    ghost placed: { place < length counts.items },
    ghost few: { length counts.items < 2 ^ 32 },
}

/// Whether a hint is a job of the round.
fn judge(hint: u32, jobs: u32) -> Look
    ensures { FitsJobs jobs result }
{
    if hint < jobs {
        Look::Hint(hint)
    } else {
        Look::Stray(hint)
    }
}

impl DequeHints {
    /// A worker's own deque, which has this number, and the others in their order.
    pub(crate) fn of(
        alloc: Global,
        own: OwnDeque,
        place: u32,
        others: Vec<OtherDeque>,
    ) -> Result<DequeHints, NoMemory>
        requires place { place ≤ length others.items }
        requires few { length others.items < most_workers }
        ensures { IfOk result (λ h. length h.counts.items ≡ length others.items + 1) }
    {
        let none = Counts {
            empties: 0,
            agains: 0,
            strays: 0,
        };
        let counts = Vec::from_elem(alloc, none, others.len() + 1)?;
        Ok(DequeHints {
            own,
            place,
            others,
            counts,
            found: Found { hints: 0, last: 0 },
        })
    }

    /// Appends a hint to its own deque. If there is no memory for it, it is dropped. It returns whether it was put.
    pub(crate) fn give(&mut self, hint: u32) -> bool
        requires { hint < most_jobs }
        ensures { self.new.counts ≡ self.old.counts }
    {
        give(&mut self.own, hint)
    }

    /// Drops the hints that an earlier round has left in its own deque.
    pub(crate) fn clear(&mut self)
        ensures { self.new.counts ≡ self.old.counts }
    {
        for _ in 0..MOST_HINTS {
            if pop(&mut self.own).is_none() {
                return;
            }
        }
    }

    fn find(&mut self, deque: u32, jobs: u32) -> Look
        requires { deque < length self.old.counts.items }
        ensures answer { FitsJobs jobs result }
        ensures counts { self.new.counts ≡ self.old.counts }
        ensures found { self.new.found ≡ self.old.found }
    {
        if deque == self.place {
            return match pop(&mut self.own) {
                Some(hint) => judge(hint, jobs),
                None => Look::Empty,
            };
        }
        let at = if deque < self.place { deque } else { deque - 1 };
        match self.others[at as usize].steal() {
            Steal::Success(hint) => judge(hint, jobs),
            Steal::Empty => Look::Empty,
            Steal::Retry => Look::Again,
        }
    }
}

impl Hints for DequeHints {
    ghost use Rattle.std.specs.Prelude.{length, slice_index_or};
    ghost use Rattle.sn_crew.specs.Looks.{no_counts};

    ghost size = { λ h. length h.counts.items };

    ghost counts = { λ h e. slice_index_or h.counts.items e no_counts };

    ghost found = { λ h. h.found };

    fn deques(&self) -> u32 {
        self.counts.len() as u32
    }

    fn look(&mut self, deque: u32, jobs: u32) -> Look {
        let look = self.find(deque, jobs);
        self.counts[deque as usize].raise(&look);
        self.found.note(&look);
        look
    }
}
