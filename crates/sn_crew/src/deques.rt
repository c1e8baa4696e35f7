//! Deques of hints, one for each worker. A hint is a number below 65,536.
ghost use Rattle.std.specs.Prelude.{◌<◌, IfSome};
ghost use Rattle.sn_ports.specs.Limits.{most_jobs};
ghost use Rattle.crossbeam_deque.specs.Handles.{IsPassOf, stealer_deque};
ghost use Rattle.crossbeam_deque.specs.Steals.{MatchSteal};

use crossbeam_deque::protocol::{Outcome, Protocol};
use crossbeam_deque::{Pass, Steal, Stealer, Worker};
use sn_ports::NoMemory;
use std::alloc::Global;

/// For how many hints a deque has room at first.
const ROOM: usize = 64;

/// The rule of the deques.
pub struct HintRule;

impl Protocol<u32, ()> for HintRule {
    ghost use Rattle.sn_crew.specs.Deques.{AreHints};

    ghost holds = { λ items _. AreHints items };

    ghost first = { tt };

    ghost guest = { tt };
}

impl Outcome<u32, ()> for HintRule {
    ghost use Rattle.sn_crew.specs.Deques.{AreHints};

    ghost then = { λ _ xs _. AreHints xs };
}

/// A worker's own deque.
pub type OwnDeque = Worker<u32, Global, (), HintRule>;

/// A way to take hints from another worker's deque.
#[derive(Drop)]
pub struct OtherDeque {
    stealer: Stealer<u32, Global, (), HintRule>,
    pass: Pass<u32, ()>,
    ghost of: { IsPassOf (stealer_deque stealer) pass },
}

/// An empty deque, first in, first out.
pub fn open_deque(alloc: Global) -> Result<OwnDeque, NoMemory> {
    Ok(OwnDeque::fifo_as(alloc, ROOM)?)
}

/// Appends a hint. If there is no memory for it, it is dropped. It returns whether it was put.
pub fn give(own: &mut OwnDeque, hint: u32) -> bool
    requires { hint < most_jobs }
{
    own.push_as::<HintRule>(hint).is_ok()
}

/// Takes the first hint.
pub fn pop(own: &mut OwnDeque) -> Option<u32>
    ensures { IfSome result (λ x. x < most_jobs) }
{
    own.pop_as::<HintRule>()
}

impl OtherDeque {
    /// A way to take hints from this deque.
    pub fn of(own: &OwnDeque) -> Result<OtherDeque, NoMemory> {
        let stealer = own.stealer()?;
        let pass = stealer.pass();
        Ok(OtherDeque { stealer, pass })
    }

    /// Takes the first hint.
    pub fn steal(&mut self) -> Steal<u32>
        ensures { MatchSteal result (Unit {0}) (Unit {0}) (λ x. x < most_jobs) }
    {
        self.stealer.steal_as::<HintRule>(&mut self.pass)
    }
}
