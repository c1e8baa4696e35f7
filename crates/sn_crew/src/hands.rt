//! What a worker has from round to round.
use crate::deque_hints::DequeHints;
use crate::hints::Member;
use sn_mem::Scratch;
use sn_table::WorkerSeat;

/// What a worker has: a seat while a round runs, what its jobs need, and the deques.
#[derive(Drop)]
pub struct Hand {
    pub(crate) seat: Option<WorkerSeat>,
    pub(crate) scratch: Scratch,
    pub(crate) member: Member<DequeHints>,
}
