//! How a crew is made.
ghost use Rattle.std.specs.Prelude.{◌≡◌, ◌+◌, ◌<◌, ◌≤◌, IfOk, length, All};
ghost use Rattle.sn_ports.specs.Limits.{most_workers};
ghost use Rattle.sn_crew.specs.Hands.{deques_of};

use crate::deque_hints::DequeHints;
use crate::deques::{OtherDeque, OwnDeque, open_deque};
use crate::hands::Hand;
use crate::hints::Member;
use sn_mem::Scratch;
use sn_ports::NoMemory;
use std::alloc::Global;

fn open_deques(alloc: Global, workers: u32) -> Result<Vec<OwnDeque>, NoMemory>
    ensures { IfOk result (λ v. length v.items ≡ workers) }
{
    let mut deques = Vec::new(alloc);
    for _worker in 0..workers {
        deques.push(open_deque(alloc)?)?;
    }
    Ok(deques)
}

/// Ways to take from each deque but the one at a place.
fn others_of(alloc: Global, deques: &[OwnDeque], place: usize) -> Result<Vec<OtherDeque>, NoMemory>
    requires { place < length deques.now }
    ensures { IfOk result (λ v. length v.items + 1 ≡ length deques.now) }
{
    let mut others = Vec::new(alloc);
    for k in 0..place {
        others.push(OtherDeque::of(&deques[k])?)?;
    }
    for k in place + 1..deques.len() {
        others.push(OtherDeque::of(&deques[k])?)?;
    }
    Ok(others)
}

/// All that a worker has but its own deque and its scratch.
#[derive(Drop)]
struct Side {
    place: u32,
    others: Vec<OtherDeque>,
    ghost placed: { place ≤ length others.items },
    ghost few: { length others.items < most_workers },
}

fn sides_of(alloc: Global, deques: &[OwnDeque]) -> Result<Vec<Side>, NoMemory>
    requires { length deques.now ≤ most_workers }
    ensures len { IfOk result (λ v. length v.items ≡ length deques.now) }
    ensures others { IfOk result (λ v. All (λ side. length side.others.items + 1 ≡ length deques.now) v.items) }
{
    let mut sides = Vec::new(alloc);
    for place in 0..deques.len() {
        let others = others_of(alloc, deques, place)?;
        sides.push(Side {
            place: place as u32,
            others,
        })?;
    }
    Ok(sides)
}

fn open_hand(alloc: Global, own: OwnDeque, side: Side, scratch: Scratch) -> Result<Hand, NoMemory>
    ensures { IfOk result (λ hand. deques_of hand ≡ length side.others.items + 1) }
{
    let Side { place, others } = side;
    let hints = DequeHints::of(alloc, own, place, others)?;
    Ok(Hand {
        seat: None,
        scratch,
        member: Member::new(hints, place),
    })
}

/// What each worker has. Each sees the deques of all.
pub fn open_hands(alloc: Global, workers: u32) -> Result<Vec<Hand>, NoMemory>
    requires { workers ≤ most_workers }
    ensures len { IfOk result (λ v. length v.items ≡ workers) }
    ensures deques { IfOk result (λ v. All (λ hand. deques_of hand ≡ workers) v.items) }
{
    let mut deques = open_deques(alloc, workers)?;
    let mut sides = sides_of(alloc, deques.as_slice())?;
    let first = Scratch::new(alloc)?;
    let mut hands = Vec::new(alloc);
    while let Some(own) = deques.pop() {
        let Some(side) = sides.pop() else {
            unreachable!();
        };
        let scratch = first.beside(alloc)?;
        hands.push(open_hand(alloc, own, side, scratch)?)?;
    }
    Ok(hands)
}
