//! Whether two jobs may not run beside each other.
ghost use Rattle.std.specs.Prelude.{◌≡◌, ◌↔◌, ◌||◌, IsTrue};
ghost use Rattle.std.specs.List.{list_any};
ghost use Rattle.sn_mem.specs.Words.{Clash};
ghost use Rattle.sn_mem.specs.Meetings.{meet, any_meet, writes_meet};

use crate::extents::{Extent, Foot};

/// Whether two extents share a word.
pub(crate) fn meets(a: Extent, b: Extent) -> bool
    ensures { result ≡ meet a b }
{
    let begin = a.at.max(b.at) as u64;
    begin < a.at as u64 + a.len as u64 && begin < b.at as u64 + b.len as u64
}

fn meets_any(a: Extent, others: &[Extent]) -> bool
    ensures { result ≡ list_any (meet a) others.now }
{
    others.iter().any(|b| meets(a, *b))
}

fn any_meets(some: &[Extent], others: &[Extent]) -> bool
    ensures { result ≡ any_meet some.now others.now }
{
    some.iter().any(|a| meets_any(*a, others))
}

/// Whether `a` writes a word that `b` touches.
fn writes_meet(a: &Foot, b: &Foot) -> bool
    ensures { result ≡ writes_meet a.now b.now }
{
    any_meets(a.writes.as_slice(), b.writes.as_slice())
        || any_meets(a.writes.as_slice(), b.reads.as_slice())
}

fn either_meets(a: &Foot, b: &Foot) -> bool
    ensures { result ≡ (writes_meet a.now b.now || writes_meet b.now a.now) }
{
    writes_meet(a, b) || writes_meet(b, a)
}

/// Whether one of the two writes a word that the other reads or writes.
///
/// Its time grows with the product of the lengths of the two feet.
#[tactic(auto, using(crate::proofs::Meetings::clash_is))]
pub fn clash(a: &Foot, b: &Foot) -> bool
    ensures { IsTrue result ↔ Clash a.now b.now }
{
    either_meets(a, b)
}
