//! Requests of controls, without those that later ones make unnecessary.
ghost use Rattle.std.specs.Prelude.{◌≡◌, true, IfOk};
ghost use Rattle.sn_nodecmd.specs.Runs.{name_of};
ghost use Rattle.sn_nodecmd.specs.Covering.{AreJudged, AreLeft, items_in, uncovered};

use crate::names::NamedControl;
use sn_ports::NoMemory;
use std::alloc::Global;

/// From this many requests on, those that later ones cover are left out, and runs are resolved.
pub(crate) const MANY: usize = 16;

/// A request of controls. A later one may cover it: that one does all that this one does.
pub trait Covering {
    /// Whether the second covers the first.
    ghost covered: { Self → Self → Type 0 };

    /// The control with which it begins.
    fn control(&self) -> NamedControl<'_>;

    /// Whether a later one is known to cover it.
    fn is_covered_by(&self, later: &Self) -> bool
        ensures { result ≡ true → covered self.now later.now };
}

/// A request, and whether a later one is known that covers it.
#[derive(Clone, Copy)]
pub struct Judged<T> {
    pub item: T,
    pub is_covered: bool,
}

/// A control, and the place of a request that begins with it.
type RunPlace<'a> = (NamedControl<'a>, usize);

fn unjudged<T: Copy + Covering>(alloc: Global, items: &[T]) -> Result<Vec<Judged<T>>, NoMemory>
    ensures judged { IfOk result (λ v. AreJudged T.covered v.items) }
    ensures items { IfOk result (λ v. items_in v.items ≡ items.now) }
{
    let mut judged = Vec::new(alloc);
    for one in items {
        judged.push(Judged {
            item: *one,
            is_covered: false,
        })?;
    }
    Ok(judged)
}

/// The places of requests. Those with the same control stand beside each other, in the order of their places.
fn places_of<T: Covering>(alloc: Global, items: &[T]) -> Result<Vec<RunPlace<'_>>, NoMemory> {
    let mut places = Vec::new(alloc);
    for at in 0..items.len() {
        let item = &items[at];
        places.push((item.control(), at))?;
    }
    places.sort_unstable();
    Ok(places)
}

/// Whether two controls are the same by their numbers, or by their names.
pub fn is_same(a: NamedControl<'_>, b: NamedControl<'_>) -> bool
    ensures { result ≡ true → name_of b.entry ≡ name_of a.entry }
{
    match a {
        NamedControl::Numbered(number) =>
            matches!(b, NamedControl::Numbered(other) if other == number),
        NamedControl::Named(name) => matches!(b, NamedControl::Named(other) if other == name),
    }
}

/// Marks the request at a place if that at a later one covers it.
fn mark<T: Copy + Covering>(judged: &mut [Judged<T>], place: usize, later: usize)
    requires { AreJudged T.covered judged.old }
    ensures judged { AreJudged T.covered judged.new }
    ensures items { items_in judged.new ≡ items_in judged.old }
{
    if place >= later || later >= judged.len() {
        return;
    }
    let Judged { item, .. } = judged[place];
    let next = &judged[later];
    if item.is_covered_by(&next.item) {
        judged[place] = Judged {
            item,
            is_covered: true,
        };
    }
}

/// Marks each request that the next one with the same control covers.
fn mark_all<T: Copy + Covering>(judged: &mut [Judged<T>], places: &[RunPlace<'_>])
    requires { AreJudged T.covered judged.old }
    ensures judged { AreJudged T.covered judged.new }
    ensures items { items_in judged.new ≡ items_in judged.old }
{
    for next in 1..places.len() {
        let (_, place) = places[next - 1];
        let (_, later) = places[next];
        mark(judged, place, later);
    }
}

fn uncovered<T: Copy>(alloc: Global, judged: &[Judged<T>]) -> Result<Vec<T>, NoMemory>
    ensures { IfOk result (λ v. v.items ≡ uncovered judged.now) }
{
    let mut left = Vec::new(alloc);
    for one in judged {
        if !one.is_covered {
            left.push(one.item)?;
        }
    }
    Ok(left)
}

/// What is left of requests. If there are many, those that a later one of the same control covers are left out, so of
/// many requests of one control only the last is met.
pub fn latest<T: Copy + Covering>(alloc: Global, items: Vec<T>) -> Result<Vec<T>, NoMemory>
    ensures { IfOk result (λ v. AreLeft T.covered items.items v.items) }
{
    if items.len() < MANY {
        return Ok(items);
    }
    let mut judged = unjudged(alloc, &items)?;
    let places = places_of(alloc, &items)?;
    mark_all(&mut judged, &places);
    uncovered(alloc, &judged)
}
