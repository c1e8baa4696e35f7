//! The slots of nodes, and how they are linked again.
ghost use Rattle.std.specs.Prelude.{◌≡◌, Some};
ghost use Rattle.sn_forest.specs.Links.{slot_at, with_link, forward, backward, end_after, links_in, unlinked, end_without, placed, inlinked, holding};

use crate::links::{Link, Links};
use slab::Slab;

/// A node: what it is linked with, and its value.
#[derive(Drop)]
pub struct Slot<T> {
    /// Its neighbours.
    pub links: Links,
    /// What it holds.
    pub value: T,
}

/// What stands around a place among the children of a node, or on the top level.
#[derive(Clone, Copy, Debug, PartialEq, Eq)]
pub struct Corner {
    /// The node whose child a node at this place is.
    pub parent: Option<usize>,
    /// The node just before the place.
    pub previous: Option<usize>,
    /// The node just after the place.
    pub next: Option<usize>,
}

/// Names a neighbour of a node, or that there is none. If there is no such node, nothing changes.
fn point<T>(slots: &mut Slab<Slot<T>>, key: usize, link: Link, to: Option<usize>)
    ensures { slots.new ≡ with_link key link to slots.old }
{
    match slots.get_mut(key) {
        Some(slot) => slot.links.point(link, to),
        None => {}
    }
}

/// What stands before a place, the node before it or the parent, names the node that follows there.
fn point_forward<T>(
    slots: &mut Slab<Slot<T>>,
    parent: Option<usize>,
    previous: Option<usize>,
    to: Option<usize>,
)
    ensures { slots.new ≡ forward parent previous to slots.old }
{
    match previous {
        Some(previous) => point(slots, previous, Link::Next, to),
        None => match parent {
            Some(parent) => point(slots, parent, Link::First, to),
            None => {}
        },
    }
}

/// What stands after a place, the node after it or the parent, names the node that precedes there. On the top level the
/// parent's part falls to `end`.
fn point_backward<T>(
    slots: &mut Slab<Slot<T>>,
    end: &mut Option<usize>,
    parent: Option<usize>,
    next: Option<usize>,
    to: Option<usize>,
)
    ensures slots { slots.new ≡ backward parent next to slots.old }
    ensures end { end.new ≡ end_after parent next to end.old }
{
    match next {
        Some(next) => point(slots, next, Link::Previous, to),
        None => match parent {
            Some(parent) => point(slots, parent, Link::Last, to),
            None => *end = to,
        },
    }
}

/// What a node is linked with: nothing, if there is no such node.
pub fn links_at<T>(slots: &Slab<Slot<T>>, key: usize) -> Links
    ensures { result ≡ links_in (slot_at slots.now.slots key) }
{
    match slots.get(key) {
        Some(slot) => slot.links,
        None => Links {
            parent: None,
            previous: None,
            next: None,
            first: None,
            last: None,
        },
    }
}

/// Takes a node with these links out, with all below it: what stands around it is linked together.
pub fn cut<T>(slots: &mut Slab<Slot<T>>, end: &mut Option<usize>, links: Links)
    ensures slots { slots.new ≡ unlinked links slots.old }
    ensures end { end.new ≡ end_without links end.old }
{
    point_forward(slots, links.parent, links.previous, links.next);
    point_backward(slots, end, links.parent, links.next, links.previous);
}

/// Sets the parent of a node, and the nodes before and after it.
fn place<T>(slots: &mut Slab<Slot<T>>, key: usize, corner: Corner)
    ensures { slots.new ≡ placed key corner slots.old }
{
    match slots.get_mut(key) {
        Some(slot) => {
            slot.links.parent = corner.parent;
            slot.links.previous = corner.previous;
            slot.links.next = corner.next;
        }
        None => {}
    }
}

/// Puts a node in at a place, with all below it.
pub fn paste<T>(slots: &mut Slab<Slot<T>>, end: &mut Option<usize>, key: usize, corner: Corner)
    ensures slots { slots.new ≡ inlinked key corner slots.old }
    ensures end { end.new ≡ end_after corner.parent corner.next (Some key) end.old }
{
    point_forward(slots, corner.parent, corner.previous, Some(key));
    point_backward(slots, end, corner.parent, corner.next, Some(key));
    place(slots, key, corner);
}

/// Gives a node another value. If there is no such node, nothing changes.
pub fn hold<T: Drop>(slots: &mut Slab<Slot<T>>, key: usize, value: T)
    ensures { slots.new ≡ holding key value slots.old }
{
    match slots.get_mut(key) {
        Some(slot) => slot.value = value,
        None => {}
    }
}
