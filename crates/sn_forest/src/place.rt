//! Where nodes are put.
ghost use Rattle.std.specs.Prelude.{◌≡◌};
ghost use Rattle.sn_forest.specs.Places.{corner_at};

use crate::slot::{Corner, Slot, links_at};
use slab::Slab;

/// A place in the trees, by the key of a node.
#[derive(Clone, Copy, Debug, PartialEq, Eq)]
pub enum Place {
    /// The first of this node's children.
    First(usize),
    /// The last of this node's children.
    Last(usize),
    /// Just before this node, beside it.
    Before(usize),
    /// Just after this node, beside it.
    After(usize),
}

/// What stands around a place.
pub fn corner<T>(slots: &Slab<Slot<T>>, place: Place) -> Corner
    ensures { result ≡ corner_at place slots.now.slots }
{
    match place {
        Place::First(key) => Corner {
            parent: Some(key),
            previous: None,
            next: links_at(slots, key).first,
        },
        Place::Last(key) => Corner {
            parent: Some(key),
            previous: links_at(slots, key).last,
            next: None,
        },
        Place::Before(key) => {
            let links = links_at(slots, key);
            Corner {
                parent: links.parent,
                previous: links.previous,
                next: Some(key),
            }
        }
        Place::After(key) => {
            let links = links_at(slots, key);
            Corner {
                parent: links.parent,
                previous: Some(key),
                next: links.next,
            }
        }
    }
}
