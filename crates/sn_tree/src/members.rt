//! The walk over a node and all nodes below it.
ghost use Rattle.std.specs.Prelude.{◌≡◌};
ghost use Rattle.std.specs.Iterator.{YieldsFirstBy, item_count};

use crate::cursor::{Cursor, count_tops};
use crate::node::NodeKind;
use crate::payloads::payload_at;
use slab::Slab;
use std::iter::FusedIterator;
use std::marker::Model;

/// A node that the walk has reached, with the number of nodes just below it.
#[derive(Drop)]
pub struct Member<'a, P> {
    /// The node id.
    pub id: i32,
    /// What the node is.
    pub kind: NodeKind,
    /// The run flag: false if the node itself is paused.
    pub running: bool,
    /// The number of nodes just below it.
    pub children: u32,
    /// What the tree keeps for the node.
    pub payload: &'a P,
}

/// A node and all nodes below it, running or not, in the order of the walk. It is seen as the list of the labels of
/// those that are left, each with the number of nodes just below it. It takes no memory.
#[derive(Drop)]
pub struct Members<'a, P> {
    /// The root's payload.
    pub(crate) root: &'a P,
    /// The payloads of the other nodes, by their keys.
    pub(crate) payloads: &'a Slab<P>,
    /// The nodes that are left.
    pub(crate) rest: Cursor<'a>,
}

impl<'a, P> Model for Members<'a, P> {
    ghost use Rattle.std.specs.Prelude.{◌≤◌, List, ℕ};
    ghost use Rattle.sn_ports.specs.Limits.{most_nodes};
    ghost use Rattle.sn_forest.specs.Trees.{count};
    ghost use Rattle.sn_tree.specs.Trees.{Label};
    ghost use Rattle.sn_tree.specs.Members.{members_code, members_of};

    ghost Value = { List (Label P × ℕ) };

    ghost coded = { members_code P.code };

    ghost use Rattle.sn_tree.specs.Walking.{IsLeft};

    ghost view = { λ m. members_of m.root.now m.payloads.now.slots m.rest };

    ghost invariant = { λ m. IsLeft m.payloads.now.slots m.rest × (count m.rest ≤ most_nodes) };
}

impl<'a, P> Iterator for Members<'a, P> {
    type Item = Member<'a, P>;

    ghost next_gives = { YieldsFirstBy (λ m. (record { id = m.id; kind = m.kind; running = m.running; payload = m.payload.now }, m.children)) (λ rest. rest) };

    ghost remaining = { item_count (λ rest. rest) };

    fn next(&mut self) -> Option<Member<'a, P>> {
        let Some(row) = self.rest.row() else {
            return None;
        };
        let Some(payload) = payload_at(self.root, self.payloads, row.item.key) else {
            return None;
        };
        let children = count_tops(self.rest.below());
        self.rest.step();
        Some(Member {
            id: row.item.id,
            kind: row.item.kind,
            running: row.item.running,
            children,
            payload,
        })
    }
}

impl<'a, P> FusedIterator for Members<'a, P> {}
