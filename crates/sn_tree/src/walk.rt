//! The walk over the nodes that run.
ghost use Rattle.std.specs.Prelude.{◌≡◌, true};
ghost use Rattle.std.specs.Iterator.{YieldsFirstBy, item_count};

use crate::cursor::{Cursor, skip_paused};
use crate::node::NodeKind;
use crate::payloads::payload_at;
use slab::Slab;
use std::iter::FusedIterator;
use std::marker::Model;

/// A running node that the walk has reached.
#[derive(Drop)]
pub struct Visit<'a, P> {
    /// The node id.
    pub id: i32,
    /// What the node is.
    pub kind: NodeKind,
    /// What the tree keeps for the node.
    pub payload: &'a P,
}

/// The nodes that run, in the order of the walk, seen as the list of the labels of those that are left.
/// A paused node is left out with all below it, in one step. It takes no memory.
#[derive(Drop)]
pub struct Walk<'a, P> {
    /// The root's payload.
    pub(crate) root: &'a P,
    /// The payloads of the other nodes, by their keys.
    pub(crate) payloads: &'a Slab<P>,
    /// The nodes that are left, paused ones among them.
    pub(crate) rest: Cursor<'a>,
}

impl<'a, P> Model for Walk<'a, P> {
    ghost use Rattle.std.specs.Prelude.{List};
    ghost use Rattle.std.specs.Coded.{coded_list};
    ghost use Rattle.sn_tree.specs.Trees.{Label};
    ghost use Rattle.sn_tree.specs.Model.{label_code};

    ghost Value = { List (Label P) };

    ghost coded = { coded_list (label_code P.code) };

    ghost use Rattle.sn_tree.specs.Walking.{left_of, IsLeft};

    ghost view = { λ w. left_of w.root.now w.payloads.now.slots w.rest };

    ghost invariant = { λ w. IsLeft w.payloads.now.slots w.rest };
}

impl<'a, P> Iterator for Walk<'a, P> {
    type Item = Visit<'a, P>;

    ghost next_gives = { YieldsFirstBy (λ visit. record { id = visit.id; kind = visit.kind; running = true; payload = visit.payload.now }) (λ rest. rest) };

    ghost remaining = { item_count (λ rest. rest) };

    fn next(&mut self) -> Option<Visit<'a, P>> {
        skip_paused(&mut self.rest);
        let Some(row) = self.rest.row() else {
            return None;
        };
        let Some(payload) = payload_at(self.root, self.payloads, row.item.key) else {
            return None;
        };
        self.rest.step();
        Some(Visit {
            id: row.item.id,
            kind: row.item.kind,
            payload,
        })
    }
}

impl<'a, P> FusedIterator for Walk<'a, P> {}
