//! Calls of a tree that scripts don't reach.
use crate::line::Unanswered;
use sn_tree::{AddAction, NodeKind, Spot, Tree, TreeFault, Uninserted};
use std::alloc::Global;

impl From<TreeFault> for Unanswered {
    fn from(_: TreeFault) -> Self {
        Unanswered::NoRow
    }
}

impl<P: Drop> From<Uninserted<P>> for Unanswered {
    fn from(refused: Uninserted<P>) -> Self {
        match refused {
            Uninserted::NoMemory(_) => Unanswered::NoMemory,
            Uninserted::Fault(_, _) => Unanswered::NoRow,
        }
    }
}

fn spot(action: AddAction, target: i32) -> Spot {
    Spot { action, target }
}

/// A walk goes from a group to what is in it, and then to what follows.
pub fn walked(alloc: Global) -> Result<bool, Unanswered> {
    let mut tree = Tree::new(alloc, 10u32)?;
    tree.insert(6, NodeKind::Group, spot(AddAction::Tail, 0), 16)?;
    tree.insert(7, NodeKind::Synth, spot(AddAction::Tail, 0), 17)?;
    tree.insert(9, NodeKind::Parallel, spot(AddAction::Head, 6), 19)?;
    Ok(
        tree.next_in_walk(0) == Some(6)
            && tree.next_in_walk(6) == Some(9)
            && tree.next_in_walk(9) == Some(7)
            && tree.next_in_walk(7).is_none(),
    )
}

/// A node that was taken out is put in again.
pub fn attached(alloc: Global) -> Result<bool, Unanswered> {
    let mut tree = Tree::new(alloc, 10u32)?;
    tree.insert(1, NodeKind::Synth, spot(AddAction::Tail, 0), 11)?;
    tree.detach(1)?;
    let count = tree.len();
    tree.attach(1, spot(AddAction::Tail, 0))?;
    Ok(count == 1 && tree.len() == 2 && tree.payload(1).copied() == Some(11))
}

/// A node that was put in again is out after that is undone.
pub fn attached_and_undone(alloc: Global) -> Result<bool, Unanswered> {
    let mut tree = Tree::new(alloc, 10u32)?;
    tree.insert(1, NodeKind::Synth, spot(AddAction::Tail, 0), 11)?;
    tree.detach(1)?;
    tree.begin(1)?;
    tree.attach(1, spot(AddAction::Tail, 0))?;
    tree.undo();
    Ok(tree.len() == 1 && tree.free() == Some(11))
}

/// A node that was taken out is in after that is undone, with the payload that was written.
pub fn written_and_undone(alloc: Global) -> Result<bool, Unanswered> {
    let mut tree = Tree::new(alloc, 10u32)?;
    tree.insert(1, NodeKind::Group, spot(AddAction::Tail, 0), 11)?;
    tree.begin(1)?;
    if let Some(payload) = tree.payload_mut(1) {
        *payload = 22;
    }
    tree.detach(1)?;
    tree.undo();
    Ok(tree.len() == 2 && tree.first(0) == Some(1) && tree.payload(1).copied() == Some(22))
}
