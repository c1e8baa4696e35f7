//! What undoes a step.
use sn_forest::Place;

/// A step, and what its undoing needs.
#[derive(Clone, Copy, Debug, PartialEq, Eq)]
pub enum Undo {
    /// A node with this key was put in.
    Inserted(usize),
    /// The node with this key stood at this place, with all below it.
    Moved(usize, Place),
    /// The node with this key had this run flag.
    Ran(usize, bool),
}
