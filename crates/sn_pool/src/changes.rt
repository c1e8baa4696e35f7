//! What was changed since a journal began.

use sn_mem::Extent;

/// A change of the live extents.
#[derive(Clone, Copy)]
pub enum Change {
    /// This extent was taken.
    Taken(Extent),
    /// This extent was given back.
    Given(Extent),
}
