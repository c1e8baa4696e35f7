//! How far an engine is.
/// How far an engine is.
#[derive(Clone, Copy, Debug, PartialEq, Eq)]
pub enum Standing {
    /// All blocks that were rendered are settled, and a boundary is next.
    Settled,
    /// A boundary was done, and its blocks are next: one, or up to 32.
    Bounded,
    /// Blocks were rendered, and are to be settled.
    Rendered,
    /// Memory ran out within a boundary.
    Spent,
}

/// Whether the server goes on after a boundary.
#[derive(Clone, Copy, Debug, PartialEq, Eq)]
pub enum Flow {
    /// It goes on.
    On,
    /// `/quit` was accepted.
    Quit,
}
