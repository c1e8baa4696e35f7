//! What a node is linked with.
ghost use Rattle.std.specs.Prelude.{◌≡◌};
ghost use Rattle.sn_forest.specs.Links.{pointed};

/// Which neighbour of a node.
#[derive(Clone, Copy, Debug, PartialEq, Eq)]
pub(crate) enum Link {
    /// The node that it is a child of.
    Parent,
    /// The node before it, a child of the same node.
    Previous,
    /// The node after it, a child of the same node.
    Next,
    /// Its first child.
    First,
    /// Its last child.
    Last,
}

/// The neighbours of a node, by their keys, if it has them.
#[derive(Clone, Copy, Debug, PartialEq, Eq)]
pub struct Links {
    /// The node that it is a child of.
    pub parent: Option<usize>,
    /// The node before it, a child of the same node.
    pub previous: Option<usize>,
    /// The node after it, a child of the same node.
    pub next: Option<usize>,
    /// Its first child.
    pub first: Option<usize>,
    /// Its last child.
    pub last: Option<usize>,
}

impl Links {
    /// Names another node as a neighbour, or none.
    pub(crate) fn point(&mut self, link: Link, to: Option<usize>)
        ensures { self.new ≡ pointed link to self.old }
    {
        match link {
            Link::Parent => self.parent = to,
            Link::Previous => self.previous = to,
            Link::Next => self.next = to,
            Link::First => self.first = to,
            Link::Last => self.last = to,
        }
    }
}
