//! The nodes that are heard, with what each synth touches.
use crate::mixing::BUSES;
use sn_foot::Reach;
use sn_mem::Moves;

/// A running synth, and the words that it may read, write and mix.
#[derive(Drop)]
pub struct Voice {
    /// The id of the synth.
    pub id: i32,
    /// The words.
    pub reach: Reach,
    /// The buses that it mixes onto lanes.
    pub moves: Moves,
}

/// How the members of a group are joined.
#[derive(Drop)]
pub struct Joint {
    /// The lanes that are added to their buses after the members, if the group is split. With them the members may run
    /// beside each other.
    pub lanes: Option<Moves>,
    /// Which audio buses two of the members mix.
    pub shared: [bool; BUSES],
}

/// The children of a group that are heard, in order.
#[derive(Drop)]
pub enum HeardNodes {
    /// No more of them.
    None,
    /// A synth, and those after it.
    Synth(Voice, Box<HeardNodes>),
    /// A group with those below it, and those after it.
    Group(Joint, Box<HeardNodes>, Box<HeardNodes>),
}
