//! What the ends of a relay know of its queue and of its stop word. No value of these types is made.
use crate::notes::Note;
use std::collections::LinkedList;

/// The bytes of frames.
pub type FrameList = LinkedList<LinkedList<u8>>;

/// A client, and the frames that its inlet has put.
#[derive(Drop)]
pub struct Sender {
    /// The client.
    pub client: u32,
    /// Its frames, in order.
    pub frames: FrameList,
}

/// What an end knows of the queue.
#[derive(Drop)]
pub enum End {
    /// The outlet.
    Out {
        /// How many inlets were made.
        clients: u32,
        /// The notes that it took, in order.
        taken: LinkedList<Note>,
        /// What each inlet that it gathered had put.
        gathered: LinkedList<Sender>,
    },
    /// An inlet: what it has put.
    In(Sender),
    /// An inlet that was gathered.
    Gone,
}

/// What an end knows of the stop word.
#[derive(Drop)]
pub enum Sight {
    /// The outlet.
    Setter {
        /// It has set the word.
        set: bool,
        /// An inlet that it gathered had found the word set.
        heard: bool,
    },
    /// An inlet, and whether it last found the word set.
    Finder(bool),
    /// An inlet that was gathered.
    Shut,
}
