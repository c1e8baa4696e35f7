//! What goes through a relay, and what its calls answer.
use sn_ports::Text;

/// A frame of one client.
#[derive(Debug, Drop)]
pub struct Note {
    /// The client, from 0.
    pub client: u32,
    /// How many frames this client had put before.
    pub number: u32,
    /// The bytes of the packet.
    pub frame: Text,
}

/// The relay held as many notes as it may. The frame comes back.
#[derive(Debug, Drop)]
pub struct Full {
    /// The frame that was to be put.
    pub frame: Text,
}

/// What an inlet did until it was gathered.
#[derive(Clone, Copy, Debug, PartialEq, Eq)]
pub struct Sent {
    /// Its client.
    pub client: u32,
    /// How many frames it put.
    pub count: u32,
}
