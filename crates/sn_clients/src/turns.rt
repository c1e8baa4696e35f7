//! What a session did, turn by turn.

/// A turn of a session.
#[derive(Clone, Copy, Debug, PartialEq, Eq)]
pub enum Turn {
    /// The next frame of this client was taken.
    Frame(u32),
    /// This many blocks were due, 1 to 1,024.
    Ticks(u32),
}

/// Turns, in order.
pub type Turns = Vec<Turn>;

/// How a session ended.
#[derive(Clone, Copy, Debug, PartialEq, Eq)]
pub enum How {
    /// `/quit` was accepted.
    Quit,
    /// The pulse gave 0, and all frames of all clients were played.
    Over,
    /// Memory ran out.
    NoMemory,
    /// The sink for the sound failed.
    SoundFault,
    /// As many turns were done as there may be.
    TurnsFull,
}

/// What a session was.
#[derive(Debug, Drop)]
pub struct Session {
    /// How it ended.
    pub how: How,
    /// Its turns.
    pub turns: Turns,
}
