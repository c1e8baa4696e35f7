//! Who is told of ends while a session goes on.

/// Told of ends. Nothing is promised of it but that it returns.
pub trait Watcher: Sync {
    /// The reader of a client has ended.
    fn client_ended(&self);

    /// The session has ended before its readers, which are to stop. Sources that wait for bytes may be made to answer.
    fn session_ended(&self);
}

/// Does nothing: for sources that never wait.
#[derive(Clone, Copy, Debug)]
pub struct Unwatched;

impl Watcher for Unwatched {
    fn client_ended(&self) {}

    fn session_ended(&self) {}
}
