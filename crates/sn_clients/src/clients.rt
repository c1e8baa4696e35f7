//! Clients, and how their streams end.
ghost use Rattle.std.specs.Prelude.{◌≡◌, None, Some};
ghost use Rattle.sn_clients.specs.declared.clients.ClientEnd.TheVariants as client_ends;

use crate::seats::Inlet;
use sn_ports::{NoMemory, Source};

/// How a client's stream ended.
#[derive(Clone, Copy, Debug, PartialEq, Eq)]
pub enum ClientEnd {
    /// Nothing more came, and no unfinished frame was kept.
    Closed,
    /// Nothing more came, and `kept` bytes of an unfinished frame were kept.
    Cut { kept: u32 },
    /// A frame has a size that no packet has: below 4, above 65,536 or no multiple of 4.
    BadFrame { size: i32 },
    /// The source failed.
    ReadFault,
    /// The sink for the client's replies failed.
    SendFault,
    /// The session ended first, or has not begun.
    Stopped,
    /// 2^62 bytes or 4,294,967,295 frames came, as many as may come.
    Worn,
    /// Memory ran out.
    NoMemory,
}

impl From<NoMemory> for ClientEnd {
    ghost from_gives = { λ _ e. e ≡ client_ends.NoMemory };

    fn from(_: NoMemory) -> Self {
        ClientEnd::NoMemory
    }
}

/// A client of a session.
#[derive(Drop)]
pub struct Client<S: Source> {
    /// Where its bytes come from.
    pub source: S,
    /// How it ended: as its reader did, unless its sink failed.
    pub end: ClientEnd,
    /// How its reader ended.
    pub read: ClientEnd,
    pub(crate) inlet: Option<Inlet>,
}

/// Clients, client 0 first.
pub type Clients<S> = Vec<Client<S>>;

impl<S: Source> Client<S> {
    /// A client whose session has not begun.
    pub fn new(source: S) -> Client<S>
        ensures source { result.source ≡ source }
        ensures ends { (result.end ≡ client_ends.Stopped) × (result.read ≡ client_ends.Stopped) }
        ensures inlet { result.inlet ≡ None }
    {
        Client {
            source,
            end: ClientEnd::Stopped,
            read: ClientEnd::Stopped,
            inlet: None,
        }
    }

    /// Gives the client an inlet, for a session that has not begun.
    pub(crate) fn seat(&mut self, inlet: Inlet)
        ensures { self.new ≡ record self.old { end = client_ends.Stopped; read = client_ends.Stopped; inlet = Some inlet } }
    {
        self.end = ClientEnd::Stopped;
        self.read = ClientEnd::Stopped;
        self.inlet = Some(inlet);
    }

    /// Its session has ended before it began.
    pub(crate) fn stop(&mut self)
        ensures { self.new ≡ record self.old { end = client_ends.Stopped; read = client_ends.Stopped } }
    {
        self.end = ClientEnd::Stopped;
        self.read = ClientEnd::Stopped;
    }

    /// Takes the inlet back.
    pub(crate) fn leave(&mut self) -> Option<Inlet>
        ensures inlet { result ≡ self.old.inlet }
        ensures rest { self.new ≡ record self.old { inlet = None } }
    {
        self.inlet.take()
    }
}
