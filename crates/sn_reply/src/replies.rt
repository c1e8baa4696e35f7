ghost use Rattle.std.specs.Prelude.{map, ◌≡◌, ◌≤◌, ◌-◌, ◌++◌, ◌∷◌, [], length, take, OnOk, OnErr};
ghost use Rattle.sn_osc.specs.Shape.{message_of};
ghost use Rattle.sn_reply.specs.Framed.{joined, mark_of};
ghost use Rattle.sn_reply.specs.Sending.{IsSendable, AllSendable};

use sn_osc::{Message, append_frame};
use sn_ports::{NoMemory, Text};
use std::alloc::Global;
use std::marker::Model;
use std::mem::replace;

/// Whom a reply goes to.
#[derive(Clone, Copy, Debug, PartialEq, Eq)]
pub enum To {
    /// The client with this number.
    Client(u32),
    /// Every client.
    All,
}

/// A frame among others: to whom it goes, and its length in bytes.
#[derive(Clone, Copy, Debug)]
pub(crate) struct Mark {
    pub(crate) to: To,
    pub(crate) len: u32,
}

/// Replies in the order in which they are sent. Each is kept as the frame that is sent.
#[derive(Debug, Drop)]
pub struct Replies {
    frames: Text,
    marks: Vec<Mark>,
    alloc: Global,
}

impl Model for Replies {
    ghost use Rattle.std.specs.Prelude.{List};
    ghost use Rattle.sn_reply.specs.Replies.{ReplyShape};
    ghost use Rattle.sn_reply.specs.Framed.{replies_in, AreFramed};

    ghost Value = { List ReplyShape };

    ghost view = { λ r. replies_in r.frames.bytes r.marks.items };

    ghost invariant = { λ r. AreFramed r.frames.bytes r.marks.items };
}

/// Drops the bytes from `len` on.
fn keep_front(alloc: Global, text: &mut Text, len: usize)
    ensures { text.new.bytes ≡ take len text.old.bytes }
{
    let mut bytes = replace(text, Text::new(alloc)).into_vec();
    bytes.truncate(len);
    *text = Text::from_vec(bytes);
}

impl Replies {
    /// No replies.
    pub fn new(alloc: Global) -> Self
        ensures { result ≡ [] }
    {
        Replies {
            frames: Text::new(alloc),
            marks: Vec::new(alloc),
            alloc,
        }
    }

    /// How many there are.
    pub fn len(&self) -> usize
        ensures { result ≡ length self.now }
    {
        self.marks.len()
    }

    /// The frames of the replies, one after the other.
    pub(crate) fn frames(&self) -> &[u8]
        ensures { result.now ≡ joined self.now }
    {
        self.frames.as_slice()
    }

    /// To whom each reply goes, and how long its frame is.
    pub(crate) fn marks(&self) -> &[Mark]
        ensures marks { result.now ≡ map mark_of self.now }
        ensures sendable { AllSendable self.now }
    {
        &self.marks
    }

    /// Appends a reply. An `Err` changes nothing.
    pub fn push(&mut self, to: To, message: Message) -> Result<(), NoMemory>
        requires { IsSendable (message_of message) }
        ensures ok { OnOk result (self.new ≡ self.old ++ (record { to = to; message = message_of message }) ∷ []) }
        ensures err { OnErr result (self.new ≡ self.old) }
    {
        self.marks.reserve(1)?;
        let len = append_frame(&mut self.frames, &message)?;
        self.marks.push_reserved(Mark { to, len });
        Ok(())
    }

    /// Drops the last reply, if there is one.
    fn drop_last(&mut self)
        ensures { self.new ≡ take (length self.old - 1) self.old }
    {
        let Some(mark) = self.marks.pop() else {
            return;
        };
        let kept = self.frames.len() - mark.len as usize;
        keep_front(self.alloc, &mut self.frames, kept);
    }

    /// Drops the replies from `len` on.
    pub fn truncate(&mut self, len: usize)
        ensures { self.new ≡ take len self.old }
    {
        while self.len() > len {
            self.drop_last();
        }
    }
}
