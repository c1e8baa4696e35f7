//! Replies of numbers and short names, argument by argument.
ghost use Rattle.std.specs.Prelude.{◌≡◌, ◌<◌, ◌+◌, ◌^◌, ◌∷◌, ◌++◌, [], true, length, OnOk, OnErr, IfOk};
ghost use Rattle.sn_osc.specs.Shape.{int, string, arguments, message_of};
ghost use Rattle.sn_osc.specs.Bytes.{has_no_null, arguments_bytes};
ghost use Rattle.sn_reply.specs.Sending.{IsSendable};
ghost use Rattle.sn_reply.specs.Answering.{IsAddress};

use sn_osc::{Address, Arg, Args, Body, Message};
use sn_ports::{NoMemory, Text};
use std::alloc::Global;
use std::marker::Model;

/// The arguments of a reply that is being made: numbers and short names.
#[derive(Debug, Drop)]
pub struct Answer {
    items: Vec<Arg>,
    alloc: Global,
}

impl Model for Answer {
    ghost use Rattle.std.specs.Prelude.{List, map};
    ghost use Rattle.sn_osc.specs.Shape.{Argument, argument_of};
    ghost use Rattle.sn_reply.specs.Answering.{AreShort};

    ghost Value = { List Argument };

    ghost view = { λ a. map argument_of a.items.items };

    ghost invariant = { λ a. AreShort (map argument_of a.items.items) };
}

impl Answer {
    /// No arguments.
    pub fn new(alloc: Global) -> Answer
        ensures { result ≡ [] }
    {
        Answer {
            items: Vec::new(alloc),
            alloc,
        }
    }

    /// One more number. An `Err` changes nothing.
    pub fn push_int(&mut self, value: i32) -> Result<(), NoMemory>
        ensures ok { OnOk result (self.new ≡ self.old ++ int value ∷ []) }
        ensures err { OnErr result (self.new ≡ self.old) }
    {
        self.items.push(Arg::Int(value))?;
        Ok(())
    }

    /// One more name, of at most 59 bytes. An `Err` changes nothing.
    pub fn push_name(&mut self, name: &[u8]) -> Result<(), NoMemory>
        requires clean { has_no_null name.now ≡ true }
        requires short { length name.now < 60 }
        ensures ok { OnOk result (self.new ≡ self.old ++ string name.now ∷ []) }
        ensures err { OnErr result (self.new ≡ self.old) }
    {
        let text = Text::from_slice(self.alloc, name)?;
        self.items.push(Arg::Text(text))?;
        Ok(())
    }

    /// How many arguments there are.
    pub fn len(&self) -> usize
        ensures { result ≡ length self.now }
    {
        self.items.len()
    }

    /// The message with these arguments.
    pub fn into_message(self, address: &[u8]) -> Result<Message, NoMemory>
        requires address { IsAddress address.now }
        requires few { length self < 2 ^ 24 }
        ensures message { IfOk result (λ m. message_of m ≡ record { address = address.now; body = arguments self }) }
        ensures sendable { IfOk result (λ m. IsSendable (message_of m)) }
    {
        Ok(Message {
            address: Address::from_slice(self.alloc, address)?,
            body: Body::Args(Args::from_vec(self.items)),
        })
    }

    /// The message with these arguments, if their bytes are few enough.
    pub fn into_long_message(self, address: &[u8]) -> Result<Message, NoMemory>
        requires address { IsAddress address.now }
        requires few { length (arguments_bytes self) + length self + 256 < 2 ^ 31 }
        ensures message { IfOk result (λ m. message_of m ≡ record { address = address.now; body = arguments self }) }
        ensures sendable { IfOk result (λ m. IsSendable (message_of m)) }
    {
        Ok(Message {
            address: Address::from_slice(self.alloc, address)?,
            body: Body::Args(Args::from_vec(self.items)),
        })
    }
}
