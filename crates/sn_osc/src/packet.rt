ghost use Rattle.std.specs.Prelude.{◌≡◌, List, IfOk};

use sn_ports::{NoMemory, Text};
use std::alloc::Global;
use std::marker::Model;

/// A packet of Open Sound Control 1.0. Not each value has a spelling: `spellable` says which have one.
#[cycle(packet)]
#[derive(Debug, Drop)]
pub enum Packet {
    /// One message.
    Message(Message),
    /// A bundle of packets.
    Bundle(Bundle),
}

/// Packets that act at one time. Bundles nest at most 8 deep in a packet that has a spelling.
#[cycle(packet)]
#[derive(Debug, Drop)]
pub struct Bundle {
    /// 32 bits of seconds, 32 bits of fraction; 1 means "at once".
    pub tag: u64,
    /// Its packets, in order.
    pub elements: Elements,
}

/// The packets of a bundle, in order.
pub type Elements = Vec<Packet>;

/// An address and what follows it.
#[derive(Debug, Drop)]
pub struct Message {
    /// The command or reply, such as `/n_set`.
    pub address: Address,
    /// What follows the address.
    pub body: Body,
}

/// The address of a message. In a packet that has a spelling it begins with `/` and has no null byte. A short address
/// takes no memory of its own.
#[derive(Debug, Drop)]
pub struct Address {
    kept: Kept,
}

/// How many bytes a short address has at most.
const SHORT: usize = 23;

/// Where the bytes of an address stand.
#[derive(Debug, Drop)]
enum Kept {
    Short { len: u8, bytes: [u8; SHORT] },
    Long(Text),
}

impl Model for Address {
    ghost use Rattle.sn_osc.specs.Addresses.{AddressShape};

    ghost Value = { AddressShape };

    ghost use Rattle.sn_osc.specs.Addresses.{kept_bytes, IsKept};

    ghost view = { λ a. record { bytes = kept_bytes a.kept } };

    ghost invariant = { λ a. IsKept a.kept };
}

impl Address {
    /// A copy of the bytes.
    pub fn from_slice(alloc: Global, from: &[u8]) -> Result<Address, NoMemory>
        ensures { IfOk result (λ a. a.bytes ≡ from.now) }
    {
        if from.len() > SHORT {
            let long = Text::from_slice(alloc, from)?;
            return Ok(Address {
                kept: Kept::Long(long),
            });
        }
        let mut bytes = [0; SHORT];
        bytes[..from.len()].copy_from_slice(from);
        let len = from.len() as u8;
        Ok(Address {
            kept: Kept::Short { len, bytes },
        })
    }

    /// The bytes.
    pub fn as_slice(&self) -> &[u8]
        ensures { result.now ≡ self.now.bytes }
    {
        match &self.kept {
            Kept::Short { len, bytes } => &bytes[..*len as usize],
            Kept::Long(text) => text.as_slice(),
        }
    }
}

/// What follows a message's address.
#[derive(Debug, Drop)]
pub enum Body {
    /// An address alone.
    Bare,
    /// Arguments, each with its tag `i`, `s` or `b`.
    Args(Args),
    /// Tags after the comma, and all bytes after the tags, unread. In a packet that has a spelling one of the tags is
    /// neither `i` nor `s` nor `b`.
    Foreign { tags: Text, rest: Text },
}

/// An argument of a message.
#[derive(Debug, Drop)]
pub enum Arg {
    /// An integer of 32 bits.
    Int(i32),
    /// A string. In a packet that has a spelling none of its bytes is null.
    Text(Text),
    /// Any bytes.
    Blob(Text),
}

/// A list of arguments.
#[derive(Debug, Drop)]
pub struct Args {
    items: Vec<Arg>,
}

impl Model for Args {
    ghost use Rattle.std.specs.Prelude.{List};
    ghost use Rattle.sn_osc.specs.declared.packet.Arg.{Arg};

    ghost Value = { List Arg };

    ghost view = { λ a. a.items.items };
}

impl Args {
    /// The arguments of a vector.
    pub fn from_vec(items: Vec<Arg>) -> Self
        ensures { result ≡ items.items }
    {
        Args { items }
    }

    /// The arguments, in order.
    pub fn as_slice(&self) -> &[Arg]
        ensures { result.now ≡ self.now }
    {
        &self.items
    }
}
