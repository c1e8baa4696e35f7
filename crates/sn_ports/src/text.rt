ghost use Rattle.std.specs.Prelude.{◌≡◌, ◌≤◌, ◌+◌, ◌-◌, [], ◌++◌, length, OnOk, OnErr, IfOk, vec_len, vec_capacity};
ghost use Rattle.sn_ports.specs.Octets.{Octets};

use crate::failed::NoMemory;
use std::alloc::Global;
use std::marker::Model;

/// A list of bytes.
#[derive(Debug, Drop)]
pub struct Text {
    items: Vec<u8>,
}

/// A word of a command line.
pub type Word = Text;

impl Model for Text {
    ghost Value = { Octets };

    ghost view = { λ t. record { bytes = t.items.items; spare = vec_capacity t.items - vec_len t.items } };
}

impl Text {
    /// No bytes.
    pub fn new(alloc: Global) -> Self
        ensures { result.bytes ≡ [] }
    {
        Text {
            items: Vec::new(alloc),
        }
    }

    /// The bytes of a vector.
    pub fn from_vec(items: Vec<u8>) -> Self
        ensures { result.bytes ≡ items.items }
    {
        Text { items }
    }

    /// A copy of the bytes.
    pub fn from_slice(alloc: Global, bytes: &[u8]) -> Result<Self, NoMemory>
        ensures { IfOk result (λ t. t.bytes ≡ bytes.now) }
    {
        Ok(Text {
            items: Vec::from_slice(alloc, bytes)?,
        })
    }

    /// The bytes, as a vector.
    pub fn into_vec(self) -> Vec<u8>
        ensures { result.items ≡ self.bytes }
    {
        self.items
    }

    /// The bytes.
    pub fn as_slice(&self) -> &[u8]
        ensures { result.now ≡ self.now.bytes }
    {
        &self.items
    }

    /// How many bytes there are.
    pub fn len(&self) -> usize
        ensures { result ≡ length self.now.bytes }
    {
        self.items.len()
    }

    /// Appends the piece. After `NoMemory` the bytes are as before, and there is as much room.
    pub fn append(&mut self, piece: &[u8]) -> Result<(), NoMemory>
        ensures ok { OnOk result (self.new.bytes ≡ self.old.bytes ++ piece.now) }
        ensures err { OnErr result (self.new.bytes ≡ self.old.bytes) }
        ensures room { self.old.spare ≤ self.new.spare + length piece.now }
        ensures kept { OnErr result (self.old.spare ≤ self.new.spare) }
    {
        self.items.extend_from_slice(piece)?;
        Ok(())
    }

    /// Makes room for `more` bytes past the length.
    pub fn reserve(&mut self, more: u32) -> Result<(), NoMemory>
        ensures bytes { self.new.bytes ≡ self.old.bytes }
        ensures room { OnOk result (more ≤ self.new.spare) }
        ensures kept { self.old.spare ≤ self.new.spare }
    {
        self.items.reserve(more as usize)?;
        Ok(())
    }

    /// Appends the piece. There must be room for it.
    pub fn append_within(&mut self, piece: &[u8])
        requires { length piece.now ≤ self.old.spare }
        ensures bytes { self.new.bytes ≡ self.old.bytes ++ piece.now }
        ensures room { self.old.spare ≤ self.new.spare + length piece.now }
    {
        match self.items.extend_from_slice(piece) {
            Ok(()) => {}
            Err(_) => unreachable!(),
        }
    }

    /// Drops all bytes, and keeps their room.
    pub fn clear(&mut self)
        ensures bytes { self.new.bytes ≡ [] }
        ensures room { length self.old.bytes + self.old.spare ≤ self.new.spare }
    {
        self.items.clear();
    }
}
