//! The files of a stream, of which the one that was read last is kept.
ghost use Rattle.std.specs.Prelude.{◌≡◌, ◌⊎◌, ◌≤◌, None, Err, OnOk, IfSome, IfNone, IsTrue, length, option_map, option_and_then};
ghost use Rattle.sn_ports.specs.Causes.{Rose};
ghost use Rattle.sn_shelf.specs.Files.{bytes_named, within_limit};
ghost use Rattle.sn_shelf.specs.Remembering.{IsNamed, Knows, found_in};

use crate::fault::Unexpanded;
use crate::files::{PIECE, read_by, zeroed};
use crate::traits::Shelf;
use sn_ports::Text;
use std::alloc::{AllocError, Global};

/// The file that was read last.
#[derive(Drop)]
struct Last {
    name: Text,
    /// What it holds, or nothing if there is none of at most 33,554,432 bytes.
    bytes: Option<Text>,
}

/// Reads the files of a stream: each that is named several times in a row is read once, and all are read by way of one
/// piece of memory.
#[derive(Drop)]
pub(crate) struct Reader {
    pub(crate) alloc: Global,
    /// None before the first file.
    piece: Vec<u8>,
    last: Option<Last>,
}

impl Reader {
    /// A reader that has read nothing.
    pub(crate) fn new(alloc: Global) -> Self
        ensures { result.last ≡ None }
    {
        Reader {
            alloc,
            piece: Vec::new(alloc),
            last: None,
        }
    }

    /// Whether the file with this name was read last.
    fn has_read(&self, name: &Text) -> bool
        ensures { IsTrue result → IsNamed name.now.bytes self.now.last }
    {
        match &self.last {
            None => false,
            Some(last) => last.name.as_slice() == name.as_slice(),
        }
    }

    /// Makes the piece of memory, unless it is there.
    fn make_piece(&mut self) -> Result<(), AllocError>
        ensures piece { OnOk result (length self.new.piece.items ≡ 1048576) }
        ensures last { self.new.last ≡ self.old.last }
    {
        if self.piece.len() != PIECE {
            self.piece = zeroed(self.alloc, PIECE)?;
        }
        Ok(())
    }

    /// Reads the file with this name, unless it was read last.
    pub(crate) fn load<H: Shelf>(&mut self, shelf: &mut H, name: &Text) -> Result<(), Unexpanded>
        requires { Knows (H.files shelf.old) self.old.last }
        ensures knows { Knows (H.files shelf.new) self.new.last }
        ensures told { IfSome (H.files shelf.old) (λ fs. OnOk result (found_in self.new.last ≡ within_limit (bytes_named name.now.bytes fs))) }
        ensures kept { H.files shelf.new ≡ H.files shelf.old }
        ensures later { H.faults shelf.old ≤ H.faults shelf.new }
        ensures failed { result ≡ Err Unexpanded.Failed → Rose (H.faults shelf.old) (H.faults shelf.new) }
        ensures unfailed { (result ≡ Err Unexpanded.Failed) ⊎ (H.faults shelf.new ≡ H.faults shelf.old) }
    {
        if self.has_read(name) {
            return Ok(());
        }
        self.last = None;
        self.make_piece()?;
        let bytes = read_by(self.alloc, shelf, &mut self.piece, name)?;
        let name = Text::from_slice(self.alloc, name.as_slice())?;
        self.last = Some(Last { name, bytes });
        Ok(())
    }

    /// What the file holds that was read last, if there is one.
    pub(crate) fn found(&self) -> Option<&[u8]>
        ensures { option_map (λ b. b.now) result ≡ found_in self.now.last }
    {
        match &self.last {
            Some(
                Last {
                    bytes: Some(bytes),
                    ..
                },
            ) => Some(bytes.as_slice()),
            _ => None,
        }
    }
}
