//! A sink into memory without an end.
ghost use Rattle.std.specs.Prelude.{◌≡◌, [], Some};

use sn_ports::{Failed, Sink, Text};
use std::alloc::Global;

/// A sink into memory, which takes whole pieces. It fails only if memory runs out, and then took nothing of the piece.
#[derive(Debug, Drop)]
pub struct GrownSink {
    bytes: Text,
    faults: u64,
}

impl GrownSink {
    /// An empty sink that has not failed.
    pub fn new(alloc: Global) -> Self
        ensures bytes { result.bytes.bytes ≡ [] }
        ensures faults { result.faults ≡ 0 }
    {
        GrownSink {
            bytes: Text::new(alloc),
            faults: 0,
        }
    }

    /// The bytes that it took.
    pub fn taken(&self) -> &[u8]
        ensures { result.now ≡ self.now.bytes.bytes }
    {
        self.bytes.as_slice()
    }
}

impl Sink for GrownSink {
    ghost taken = { λ s. Some s.bytes.bytes };

    ghost faults = { λ s. s.faults };

    fn write(&mut self, piece: &[u8]) -> Result<usize, Failed> {
        match self.bytes.append(piece) {
            Ok(()) => Ok(piece.len()),
            Err(_) => {
                self.faults = self.faults.saturating_add(1);
                Err(Failed)
            }
        }
    }
}
