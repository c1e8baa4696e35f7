//! A sink that drops what it takes.
ghost use Rattle.std.specs.Prelude.{None};

use sn_ports::{Failed, Sink};

/// A sink that takes every piece whole, and keeps none. It never fails.
#[derive(Debug, Drop)]
pub struct DroppingSink {}

impl Sink for DroppingSink {
    ghost taken = { λ _. None };

    ghost faults = { λ _. 0 };

    fn write(&mut self, piece: &[u8]) -> Result<usize, Failed> {
        Ok(piece.len())
    }
}
