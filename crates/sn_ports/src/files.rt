ghost use Rattle.std.specs.Prelude.{◌≡◌, OnOk, OnErr};
ghost use Rattle.std.specs.Io.{ReadsAtMost};
ghost use Rattle.std.specs.Io.KnownBytes.{ReadConsumes, WriteAppends};
ghost use Rattle.sn_ports.specs.Causes.{HasCause};
ghost use Rattle.sn_ports.specs.Fake.{counted};
ghost use Rattle.sn_ports.specs.Transfer.{WritesSome};

use crate::failed::Failed;
use crate::failing::told;
use crate::traits::{Sink, Source};
use std::io::{Read, Write};

/// A source over any reader, as a file. It answers what the reader answers, and counts its own failures.
#[derive(Debug, Drop)]
pub struct FileSource<R: Read> {
    inner: R,
    faults: u64,
}

impl<R: Read> FileSource<R> {
    /// A source that has not failed.
    pub fn new(inner: R) -> Self
        ensures { result ≡ record { inner = inner; faults = 0 } }
    {
        FileSource { inner, faults: 0 }
    }
}

impl<R: Read> Source for FileSource<R> {
    ghost left = { λ s. R.remaining s.inner };

    ghost faults = { λ s. s.faults };

    fn read(&mut self, into: &mut [u8]) -> Result<usize, Failed>
        ensures bound { ReadsAtMost result into.new }
        ensures bytes { ReadConsumes (R.remaining self.old.inner) (R.remaining self.new.inner) result into.new }
        ensures cause { HasCause self.old.faults self.new.faults result }
        // Each failure is counted once, and nothing else is.
        ensures faults { OnErr result (self.new.faults ≡ counted 64 self.old.faults) }
        ensures unfailed { OnOk result (self.new.faults ≡ self.old.faults) }
    {
        told(self.inner.read(into), &mut self.faults)
    }
}

/// A sink over any writer, as a file. It answers what the writer answers, and counts its own failures.
///
/// A writer that takes nothing of a piece that isn't empty counts as failed.
#[derive(Debug, Drop)]
pub struct FileSink<W: Write> {
    inner: W,
    faults: u64,
}

impl<W: Write> FileSink<W> {
    /// A sink that has not failed.
    pub fn new(inner: W) -> Self
        ensures { result ≡ record { inner = inner; faults = 0 } }
    {
        FileSink { inner, faults: 0 }
    }

    /// The writer.
    pub fn into_inner(self) -> W
        ensures { result ≡ self.inner }
    {
        self.inner
    }
}

impl<W: Write> Sink for FileSink<W> {
    ghost taken = { λ s. W.contents s.inner };

    ghost faults = { λ s. s.faults };

    fn write(&mut self, piece: &[u8]) -> Result<usize, Failed>
        ensures bound { WritesSome result piece.now }
        ensures bytes { WriteAppends (W.contents self.old.inner) (W.contents self.new.inner) result piece.now }
        ensures cause { HasCause self.old.faults self.new.faults result }
        // Each failure is counted once, and nothing else is.
        ensures faults { OnErr result (self.new.faults ≡ counted 64 self.old.faults) }
        ensures unfailed { OnOk result (self.new.faults ≡ self.old.faults) }
    {
        match self.inner.write(piece) {
            Ok(0) if !piece.is_empty() => {
                self.faults = self.faults.saturating_add(1);
                Err(Failed)
            }
            answer => told(answer, &mut self.faults),
        }
    }
}
