//! A source over a reader and a sink over a writer, which note the error by which they failed.
ghost use Rattle.std.specs.Prelude.{◌≡◌, ◌≤◌, None, IsSome, OnOk, OnErr};
ghost use Rattle.std.specs.Io.{ReadsAtMost};
ghost use Rattle.std.specs.Io.KnownBytes.{ReadConsumes, WriteAppends};
ghost use Rattle.sn_ports.specs.Causes.{HasCause, Rose};
ghost use Rattle.sn_ports.specs.Fake.{counted};
ghost use Rattle.sn_ports.specs.Transfer.{WritesSome};

use sn_ports::{Failed, Sink, Source};
use std::io;
use std::io::{Read, Write};

/// How many calls failed, and the error of the last of them.
#[derive(Clone, Copy)]
pub struct Faults {
    count: u64,
    last: Option<io::Error>,
}

impl Faults {
    /// No call failed.
    pub fn none() -> Self
        ensures { result ≡ record { count = 0; last = None } }
    {
        Faults {
            count: 0,
            last: None,
        }
    }

    /// Notes a failure.
    pub fn note(&mut self, error: io::Error) -> Failed
        ensures later { self.old.count ≤ self.new.count }
        ensures rose { Rose self.old.count self.new.count }
        ensures once { self.new.count ≡ counted 64 self.old.count }
    {
        self.count = self.count.saturating_add(1);
        self.last = Some(error);
        Failed
    }

    /// How many calls failed.
    pub fn count(&self) -> u64
        ensures { result ≡ self.now.count }
    {
        self.count
    }

    /// The error of the last call that failed.
    pub fn last(&self) -> Option<io::Error>
        ensures { result ≡ self.now.last }
    {
        self.last
    }
}

/// A source over any reader. It answers what the reader answers, and notes its failures.
#[derive(Drop)]
pub struct NotedSource<R: Read + Drop> {
    inner: R,
    faults: Faults,
}

impl<R: Read + Drop> NotedSource<R> {
    /// A source that has not failed.
    pub fn new(inner: R) -> Self
        ensures inner { result.inner ≡ inner }
        ensures unfailed { result.faults.count ≡ 0 }
    {
        NotedSource {
            inner,
            faults: Faults::none(),
        }
    }

    /// What failed.
    pub fn faults(&self) -> Faults
        ensures { result ≡ self.now.faults }
    {
        self.faults
    }
}

impl<R: Read + Drop> Source for NotedSource<R> {
    ghost left = { λ s. R.remaining s.inner };

    ghost faults = { λ s. s.faults.count };

    fn read(&mut self, into: &mut [u8]) -> Result<usize, Failed>
        ensures bound { ReadsAtMost result into.new }
        ensures bytes { ReadConsumes (R.remaining self.old.inner) (R.remaining self.new.inner) result into.new }
        ensures cause { HasCause self.old.faults.count self.new.faults.count result }
        // Each failure is counted once, and nothing else is.
        ensures faults { OnErr result (self.new.faults.count ≡ counted 64 self.old.faults.count) }
        ensures unfailed { OnOk result (self.new.faults.count ≡ self.old.faults.count) }
    {
        match self.inner.read(into) {
            Ok(count) => Ok(count),
            Err(error) => Err(self.faults.note(error)),
        }
    }
}

/// A sink over any writer. It answers what the writer answers, and notes its failures.
///
/// A writer that takes nothing of a piece that isn't empty counts as failed.
#[derive(Drop)]
pub struct NotedSink<W: Write + Drop> {
    inner: W,
    faults: Faults,
}

impl<W: Write + Drop> NotedSink<W> {
    /// A sink that has not failed.
    pub fn new(inner: W) -> Self
        ensures inner { result.inner ≡ inner }
        ensures unfailed { result.faults.count ≡ 0 }
    {
        NotedSink {
            inner,
            faults: Faults::none(),
        }
    }

    /// What failed.
    pub fn faults(&self) -> Faults
        ensures { result ≡ self.now.faults }
    {
        self.faults
    }

    /// The writer.
    pub fn into_inner(self) -> W
        ensures { result ≡ self.inner }
    {
        self.inner
    }
}

impl<W: Write + Drop> Sink for NotedSink<W> {
    ghost taken = { λ s. W.contents s.inner };

    ghost faults = { λ s. s.faults.count };

    fn write(&mut self, piece: &[u8]) -> Result<usize, Failed>
        ensures bound { WritesSome result piece.now }
        ensures bytes { WriteAppends (W.contents self.old.inner) (W.contents self.new.inner) result piece.now }
        ensures cause { HasCause self.old.faults.count self.new.faults.count result }
        // Each failure is counted once, and nothing else is.
        ensures faults { OnErr result (self.new.faults.count ≡ counted 64 self.old.faults.count) }
        ensures unfailed { OnOk result (self.new.faults.count ≡ self.old.faults.count) }
    {
        match self.inner.write(piece) {
            Ok(0) if !piece.is_empty() => {
                Err(self.faults.note(io::Error::from(io::ErrorKind::WriteZero)))
            }
            Ok(count) => Ok(count),
            Err(error) => Err(self.faults.note(error)),
        }
    }
}
