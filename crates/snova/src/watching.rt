//! What a long run is at, as a line on a terminal.
ghost use Rattle.std.specs.Prelude.{◌≡◌, OnOk};
ghost use Rattle.std.specs.Io.{ReadsAtMost};
ghost use Rattle.std.specs.Io.KnownBytes.{ReadConsumes, WriteAppends};
ghost use Rattle.sn_ports.specs.Causes.{HasCause};
ghost use Rattle.sn_ports.specs.Transfer.{WritesSome};

use crate::progress::{Tenths, millis};
use sn_ports::{Failed, Gate, Sink, Source};
use std::io::Eprint;
use std::sync::atomic::{AtomicU64, Ordering};
use std::time::Clock;

/// How long a run takes before its first line, and the least time between two lines, in milliseconds.
const QUIET: u64 = 1000;

const PAUSE: u64 = 100;

/// The bytes of a megabyte.
const MEGABYTE: u128 = 1_000_000;

/// What a run has done.
#[derive(Clone, Copy)]
enum Deed {
    Read(u64),
    Written(u64),
    Played,
}

/// Milliseconds of the clock.
fn now<C: Clock>(clock: &C) -> u64 {
    u64::try_from(millis(clock)).unwrap_or(u64::MAX)
}

/// Says on the standard error what a run is at, if somebody watches and it takes longer than a second.
#[derive(Drop)]
pub(crate) struct Watch<C: Clock + Eprint + Drop> {
    clock: C,
    is_watched: bool,
    /// When the run started, in milliseconds of the clock.
    start: u64,
    /// How many milliseconds later the last line came, or 0 if none came.
    last: AtomicU64,
}

impl<C: Clock + Eprint + Drop> Watch<C> {
    /// Watches a run that starts now. It says nothing if nobody watches.
    pub(crate) fn new(clock: C, is_watched: bool) -> Self {
        let start = now(&clock);
        Watch {
            clock,
            is_watched,
            start,
            last: AtomicU64::new(0),
        }
    }

    /// The milliseconds since the start, if a line is due, of which the next one is reckoned from now on.
    fn take_due(&self) -> Option<u64> {
        let past = now(&self.clock).saturating_sub(self.start);
        let last = self.last.load(Ordering::SeqCst);
        if past < QUIET || past < last.saturating_add(PAUSE) {
            return None;
        }
        self.last.store(past, Ordering::SeqCst);
        Some(past)
    }

    /// Says what was done, if a line is due.
    fn tell(&self, deed: Deed) {
        if !self.is_watched {
            return;
        }
        let Some(past) = self.take_due() else {
            return;
        };
        // A terminal that takes nothing is no reason to stop.
        let _ = match deed {
            Deed::Read(bytes) => eprint!(self.clock; "\r{} MB read   ", megabytes(bytes)),
            Deed::Written(bytes) => eprint!(self.clock; "\r{} MB written   ", megabytes(bytes)),
            Deed::Played => eprint!(self.clock; "\rplaying for {} seconds   ", past / 1000),
        };
    }

    /// Ends the line, if there is one.
    pub(crate) fn end(&self) {
        if self.last.load(Ordering::SeqCst) != 0 {
            let _ = eprintln!(self.clock);
        }
    }
}

fn megabytes(bytes: u64) -> Tenths {
    Tenths {
        of: u128::from(bytes),
        by: MEGABYTE,
    }
}

impl<C: Clock + Eprint + Drop + Sync> Gate for Watch<C> {
    fn pass(&self, _job: u32) {
        self.tell(Deed::Played);
    }
}

/// A source of which a watch says how much was read. It answers what the source below it answers.
#[derive(Drop)]
pub(crate) struct WatchedSource<'a, S: Source + Drop, C: Clock + Eprint + Drop> {
    inner: S,
    watch: &'a Watch<C>,
    read: u64,
}

impl<'a, S: Source + Drop, C: Clock + Eprint + Drop> WatchedSource<'a, S, C> {
    /// A source over this one, of which nothing was read yet.
    pub(crate) fn new(inner: S, watch: &'a Watch<C>) -> Self
        ensures { result.inner ≡ inner }
    {
        WatchedSource {
            inner,
            watch,
            read: 0,
        }
    }

    /// The source below.
    pub(crate) fn into_inner(self) -> S
        ensures { result ≡ self.entry.inner }
    {
        self.inner
    }
}

impl<S: Source + Drop, C: Clock + Eprint + Drop> Source for WatchedSource<'_, S, C> {
    ghost left = { λ s. S.left s.inner };

    ghost faults = { λ s. S.faults s.inner };

    fn read(&mut self, into: &mut [u8]) -> Result<usize, Failed>
        ensures bound { ReadsAtMost result into.new }
        ensures bytes { ReadConsumes (S.left self.old.inner) (S.left self.new.inner) result into.new }
        ensures cause { HasCause (S.faults self.old.inner) (S.faults self.new.inner) result }
        ensures unfailed { OnOk result (S.faults self.new.inner ≡ S.faults self.old.inner) }
    {
        let answer = self.inner.read(into);
        if let Ok(count) = answer {
            self.read = self.read.saturating_add(count as u64);
            self.watch.tell(Deed::Read(self.read));
        }
        answer
    }
}

/// A sink of which a watch says how much was written. It answers what the sink below it answers.
#[derive(Drop)]
pub(crate) struct WatchedSink<'a, O: Sink + Drop, C: Clock + Eprint + Drop> {
    inner: O,
    watch: &'a Watch<C>,
    written: u64,
}

impl<'a, O: Sink + Drop, C: Clock + Eprint + Drop> WatchedSink<'a, O, C> {
    /// A sink over this one that took nothing yet.
    pub(crate) fn new(inner: O, watch: &'a Watch<C>) -> Self
        ensures { result.inner ≡ inner }
    {
        WatchedSink {
            inner,
            watch,
            written: 0,
        }
    }

    /// The sink below.
    pub(crate) fn into_inner(self) -> O
        ensures { result ≡ self.entry.inner }
    {
        self.inner
    }
}

impl<O: Sink + Drop, C: Clock + Eprint + Drop> Sink for WatchedSink<'_, O, C> {
    ghost taken = { λ s. O.taken s.inner };

    ghost faults = { λ s. O.faults s.inner };

    fn write(&mut self, piece: &[u8]) -> Result<usize, Failed>
        ensures bound { WritesSome result piece.now }
        ensures bytes { WriteAppends (O.taken self.old.inner) (O.taken self.new.inner) result piece.now }
        ensures cause { HasCause (O.faults self.old.inner) (O.faults self.new.inner) result }
        ensures unfailed { OnOk result (O.faults self.new.inner ≡ O.faults self.old.inner) }
    {
        let answer = self.inner.write(piece);
        if let Ok(taken) = answer {
            self.written = self.written.saturating_add(taken as u64);
            self.watch.tell(Deed::Written(self.written));
        }
        answer
    }
}
