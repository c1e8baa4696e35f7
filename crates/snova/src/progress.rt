//! How far a rendering is, as a line on a terminal.
ghost use Rattle.std.specs.Prelude.{◌≡◌, OnOk};
ghost use Rattle.std.specs.Io.KnownBytes.{WriteAppends};
ghost use Rattle.sn_ports.specs.Causes.{HasCause};
ghost use Rattle.sn_ports.specs.Transfer.{WritesSome};

use sn_ports::{Failed, Sink};
use std::fmt;
use std::io::Eprint;
use std::time::Clock;

/// The least time between two lines, in milliseconds.
const PAUSE: u128 = 100;

/// A quotient, with one digit after the point.
#[derive(Clone, Copy)]
pub(crate) struct Tenths {
    pub(crate) of: u128,
    pub(crate) by: u128,
}

impl fmt::Display for Tenths {
    fn fmt<W: fmt::Write>(&self, f: &mut fmt::Formatter<W>) -> fmt::Result {
        let tenths = self.of.saturating_mul(10).checked_div(self.by).unwrap_or(0);
        let (whole, tenth) = (tenths / 10, tenths % 10);
        write!(f, "{whole}.{tenth}")
    }
}

/// The number of 32 bits that stands at a place of a WAV header.
fn number_at(header: &[u8], place: usize) -> Option<u128> {
    match header.get(place..)? {
        [a, b, c, d, ..] => Some(u128::from(u32::from_le_bytes([*a, *b, *c, *d]))),
        _ => None,
    }
}

/// How long a sound is, by its WAV header.
#[derive(Clone, Copy)]
struct Length {
    /// The bytes of the samples.
    bytes: u128,
    /// The bytes of the samples of a second.
    second: u128,
}

impl Length {
    /// What the header says with which these bytes begin.
    fn of_header(bytes: &[u8]) -> Option<Self> {
        Some(Length {
            bytes: number_at(bytes, 40)?,
            second: number_at(bytes, 28)?,
        })
    }
}

/// A sink for a WAV file that tells on the standard error how much of the sound was written.
///
/// It takes what the sink below it takes, and tells at most ten times a second.
#[derive(Drop)]
pub(crate) struct Progress<O: Sink + Drop, C: Clock + Eprint + Drop> {
    inner: O,
    clock: C,
    /// Unknown before the header came, and if nobody watches.
    length: Option<Length>,
    /// Whether the next piece begins with the header.
    at_header: bool,
    /// How many bytes were written, those of the header too.
    written: u128,
    /// When the rendering began, and when a line was told last, in milliseconds of the clock.
    begun: u128,
    told: u128,
}

/// Milliseconds of the clock, or 0 if it can't be read.
pub(crate) fn millis<C: Clock>(clock: &C) -> u128 {
    match clock.monotonic() {
        Ok(time) => time.as_millis(),
        Err(_) => 0,
    }
}

impl<O: Sink + Drop, C: Clock + Eprint + Drop> Progress<O, C> {
    /// A sink over this one that took nothing yet. It tells nothing if nobody watches.
    pub(crate) fn new(inner: O, clock: C, is_watched: bool) -> Self {
        let begun = millis(&clock);
        Progress {
            inner,
            clock,
            length: None,
            at_header: is_watched,
            written: 0,
            begun,
            told: begun,
        }
    }

    /// Counts the bytes of a piece that were written.
    fn count(&mut self, piece: &[u8], taken: usize)
        ensures { self.new.inner ≡ self.old.inner }
    {
        if self.at_header {
            self.length = Length::of_header(piece);
            self.at_header = false;
        }
        self.written = self.written.saturating_add(taken as u128);
    }

    /// Tells how far the rendering is, if a line is due.
    fn tell(&mut self)
        ensures { self.new.inner ≡ self.old.inner }
    {
        let Some(length) = self.length else {
            return;
        };
        let now = millis(&self.clock);
        if now < self.told.saturating_add(PAUSE) {
            return;
        }
        self.told = now;
        let done = Tenths {
            of: self.written,
            by: length.second,
        };
        let all = Tenths {
            of: length.bytes,
            by: length.second,
        };
        let pace = Tenths {
            of: self.written.saturating_mul(1000),
            by: length.second.saturating_mul(now.saturating_sub(self.begun)),
        };
        // A terminal that takes nothing is no reason to stop.
        let _ = eprint!(self.clock; "\r{done} of {all} seconds, {pace} times real time   ");
    }

    /// Ends the line, if there is one, and returns the sink below.
    pub(crate) fn end(self) -> O
        ensures { result ≡ self.inner }
    {
        if self.told != self.begun {
            let _ = eprintln!(self.clock);
        }
        self.inner
    }
}

impl<O: Sink + Drop, C: Clock + Eprint + Drop> Sink for Progress<O, C> {
    ghost taken = { λ s. O.taken s.inner };

    ghost faults = { λ s. O.faults s.inner };

    fn write(&mut self, piece: &[u8]) -> Result<usize, Failed>
        ensures bound { WritesSome result piece.now }
        ensures bytes { WriteAppends (O.taken self.old.inner) (O.taken self.new.inner) result piece.now }
        ensures cause { HasCause (O.faults self.old.inner) (O.faults self.new.inner) result }
        ensures unfailed { OnOk result (O.faults self.new.inner ≡ O.faults self.old.inner) }
    {
        let answer = self.inner.write(piece);
        if let Ok(taken) = answer {
            self.count(piece, taken);
            self.tell();
        }
        answer
    }
}
