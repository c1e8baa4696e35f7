//! A socket and a clock.
ghost use Rattle.std.specs.Prelude.{◌≡◌, ◌<◌, ◌^◌, IfOk, IfSome, is_some, length, not, pos};
ghost use Rattle.std.specs.Ordering.{int_eq};
ghost use Rattle.std.specs.Io.{WritesAtMost};
ghost use Rattle.std.specs.Io.KnownBytes.{WriteAppends};
ghost use Rattle.sn_ports.specs.Links.{FeedsWithin, IsFed};
ghost use Rattle.sn_tcp.specs.Hearing.{MayHear, NextHears};
ghost use Rattle.sn_tcp.specs.Pace.{MayGive, NextGives};

use crate::pace::{Pace, whole_millis};
use crate::steady::write_again;
use libc::net::{POLLIN, poll};
use libc::types::pollfd;
use sn_ports::Fed;
use std::io;
use std::io::{Read, Write};
use std::net::OpenStream;
use std::os::fd::AsRawFd;
use std::time::{Clock, Duration};

/// A peer that takes nothing for this many seconds is a failure.
pub const PATIENCE: u64 = 10;

/// A socket, and a clock by whose time its blocks are due.
#[derive(Drop)]
pub(crate) struct Line<S, C> {
    socket: S,
    clock: C,
    start: Duration,
    pace: Pace,
    /// Blocks were given last, so it is the socket's turn.
    listens: bool,
}

/// Whether the system reports something: bytes, the end of the connection, or that it was reset.
fn is_ready(told: i16) -> bool
    ensures { result ≡ not (int_eq told (pos 0)) }
{
    told != 0
}

impl<S: Read + Write + OpenStream + AsRawFd + Drop, C: Clock + Drop> Line<S, C> {
    /// A line over this socket, whose blocks come at this pace.
    pub(crate) fn new(socket: S, clock: C, pace: Pace) -> io::Result<Self>
        ensures socket { IfOk result (λ line. line.socket ≡ socket) }
        ensures pace { IfOk result (λ line. line.pace ≡ pace) }
    {
        // What is sent is not held back.
        socket.set_nodelay(true)?;
        socket.set_write_timeout(Some(Duration::from_secs(PATIENCE)))?;
        // Block 0 is due now.
        let start = clock.monotonic()?;
        Ok(Line {
            socket,
            clock,
            start,
            pace,
            listens: false,
        })
    }

    /// Nanoseconds since the start, by the clock.
    fn nanos(&self) -> io::Result<u128>
        ensures { IfOk result (λ nanos. nanos < 2 ^ 94) }
    {
        let now = self.clock.monotonic()?;
        Ok(now.saturating_sub(self.start).as_nanos())
    }

    /// Asks the system what comes within `nanos` nanoseconds.
    fn polled(&self, nanos: u64) -> io::Result<i16> {
        let mut asked = [pollfd {
            fd: self.socket.as_raw_fd(),
            events: POLLIN,
            revents: 0,
        }];
        let millis = i32::try_from(whole_millis(nanos)).unwrap_or(i32::MAX);
        if poll(&mut asked, millis) >= 0 {
            return Ok(asked[0].revents);
        }
        match io::Error::from_raw_os_error(os::errno()) {
            error if error.kind() == io::ErrorKind::Interrupted => Ok(0),
            error => Err(error),
        }
    }

    /// Reads the socket if the system reports something: bytes, the end, or else nothing.
    fn hear(&mut self, told: i16, into: &mut [u8]) -> io::Result<Option<Fed>>
        requires room { 0 < length into.old }
        ensures reads { IfOk result (λ fed. is_some fed ≡ not (int_eq told (pos 0))) }
        ensures bound { IfOk result (λ fed. IfSome fed (IsFed into.new)) }
        ensures heard { MayHear (S.remaining self.old.socket) (S.remaining self.new.socket) result into.new }
        ensures rate { self.new.pace.rate ≡ self.old.pace.rate }
        ensures given { MayGive self.old.pace.given self.new.pace.given result }
    {
        if !is_ready(told) {
            return Ok(None);
        }
        self.listens = false;
        match self.socket.read(into)? {
            0 => Ok(Some(Fed::End)),
            count => Ok(Some(Fed::Bytes(count))),
        }
    }

    /// Listens for `nanos` nanoseconds: bytes, the end, or nothing.
    fn listen(&mut self, nanos: u64, into: &mut [u8]) -> io::Result<Option<Fed>>
        requires room { 0 < length into.old }
        ensures bound { IfOk result (λ fed. IfSome fed (IsFed into.new)) }
        ensures heard { MayHear (S.remaining self.old.socket) (S.remaining self.new.socket) result into.new }
        ensures rate { self.new.pace.rate ≡ self.old.pace.rate }
        ensures given { MayGive self.old.pace.given self.new.pace.given result }
    {
        let told = self.polled(nanos)?;
        self.hear(told, into)
    }

    /// Listens without a wait, if it is the socket's turn.
    fn listen_in_turn(&mut self, into: &mut [u8]) -> io::Result<Option<Fed>>
        requires room { 0 < length into.old }
        ensures bound { IfOk result (λ fed. IfSome fed (IsFed into.new)) }
        ensures heard { MayHear (S.remaining self.old.socket) (S.remaining self.new.socket) result into.new }
        ensures rate { self.new.pace.rate ≡ self.old.pace.rate }
        ensures given { MayGive self.old.pace.given self.new.pace.given result }
    {
        if self.listens {
            self.listen(0, into)
        } else {
            Ok(None)
        }
    }

    /// Takes the blocks that are due and were not given, or else listens until one is.
    fn tick_or_listen(&mut self, into: &mut [u8]) -> io::Result<Option<Fed>>
        requires room { 0 < length into.old }
        ensures bound { IfOk result (λ fed. IfSome fed (IsFed into.new)) }
        ensures heard { MayHear (S.remaining self.old.socket) (S.remaining self.new.socket) result into.new }
        ensures rate { self.new.pace.rate ≡ self.old.pace.rate }
        ensures given { MayGive self.old.pace.given self.new.pace.given result }
    {
        let nanos = self.nanos()?;
        let count = self.pace.take_due(nanos);
        if count == 0 {
            let wait = self.pace.until_next(nanos);
            return self.listen(wait, into);
        }
        self.listens = true;
        Ok(Some(Fed::Ticks(count)))
    }

    /// Waits for the next event.
    pub(crate) fn next(&mut self, into: &mut [u8]) -> io::Result<Fed>
        requires room { 0 < length into.old }
        ensures bound { FeedsWithin result into.new }
        ensures heard { NextHears (S.remaining self.old.socket) (S.remaining self.new.socket) result into.new }
        ensures rate { self.new.pace.rate ≡ self.old.pace.rate }
        ensures given { NextGives self.old.pace.given self.new.pace.given result }
    {
        for _ in 0..u64::MAX {
            if let Some(fed) = self.listen_in_turn(into)? {
                return Ok(fed);
            }
            if let Some(fed) = self.tick_or_listen(into)? {
                return Ok(fed);
            }
        }
        Err(io::Error::other("waited too often"))
    }

    /// Sends a prefix of the piece. A write that was interrupted is tried again.
    pub(crate) fn send(&mut self, piece: &[u8]) -> io::Result<usize>
        ensures bound { WritesAtMost result piece.now }
        ensures bytes { WriteAppends (S.contents self.old.socket) (S.contents self.new.socket) result piece.now }
        ensures rate { self.new.pace.rate ≡ self.old.pace.rate }
        ensures given { self.new.pace.given ≡ self.old.pace.given }
    {
        write_again(&mut self.socket, piece)
    }
}
