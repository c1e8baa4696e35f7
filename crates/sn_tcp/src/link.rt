ghost use Rattle.std.specs.Prelude.{◌≡◌, ◌<◌, None, IfOk, OnOk, OnErr, length};
ghost use Rattle.std.specs.Io.KnownBytes.{WriteAppends};
ghost use Rattle.sn_ports.specs.Causes.{HasCause};
ghost use Rattle.sn_ports.specs.Fake.{counted};
ghost use Rattle.sn_ports.specs.Links.{FeedsWithin};
ghost use Rattle.sn_ports.specs.Transfer.{WritesSome};
ghost use Rattle.sn_tcp.specs.Hearing.{NextHears};
ghost use Rattle.sn_tcp.specs.Pace.{NextGives};

use crate::line::Line;
use crate::pace::Pace;
use sn_files::Faults;
use sn_ports::{Failed, Fed, Link};
use std::io;
use std::io::{Read, Write};
use std::net::OpenStream;
use std::os::fd::AsRawFd;
use std::time::Clock;

/// A link over a TCP connection. As a link its content is not known to contracts. If the socket's bytes are known,
/// those that `next` gives are a prefix of what the socket had left, and those that `send` counts are what the socket
/// took. Each call that fails is counted.
///
/// How it works, which the contracts of its `Pace` carry in part: blocks come when the clock says that they are due,
/// block k after k * 64 / rate seconds. Until the next one is due, it waits for bytes, in whole milliseconds, and gives
/// those that the socket has. After a pause the blocks that are due come 1,024 at a time, and bytes take turns with
/// them. At the pace of the sound one block comes whenever the next event is asked for, and bytes that the socket has
/// take turns with them, without a wait: so what takes the sound makes the link wait. If the peer takes nothing of a piece for ten seconds, sending it fails.
#[derive(Drop)]
pub struct TcpLink<S, C> {
    line: Line<S, C>,
    faults: Faults,
    /// Whether a byte came.
    has_heard: bool,
}

impl<S: Read + Write + OpenStream + AsRawFd + Drop, C: Clock + Drop> TcpLink<S, C> {
    /// A link over this socket that has not failed, whose blocks come at this pace.
    pub fn new(socket: S, clock: C, pace: Pace) -> io::Result<Self>
        ensures socket { IfOk result (λ link. link.line.socket ≡ socket) }
        ensures pace { IfOk result (λ link. link.line.pace ≡ pace) }
        ensures unfailed { IfOk result (λ link. link.faults.count ≡ 0) }
    {
        Ok(TcpLink {
            line: Line::new(socket, clock, pace)?,
            faults: Faults::none(),
            has_heard: false,
        })
    }

    /// Whether a byte came.
    pub fn has_heard(&self) -> bool
        ensures { result ≡ self.now.has_heard }
    {
        self.has_heard
    }

    /// What failed.
    pub fn faults(&self) -> Faults
        ensures { result ≡ self.now.faults }
    {
        self.faults
    }
}

impl<S: Read + Write + OpenStream + AsRawFd + Drop, C: Clock + Drop> Link for TcpLink<S, C> {
    ghost left = { λ _. None };

    ghost sent = { λ _. None };

    ghost faults = { λ link. link.faults.count };

    fn next(&mut self, into: &mut [u8]) -> Result<Fed, Failed>
        requires room { 0 < length into.old }
        ensures bound { FeedsWithin result into.new }
        ensures heard { NextHears (S.remaining self.old.line.socket) (S.remaining self.new.line.socket) result into.new }
        ensures rate { self.new.line.pace.rate ≡ self.old.line.pace.rate }
        ensures given { NextGives self.old.line.pace.given self.new.line.pace.given result }
        ensures cause { HasCause self.old.faults.count self.new.faults.count result }
        // Each failure is counted once, and nothing else is.
        ensures faults { OnErr result (self.new.faults.count ≡ counted 64 self.old.faults.count) }
        ensures unfailed { OnOk result (self.new.faults.count ≡ self.old.faults.count) }
    {
        match self.line.next(into) {
            Ok(fed) => {
                self.has_heard = self.has_heard || matches!(fed, Fed::Bytes(_));
                Ok(fed)
            }
            Err(error) => Err(self.faults.note(error)),
        }
    }

    fn send(&mut self, piece: &[u8]) -> Result<usize, Failed>
        ensures bound { WritesSome result piece.now }
        ensures bytes { WriteAppends (S.contents self.old.line.socket) (S.contents self.new.line.socket) result piece.now }
        ensures rate { self.new.line.pace.rate ≡ self.old.line.pace.rate }
        ensures given { self.new.line.pace.given ≡ self.old.line.pace.given }
        ensures cause { HasCause self.old.faults.count self.new.faults.count result }
        // Each failure is counted once, and nothing else is.
        ensures faults { OnErr result (self.new.faults.count ≡ counted 64 self.old.faults.count) }
        ensures unfailed { OnOk result (self.new.faults.count ≡ self.old.faults.count) }
    {
        match self.line.send(piece) {
            Ok(0) if !piece.is_empty() => {
                Err(self.faults.note(io::Error::from(io::ErrorKind::WriteZero)))
            }
            Ok(count) => Ok(count),
            Err(error) => Err(self.faults.note(error)),
        }
    }
}
