//! Several connections at a port are served at once.
ghost use Rattle.std.specs.Prelude.{◌≡◌, ◌≤◌, ◌<◌, ◌^◌, IfOk, length};
ghost use Rattle.sn_ports.specs.Limits.{most_ticks};
ghost use Rattle.snova.specs.Pacing.{by_sound};

use crate::clock::now;
use crate::pacing::{open_sound, pace_of};
use crate::reasons::{tell_last, told};
use sn_clients::{Client, Clients, How, Pulse, Sinks, Watcher, serve_many};
use sn_files::{NotedSink, NotedSource};
use sn_ports::Open;
use sn_tcp::{PATIENCE, Pace, Steady};
use sn_words::ServeWords;
use std::alloc::Global;
use std::io::Eprint;
use std::net::{Ipv4Addr, Net, Shutdown, TcpListener, TcpStream};
use std::rt::{Clock, Files};
use std::sync::Wait;
use std::sync::atomic::{AtomicU64, Ordering};
use std::thread::Threads;
use std::time::Duration;
use std::{io, thread};

/// The most turns of a session: 512 MiB of them, and about a day of turns of one block.
const MOST_TURNS: u32 = 67_108_864;

/// The connections of a session, as its readers and its pulse share them. It says on the standard error that one ended.
#[derive(Drop)]
pub(crate) struct Connections<E: Eprint + Drop> {
    errors: E,
    streams: Vec<TcpStream>,
    /// How many are read.
    open: AtomicU64,
}

impl<E: Eprint + Drop> Connections<E> {
    /// `count` connections, each of which is read.
    pub(crate) fn new(errors: E, streams: Vec<TcpStream>, count: u32) -> Self {
        Connections {
            errors,
            streams,
            open: AtomicU64::new(u64::from(count)),
        }
    }

    /// Whether one is still read.
    fn are_read(&self) -> bool {
        self.open.load(Ordering::SeqCst) > 0
    }
}

impl<E: Eprint + Drop + Sync> Watcher for Connections<E> {
    fn client_ended(&self) {
        let open = self.open.fetch_sub(1, Ordering::SeqCst);
        let left = open.saturating_sub(1);
        // If nothing can be said, the session goes on.
        let _ = eprintln!(self.errors; "snova: a connection ended, {left} left");
    }

    /// Nothing more is read of any connection, so that none is waited for.
    fn session_ended(&self) {
        for stream in &self.streams {
            let _closed = stream.shutdown(Shutdown::Read);
        }
    }
}

/// Blocks as a clock says that they are due, while a connection is read.
#[derive(Drop)]
pub(crate) struct ClockPulse<'a, C: Clock, E: Eprint + Drop> {
    clock: &'a C,
    start: Duration,
    pace: Pace,
    connections: &'a Connections<E>,
    zeros: u64,
}

impl<'a, C: Clock, E: Eprint + Drop> ClockPulse<'a, C, E> {
    /// Block 0 is due now, and the others at this pace.
    pub(crate) fn new(clock: &'a C, pace: Pace, connections: &'a Connections<E>) -> io::Result<Self>
        ensures pace { IfOk result (λ pulse. pulse.pace ≡ pace) }
    {
        Ok(ClockPulse {
            clock,
            start: clock.monotonic()?,
            pace,
            connections,
            zeros: 0,
        })
    }

    /// Nanoseconds since the start, as the clock tells them.
    fn nanos(&self) -> io::Result<u128>
        ensures { IfOk result (λ nanos. nanos < 2 ^ 94) }
    {
        let now = self.clock.monotonic()?;
        Ok(now.saturating_sub(self.start).as_nanos())
    }

    /// Waits until blocks are due, and takes them. Returns 0 if no connection is read any more, or if the clock can't
    /// be read.
    fn wait_due(&mut self) -> u32
        ensures bound { result ≤ most_ticks }
        ensures zeros { self.new.zeros ≡ self.old.zeros }
    {
        for _ in 0..u64::MAX {
            if !self.connections.are_read() {
                return 0;
            }
            let Ok(nanos) = self.nanos() else {
                return 0;
            };
            let count = self.pace.take_due(nanos);
            if count > 0 {
                return count;
            }
            thread::sleep(
                self.clock,
                Duration::from_nanos(self.pace.until_next(nanos)),
            );
        }
        0
    }
}

impl<C: Clock, E: Eprint + Drop> Pulse for ClockPulse<'_, C, E> {
    ghost use Rattle.std.specs.Prelude.{None};

    ghost left = { λ _. None };

    ghost zeros = { λ p. p.zeros };

    fn next(&mut self) -> u32 {
        let count = self.wait_due();
        if count == 0 {
            self.zeros = self.zeros.saturating_add(1);
        }
        count
    }
}

/// A pulse at the pace that the words choose.
fn pulse_of<'a, C: Clock, E: Eprint + Drop>(
    clock: &'a C,
    chosen: &ServeWords,
    connections: &'a Connections<E>,
) -> io::Result<ClockPulse<'a, C, E>>
    ensures { IfOk result (λ pulse. (pulse.pace.rate ≡ chosen.now.settings.rate) × (pulse.pace.by_sound ≡ by_sound chosen.now.pacing)) }
{
    ClockPulse::new(clock, pace_of(chosen), connections)
}

/// The connections that were taken: what comes over each, where its replies go, and the connection itself.
#[derive(Drop)]
pub(crate) struct Accepted {
    pub(crate) clients: Clients<NotedSource<Steady<TcpStream>>>,
    pub(crate) sinks: Sinks<NotedSink<Steady<TcpStream>>>,
    pub(crate) streams: Vec<TcpStream>,
}

/// Takes `count` connections, and no other.
pub(crate) fn accept_all(alloc: Global, listener: TcpListener, count: u32) -> io::Result<Accepted>
    ensures clients { IfOk result (λ a. length a.clients.items ≡ count) }
    ensures sinks { IfOk result (λ a. length a.sinks.items ≡ count) }
{
    let mut clients = Vec::new(alloc);
    let mut sinks = Vec::new(alloc);
    let mut streams = Vec::new(alloc);
    for _ in 0..count {
        let (stream, _) = listener.accept()?;
        // What is sent is not held back.
        stream.set_nodelay(true)?;
        stream.set_write_timeout(Some(Duration::from_secs(PATIENCE)))?;
        sinks.push(NotedSink::new(Steady::new(stream.try_clone()?)))?;
        streams.push(stream.try_clone()?)?;
        clients.push(Client::new(NotedSource::new(Steady::new(stream))))?;
    }
    Ok(Accepted {
        clients,
        sinks,
        streams,
    })
}

/// Takes `count` connections at a port, or says why that can't be.
fn accept_told<H: Eprint>(
    rt: &H,
    alloc: Global,
    port: &str,
    listener: TcpListener,
    count: u32,
) -> io::Result<Accepted>
    ensures clients { IfOk result (λ a. length a.clients.items ≡ count) }
    ensures sinks { IfOk result (λ a. length a.sinks.items ≡ count) }
{
    told(rt, port, accept_all(alloc, listener, count))
}

/// What the words name: the port, and the path of the sound.
#[derive(Clone, Copy)]
pub(crate) struct Names<'a> {
    pub(crate) port: &'a str,
    pub(crate) sound: &'a str,
}

/// Serves as many connections as the words choose at once, and writes the sound to a file.
pub(crate) fn serve_several<
    H: Files
        + Clock
        + Eprint
        + Net<Listener = TcpListener, Stream = TcpStream>
        + AllocGlobal
        + Threads
        + Wait
        + Sync,
>(rt: &H, chosen: &ServeWords, names: &Names<'_>) -> io::Result<How> {
    let alloc = rt.alloc();
    let listener = told(
        rt,
        names.port,
        TcpListener::bind(rt, (Ipv4Addr::LOCALHOST, chosen.port)),
    )?;
    let mut sound = NotedSink::new(told(rt, names.sound, open_sound(rt, names.sound, chosen))?);
    let accepted = accept_told(rt, alloc, names.port, listener, chosen.clients)?;
    let Accepted {
        clients,
        sinks,
        streams,
    } = accepted;
    let mut clients = clients;
    let mut sinks = sinks;
    let connections = Connections::new(rt, streams, chosen.clients);
    let start = told(rt, "the clock", now(rt))?;
    let mut pulse = told(rt, "the clock", pulse_of(rt, chosen, &connections))?;
    let session = serve_many(
        rt,
        alloc,
        &chosen.settings,
        start.tag,
        &mut clients,
        &mut sinks,
        &mut pulse,
        MOST_TURNS,
        &mut sound,
        &Open,
        &connections,
    );
    tell_last(rt, names.sound, sound.faults().last());
    Ok(session.how)
}
