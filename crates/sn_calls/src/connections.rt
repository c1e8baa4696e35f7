//! Rows of connections over a socket of this machine.
ghost use Rattle.sn_calls.specs.Ready.{Always};

use crate::line::{Answer, Line, Rows, Unanswered, number, said, spelled};
use sn_ports::{Failed, Fed, Link, send_all};
use sn_tcp::{Pace, TcpLink};
use std::alloc::Global;
use std::cell::Cell;
use std::io;
use std::io::{Read, Write};
use std::net::{Net, OpenListener, OpenStream, TcpListener, TcpStream};
use std::os::fd::AsRawFd;
use std::time::{Clock, Duration};

/// A clock that goes on by a tenth of a millisecond whenever it is read, and is broken from 3 seconds on.
#[derive(Drop)]
struct Steps {
    micros: Cell<u64>,
}

impl Clock for Steps {
    fn monotonic(&self) -> io::Result<Duration> {
        let now = self.micros.get();
        if now >= 3_000_000 {
            return Err(io::Error::other("the clock is broken"));
        }
        self.micros.set(now.saturating_add(100));
        Ok(Duration::from_micros(now))
    }

    fn since_1970(&self) -> io::Result<Duration> {
        self.monotonic()
    }
}

/// Both ends of a connection: the client's, and that of the server as a link.
#[derive(Drop)]
struct Connection<'a, S> {
    alloc: Global,
    clock: &'a Steps,
    client: Option<S>,
    link: TcpLink<S, &'a Steps>,
}

/// The pace at 48,000 frames a second that a word names.
fn pace_of(word: &str) -> Result<Pace, Unanswered> {
    match word {
        "clock" => Ok(Pace::by_clock(48_000)),
        "sound" => Ok(Pace::by_sound(48_000)),
        _ => Err(Unanswered::NoRow),
    }
}

/// Makes a connection whose blocks come at this pace.
fn connected<'a, H: Net>(
    rt: &H,
    alloc: Global,
    clock: &'a Steps,
    pace: Pace,
) -> Result<Connection<'a, H::Stream>, Unanswered> {
    let listener = TcpListener::bind(rt, "127.0.0.1:0")?;
    let client = TcpStream::connect(rt, listener.local_addr()?)?;
    client.set_read_timeout(Some(Duration::from_secs(5)))?;
    let (server, _) = listener.accept()?;
    Ok(Connection {
        alloc,
        clock,
        client: Some(client),
        link: TcpLink::new(server, clock, pace)?,
    })
}

impl<'a, S: Read + Write + OpenStream + AsRawFd + Drop> Connection<'a, S> {
    /// What comes next, with room for six bytes.
    fn next(&mut self) -> Answer {
        let alloc = self.alloc;
        let mut into = [0u8; 6];
        match self.link.next(&mut into) {
            Ok(Fed::Bytes(count)) => {
                let bytes = into.get(..count).unwrap_or(&[]);
                spelled(alloc, bytes)
            }
            Ok(Fed::Ticks(count)) => number(alloc, i128::from(count)),
            Ok(Fed::End) => said(alloc, "end"),
            Err(Failed) => said(alloc, "failed"),
        }
    }

    /// What the client gets of a text that is sent to it.
    fn reply(&mut self, text: &str) -> Answer {
        if send_all(&mut self.link, text.as_bytes()).is_err() {
            return said(self.alloc, "failed");
        }
        let mut got = vec![in self.alloc; 0u8; text.len()]?;
        match &mut self.client {
            Some(client) => client.read_exact(got.as_mut_slice())?,
            None => return Err(Unanswered::NoRow),
        }
        spelled(self.alloc, &got)
    }

    /// The client sends a text.
    fn write(&mut self, text: &str) -> Answer {
        match &mut self.client {
            Some(client) => client.write_all(text.as_bytes())?,
            None => return Err(Unanswered::NoRow),
        }
        said(self.alloc, "ok")
    }

    fn step(&mut self, verb: &str, rest: &str) -> Answer {
        let alloc = self.alloc;
        match verb {
            "next" => self.next(),
            "write" => self.write(rest),
            "reply" => self.reply(rest),
            "at" => {
                let micros = rest.parse::<u64>().map_err(|_| Unanswered::NoRow)?;
                self.clock.micros.set(micros);
                said(alloc, "ok")
            }
            "close" => {
                self.client = None;
                said(alloc, "ok")
            }
            "faults" => number(alloc, i128::from(self.link.faults().count())),
            _ => Err(Unanswered::NoRow),
        }
    }
}

/// Each row is the pace of a connection and what happens to it, step by step.
#[derive(Drop)]
pub struct ConnectionRows<'a, H> {
    pub rt: &'a H,
    pub alloc: Global,
}

/// What comes of each step of a connection.
fn tried<H: Net>(rt: &H, alloc: Global, line: &mut Line<'_>) -> Answer {
    let clock = Steps {
        micros: Cell::new(0),
    };
    let (pace, steps) = line.rest().split_once(' ').unwrap_or((line.rest(), ""));
    let mut connection = connected(rt, alloc, &clock, pace_of(pace)?)?;
    let mut out = String::new(alloc);
    for word in steps.split_whitespace() {
        let (verb, rest) = word.split_once(':').unwrap_or((word, ""));
        out.push_str(connection.step(verb, rest)?.as_str())?;
        out.push_str(" ")?;
    }
    Ok(out)
}

impl<'a, H: Net> Rows for ConnectionRows<'a, H> {
    ghost ready = { λ _. Always };

    fn answer(&mut self, line: &mut Line<'_>) -> Answer {
        tried(self.rt, self.alloc, line)
    }
}
