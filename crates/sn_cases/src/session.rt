//! The session of several clients of a case, tried.
ghost use Rattle.std.specs.Prelude.{◌≤◌, All, IfOk, OnOk};
ghost use Rattle.sn_ports.specs.Limits.{most_ticks};

use crate::ending::{Written, counted, said};
use crate::trial::{Came, sink};
use sn_clients::{Client, ClientEnd, Clients, How, ListPulse, Unwatched, serve_many};
use sn_pcm::Settings;
use sn_ports::limits::{MOST_CLIENTS, MOST_TICKS};
use sn_ports::{MemorySink, MemorySource, NoMemory, Open, Text};
use sn_scripts::{Case, Session};
use std::alloc::Global;
use std::sync::Wait;
use std::thread::Threads;

fn put_number(numbers: &mut Vec<u32>, number: u32) -> Result<(), NoMemory>
    requires due { number ≤ most_ticks }
    requires before { All (λ n. n ≤ most_ticks) numbers.old.items }
    ensures { OnOk result (All (λ n. n ≤ most_ticks) numbers.new.items) }
{
    numbers.push(number)?;
    Ok(())
}

/// The numbers that a pulse gives, each at most as many as may be due.
fn numbers_of(alloc: Global, given: &[u32]) -> Result<Vec<u32>, NoMemory>
    ensures { IfOk result (λ numbers. All (λ n. n ≤ most_ticks) numbers.items) }
{
    let mut numbers = Vec::new(alloc);
    for number in given {
        put_number(&mut numbers, (*number).min(MOST_TICKS))?;
    }
    Ok(numbers)
}

/// The clients of a case, each with its stream.
fn clients_of(
    alloc: Global,
    case: &Case,
    streams: &[Text],
) -> Result<Clients<MemorySource>, NoMemory> {
    let mut clients = Vec::new(alloc);
    let port = &case.source_port;
    for stream in streams {
        let bytes = Text::from_slice(alloc, stream.as_slice())?;
        let source = MemorySource::new(bytes, port.piece.max(1), port.calls(alloc)?);
        clients.push(Client::new(source))?;
    }
    Ok(clients)
}

/// A sink for the replies of each client.
fn sinks_of(alloc: Global, case: &Case, count: usize) -> Result<Vec<MemorySink>, NoMemory> {
    let mut sinks = Vec::new(alloc);
    for _ in 0..count {
        sinks.push(sink(alloc, &case.reply_port)?)?;
    }
    Ok(sinks)
}

/// How a session ended, in words.
fn how_words(how: How) -> &'static str {
    match how {
        How::Quit => "quit",
        How::Over => "over",
        How::NoMemory => "no memory",
        How::SoundFault => "sound fault",
        How::TurnsFull => "turns full",
    }
}

/// How a client ended, in words.
fn end_words(alloc: Global, end: ClientEnd) -> Result<String, NoMemory> {
    match end {
        ClientEnd::Closed => said(alloc, "closed"),
        ClientEnd::Cut { kept } => counted(alloc, "cut after ", i128::from(kept), " bytes"),
        ClientEnd::BadFrame { size } => counted(alloc, "bad frame size ", i128::from(size), ""),
        ClientEnd::ReadFault => said(alloc, "read fault"),
        ClientEnd::SendFault => said(alloc, "send fault"),
        ClientEnd::Stopped => said(alloc, "stopped"),
        ClientEnd::Worn => said(alloc, "worn out"),
        ClientEnd::NoMemory => Err(NoMemory),
    }
}

/// The line of a session: how it ended, how many turns it had, and how each client ended.
fn session_line(
    alloc: Global,
    how: How,
    turns: usize,
    clients: &[Client<MemorySource>],
) -> Result<String, NoMemory> {
    let how = how_words(how);
    let mut line = format!(in alloc; "{how}, {turns} turns")?;
    for client in clients {
        let end = end_words(alloc, client.end)?;
        line.push_str(", ")?;
        line.push_str(end.as_str())?;
    }
    Ok(line)
}

/// What was sent to the clients, client 0's first.
fn sent(alloc: Global, sinks: &[MemorySink]) -> Result<Text, NoMemory> {
    let mut replies = Text::new(alloc);
    for sink in sinks {
        replies.append(sink.taken())?;
    }
    Ok(replies)
}

/// Serves the clients of a case in memory.
pub fn served_together<H: AllocGlobal + Threads + Wait + Sync>(
    rt: &H,
    case: &Case,
    session: &Session,
    settings: &Settings,
) -> Result<Came, NoMemory> {
    let alloc = rt.alloc();
    let mut clients = clients_of(alloc, case, &session.streams)?;
    let mut sinks = sinks_of(alloc, case, clients.len())?;
    let mut pulse = ListPulse::new(numbers_of(alloc, &session.numbers)?);
    let mut sound = sink(alloc, &case.sound_port)?;
    let most = session.most;
    if clients.is_empty()
        || clients.len() > MOST_CLIENTS as usize
        || sinks.len() != clients.len()
        || most == 0
    {
        let line = said(alloc, "no session")?;
        return Came::of(alloc, line, Written::Whole, &[], &[]);
    }
    let session = serve_many(
        rt,
        alloc,
        settings,
        0,
        &mut clients,
        &mut sinks,
        &mut pulse,
        most,
        &mut sound,
        &Open,
        &Unwatched,
    );
    if session.how == How::NoMemory {
        return Err(NoMemory);
    }
    let line = session_line(alloc, session.how, session.turns.len(), &clients)?;
    let replies = sent(alloc, &sinks)?;
    Came::of(
        alloc,
        line,
        Written::Whole,
        sound.taken(),
        replies.as_slice(),
    )
}
