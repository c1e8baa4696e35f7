//! Sessions of two clients over memory.
ghost use Rattle.std.specs.Prelude.{◌≤◌};

use sn_clients::{Client, ClientEnd, Clients, How, ListPulse, Session, Unwatched, serve_many};
use sn_pcm::Settings;
use sn_ports::{Calls, MemorySink, MemorySource, NoMemory, Open, Text};
use std::alloc::Global;
use std::sync::Wait;
use std::thread::Threads;

/// `/sync 1`, with its size.
const ONE: [u8; 20] = *b"\0\0\0\x10/sync\0\0\0,i\0\0\0\0\0\x01";

/// `/sync 1` and `/sync 2`, each with its size.
const ONE_TWO: [u8; 40] =
    *b"\0\0\0\x10/sync\0\0\0,i\0\0\0\0\0\x01\0\0\0\x10/sync\0\0\0,i\0\0\0\0\0\x02";

/// `/synced 1`, with its size.
const SYNCED_ONE: [u8; 20] = *b"\0\0\0\x10/synced\0,i\0\0\0\0\0\x01";

/// `/sync 7`, with its size.
const SEVEN: [u8; 20] = *b"\0\0\0\x10/sync\0\0\0,i\0\0\0\0\0\x07";

/// `/synced 7`, with its size.
const SYNCED_SEVEN: [u8; 20] = *b"\0\0\0\x10/synced\0,i\0\0\0\0\0\x07";

/// `/quit`, with its size.
const QUIT: [u8; 16] = *b"\0\0\0\x0c/quit\0\0\0,\0\0\0";

/// `/done /quit`, with its size.
const DONE_QUIT: [u8; 24] = *b"\0\0\0\x14/done\0\0\0,s\0\0/quit\0\0\0";

/// As many turns as any of these sessions has, and more.
const MANY: u32 = 100;

/// How many bytes a sink takes at most.
const CAPACITY: u32 = 65_536;

/// No call fails, or the first.
fn calls(alloc: Global, is_first: bool) -> Result<Calls, NoMemory> {
    let mut numbers = Vec::new(alloc);
    if is_first {
        numbers.push(0)?;
    }
    Ok(Calls::from_vec(numbers))
}

/// A source of bytes, whose first call fails or none.
fn source(alloc: Global, bytes: &[u8], fails: bool) -> Result<MemorySource, NoMemory> {
    Ok(MemorySource::new(
        Text::from_slice(alloc, bytes)?,
        CAPACITY,
        calls(alloc, fails)?,
    ))
}

/// A sink, whose first call fails or none.
fn sink(alloc: Global, fails: bool) -> Result<MemorySink, NoMemory> {
    MemorySink::new(alloc, CAPACITY, CAPACITY, calls(alloc, fails)?)
}

/// A pulse that gives no block, or one.
fn pulse(alloc: Global, blocks: bool) -> Result<ListPulse, NoMemory> {
    let mut numbers = Vec::new(alloc);
    if blocks {
        numbers.push(1)?;
    }
    Ok(ListPulse::new(numbers))
}

/// What a session of two clients was, and what came of it.
#[derive(Drop)]
struct Told {
    session: Session,
    one: ClientEnd,
    two: ClientEnd,
    to_one: Text,
    to_two: Text,
    sound: usize,
}

/// Which of the objects of a session fail at their first call.
#[derive(Clone, Copy)]
struct Failing {
    source: bool,
    sink: bool,
    sound: bool,
}

/// None does.
const WELL: Failing = Failing {
    source: false,
    sink: false,
    sound: false,
};

/// Serves two clients, of whom the first one's source or sink may fail.
fn serve_two<H: AllocGlobal + Threads + Wait + Sync>(
    rt: &H,
    first: &[u8],
    most: u32,
    blocks: bool,
    failing: Failing,
) -> Result<Told, NoMemory>
    requires { 1 ≤ most }
{
    let alloc = rt.alloc();
    let mut clients = vec![in alloc;
        Client::new(source(alloc, first, failing.source)?),
        Client::new(source(alloc, &SEVEN, false)?),
    ]?;
    let mut sinks = vec![in alloc; sink(alloc, failing.sink)?, sink(alloc, false)?]?;
    let mut pulse = pulse(alloc, blocks)?;
    let mut sound = sink(alloc, failing.sound)?;
    let session = serve_many(
        rt,
        alloc,
        &Settings::new(),
        0,
        &mut clients,
        &mut sinks,
        &mut pulse,
        most,
        &mut sound,
        &Open,
        &Unwatched,
    );
    match (clients.as_slice(), sinks.as_slice()) {
        ([one, two], [to_one, to_two]) => Ok(Told {
            session,
            one: one.end,
            two: two.end,
            to_one: Text::from_slice(alloc, to_one.taken())?,
            to_two: Text::from_slice(alloc, to_two.taken())?,
            sound: sound.taken().len(),
        }),
        _ => Err(NoMemory),
    }
}

/// If one turn may be, the session ends after one.
pub(crate) fn full_turns<H: AllocGlobal + Threads + Wait + Sync>(rt: &H) -> Result<bool, NoMemory> {
    let told = serve_two(rt, &ONE_TWO, 1, true, WELL)?;
    Ok(told.session.how == How::TurnsFull && told.session.turns.len() == 1)
}

/// `/quit` is accepted at the boundary after the 0 of the pulse.
pub(crate) fn quits<H: AllocGlobal + Threads + Wait + Sync>(rt: &H) -> Result<bool, NoMemory> {
    let told = serve_two(rt, &QUIT, MANY, false, WELL)?;
    Ok(
        told.session.how == How::Quit
            && told.session.turns.len() == 2
            && told.one == ClientEnd::Closed
            && told.to_one.as_slice() == DONE_QUIT.as_slice()
            && told.sound == 0,
    )
}

/// The first client's sink fails: its frame is played all the same, and the other client is answered.
pub(crate) fn deaf_clients<H: AllocGlobal + Threads + Wait + Sync>(
    rt: &H,
) -> Result<bool, NoMemory> {
    let failing = Failing { sink: true, ..WELL };
    let told = serve_two(rt, &ONE, MANY, true, failing)?;
    Ok(
        told.session.how == How::Over
            && told.session.turns.len() == 3
            && told.one == ClientEnd::SendFault
            && told.two == ClientEnd::Closed
            && told.to_one.as_slice().is_empty()
            && told.to_two.as_slice() == SYNCED_SEVEN.as_slice()
            && told.sound == 256,
    )
}

/// The first client's source fails: nothing of it is played, and the other client is answered.
pub(crate) fn mute_sources<H: AllocGlobal + Threads + Wait + Sync>(
    rt: &H,
) -> Result<bool, NoMemory> {
    let failing = Failing {
        source: true,
        ..WELL
    };
    let told = serve_two(rt, &ONE, MANY, true, failing)?;
    Ok(
        told.session.how == How::Over
            && told.session.turns.len() == 2
            && told.one == ClientEnd::ReadFault
            && told.two == ClientEnd::Closed
            && told.to_one.as_slice().is_empty()
            && told.to_two.as_slice() == SYNCED_SEVEN.as_slice()
            && told.sound == 256,
    )
}

/// The sink for the sound fails at the first block.
pub(crate) fn silent_sounds<H: AllocGlobal + Threads + Wait + Sync>(
    rt: &H,
) -> Result<bool, NoMemory> {
    let failing = Failing {
        sound: true,
        ..WELL
    };
    let told = serve_two(rt, &ONE, MANY, true, failing)?;
    Ok(told.session.how == How::SoundFault && told.sound == 0)
}

/// Both clients are answered.
pub(crate) fn answers<H: AllocGlobal + Threads + Wait + Sync>(rt: &H) -> Result<bool, NoMemory> {
    let told = serve_two(rt, &ONE, MANY, true, WELL)?;
    Ok(
        told.session.how == How::Over
            && told.session.turns.len() == 3
            && told.to_one.as_slice() == SYNCED_ONE.as_slice()
            && told.to_two.as_slice() == SYNCED_SEVEN.as_slice()
            && told.sound == 256,
    )
}
