//! Readers that run beside each other, and a loop that runs beside them.
ghost use Rattle.std.specs.Prelude.{◌≡◌, ◌≤◌};
ghost use Rattle.sn_ports.specs.Causes.{Rose};

use sn_clients::{Client, ClientEnd, ListPulse, Pulse, Turn, Unwatched, serve_many};
use sn_pcm::Settings;
use sn_ports::{Calls, Failed, MemorySink, MemorySource, NoMemory, Open, Sink, Source, Text};
use std::alloc::Global;
use std::sync::Wait;
use std::sync::atomic::{AtomicU64, Ordering};
use std::thread::Threads;

/// How many turns a first read waits for the other one, at most.
const MOST_TURNS: u32 = 500_000_000;

/// How many blocks are played until a client is heard, at most.
const MOST_BLOCKS: u32 = 1_000_000;

/// As many turns as that, and more.
const MANY: u32 = 2_000_000;

/// `/sync 7`, with its size.
const SEVEN: [u8; 20] = *b"\0\0\0\x10/sync\0\0\0,i\0\0\0\0\0\x07";

/// How many bytes a call moves, and a sink takes, at most.
const CAPACITY: u32 = 65_536;

fn source(alloc: Global, bytes: &[u8]) -> Result<MemorySource, NoMemory> {
    let bytes = Text::from_slice(alloc, bytes)?;
    Ok(MemorySource::new(bytes, CAPACITY, Calls::from_vec(Vec::new(alloc))))
}

fn sink(alloc: Global) -> Result<MemorySink, NoMemory> {
    MemorySink::new(alloc, CAPACITY, CAPACITY, Calls::from_vec(Vec::new(alloc)))
}

/// A source whose first read waits until another's has begun.
#[derive(Drop)]
struct Meeting<'a> {
    inner: MemorySource,
    begun: &'a AtomicU64,
    has_begun: bool,
    faults: u64,
}

impl Meeting<'_> {
    /// The first read begins, and waits for the other one. Returns whether that came.
    fn meets(&self) -> bool {
        self.begun.fetch_add(1, Ordering::SeqCst);
        for _ in 0..MOST_TURNS {
            if self.begun.load(Ordering::SeqCst) >= 2 {
                return true;
            }
        }
        false
    }

    /// Counts a failure.
    fn fails(&mut self) -> Failed
        ensures later { self.old.faults ≤ self.new.faults }
        ensures rose { Rose self.old.faults self.new.faults }
    {
        self.faults = self.faults.saturating_add(1);
        Failed
    }
}

impl Source for Meeting<'_> {
    ghost use Rattle.std.specs.Prelude.{None};

    ghost left = { λ _. None };

    ghost faults = { λ s. s.faults };

    fn read(&mut self, into: &mut [u8]) -> Result<usize, Failed> {
        if !self.has_begun {
            self.has_begun = true;
            if !self.meets() {
                return Err(self.fails());
            }
        }
        match self.inner.read(into) {
            Ok(count) => Ok(count),
            Err(_) => Err(self.fails()),
        }
    }
}

/// Two readers whose first reads wait for each other end as their streams do.
pub(crate) fn readers_meet<H: AllocGlobal + Threads + Wait + Sync>(
    rt: &H,
) -> Result<bool, NoMemory> {
    let alloc = rt.alloc();
    let begun = AtomicU64::new(0);
    let one = Meeting {
        inner: source(alloc, &SEVEN)?,
        begun: &begun,
        has_begun: false,
        faults: 0,
    };
    let two = Meeting {
        inner: source(alloc, &SEVEN)?,
        begun: &begun,
        has_begun: false,
        faults: 0,
    };
    let mut clients = vec![in alloc; Client::new(one), Client::new(two)]?;
    let mut sinks = vec![in alloc; sink(alloc)?, sink(alloc)?]?;
    let mut pulse = ListPulse::new(Vec::new(alloc));
    let mut sound = sink(alloc)?;
    serve_many(
        rt,
        alloc,
        &Settings::new(),
        0,
        &mut clients,
        &mut sinks,
        &mut pulse,
        MANY,
        &mut sound,
        &Open,
        &Unwatched,
    );
    Ok(clients.iter().all(|client| client.end == ClientEnd::Closed))
}

/// A sink that notes whether it has taken a byte.
#[derive(Drop)]
struct Ear<'a> {
    heard: &'a AtomicU64,
}

impl Sink for Ear<'_> {
    ghost use Rattle.std.specs.Prelude.{None};

    ghost taken = { λ _. None };

    ghost faults = { λ _. 0 };

    fn write(&mut self, piece: &[u8]) -> Result<usize, Failed> {
        if !piece.is_empty() {
            self.heard.store(1, Ordering::SeqCst);
        }
        Ok(piece.len())
    }
}

/// A sink that drops what it takes.
#[derive(Drop)]
struct Nowhere;

impl Sink for Nowhere {
    ghost use Rattle.std.specs.Prelude.{None};

    ghost taken = { λ _. None };

    ghost faults = { λ _. 0 };

    fn write(&mut self, piece: &[u8]) -> Result<usize, Failed> {
        Ok(piece.len())
    }
}

/// A pulse that gives one block after another until something was heard, up to a limit.
#[derive(Drop)]
struct Patience<'a> {
    heard: &'a AtomicU64,
    left: u32,
    zeros: u64,
}

impl Patience<'_> {
    /// Whether one more block is due.
    fn is_due(&self) -> bool {
        self.left > 0 && self.heard.load(Ordering::SeqCst) == 0
    }
}

impl Pulse for Patience<'_> {
    ghost use Rattle.std.specs.Prelude.{None};

    ghost left = { λ _. None };

    ghost zeros = { λ p. p.zeros };

    fn next(&mut self) -> u32 {
        if self.is_due() {
            self.left = self.left.saturating_sub(1);
            return 1;
        }
        self.zeros = self.zeros.saturating_add(1);
        0
    }
}

/// Blocks are played until the first client's sink takes a byte, and its frame came before the last of them.
pub(crate) fn blocks_go_on<H: AllocGlobal + Threads + Wait + Sync>(
    rt: &H,
) -> Result<bool, NoMemory> {
    let alloc = rt.alloc();
    let heard = AtomicU64::new(0);
    let unheard = AtomicU64::new(0);
    let mut clients = vec![in alloc;
        Client::new(source(alloc, &SEVEN)?),
        Client::new(source(alloc, &SEVEN)?),
    ]?;
    let mut sinks = vec![in alloc; Ear { heard: &heard }, Ear { heard: &unheard }]?;
    let mut pulse = Patience {
        heard: &heard,
        left: MOST_BLOCKS,
        zeros: 0,
    };
    let session = serve_many(
        rt,
        alloc,
        &Settings::new(),
        0,
        &mut clients,
        &mut sinks,
        &mut pulse,
        MANY,
        &mut Nowhere,
        &Open,
        &Unwatched,
    );
    Ok(is_before(&session.turns))
}

/// Whether the first client's first frame stands before the last blocks.
fn is_before(turns: &[Turn]) -> bool {
    let mut has_come = false;
    let mut is_before = false;
    for turn in turns {
        match turn {
            Turn::Frame(0) => has_come = true,
            Turn::Frame(_) => {}
            Turn::Ticks(_) => is_before = has_come,
        }
    }
    is_before
}
