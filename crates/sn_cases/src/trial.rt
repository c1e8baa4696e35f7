//! A case, tried.
use crate::drawn::DrawnGate;
use crate::ending::{Written, outcome_line, outcome_writes};
use crate::serving::served;
use crate::session::served_together;
use sn_crew::HoldGate;
use sn_pcm::Settings;
use sn_ports::{Gate, MemorySink, MemorySource, NoMemory, Open, Source, Text, Word};
use sn_scripts::{Again, Case, Hold, Port, header, sum_of};
use sn_server::{Outcome, render};
use sn_words::settings;
use std::alloc::Global;
use std::sync::Wait;
use std::thread::Threads;

/// How many bytes of sound and of replies a case may give.
pub const CAPACITY: u32 = 4194304;

/// How often a source is read for what it has left.
const READS: u32 = 1024;

/// What came of a case.
#[derive(Drop)]
pub struct Came {
    pub line: String,
    pub written: Written,
    pub sound: Text,
    pub replies: Text,
    /// How many bytes of the stream were not taken, if the case says it.
    pub left: Option<u64>,
    /// Two jobs ran at the same time, or not, as they should.
    pub is_held: bool,
}

impl Came {
    /// This line, and these bytes of sound and of replies.
    pub fn of(
        alloc: Global,
        line: String,
        written: Written,
        sound: &[u8],
        replies: &[u8],
    ) -> Result<Came, NoMemory> {
        Ok(Came {
            line,
            written,
            sound: Text::from_slice(alloc, sound)?,
            replies: Text::from_slice(alloc, replies)?,
            left: None,
            is_held: true,
        })
    }
}

/// Where bytes differ from those that should come, and some that came from there on.
#[derive(Drop)]
pub struct Difference {
    pub place: u64,
    pub bytes: Text,
}

/// Whether what came is what should come.
#[derive(Drop)]
pub enum Verdict {
    Agrees,
    NoMemory,
    /// There is no case of the name that is given.
    Unknown,
    /// It ended with this line.
    Ending(String),
    Replies(Difference),
    Sound(Difference),
    Left,
    Meeting,
}

impl Verdict {
    /// How it is printed.
    pub fn words(&self) -> &'static str {
        match self {
            Verdict::Agrees => "as it should",
            Verdict::NoMemory => "no memory",
            Verdict::Unknown => "no such case",
            Verdict::Ending(_) => "another end",
            Verdict::Replies(_) => "other replies",
            Verdict::Sound(_) => "another sound",
            Verdict::Left => "another rest of the stream",
            Verdict::Meeting => "another meeting",
        }
    }
}

/// A sink in memory whose calls move and fail as a port says.
pub fn sink(alloc: Global, port: &Port) -> Result<MemorySink, NoMemory> {
    MemorySink::new(alloc, CAPACITY, port.piece.max(1), port.calls(alloc)?)
}

/// What a rendering in memory reads and writes.
#[derive(Drop)]
struct Ports {
    source: MemorySource,
    sound: MemorySink,
    replies: MemorySink,
}

/// The stream of a case, and sinks for what comes of it.
fn ports_of(alloc: Global, case: &Case) -> Result<Ports, NoMemory> {
    let bytes = Text::from_slice(alloc, case.stream.as_slice())?;
    let port = &case.source_port;
    Ok(Ports {
        source: MemorySource::new(bytes, port.piece.max(1), port.calls(alloc)?),
        sound: sink(alloc, &case.sound_port)?,
        replies: sink(alloc, &case.reply_port)?,
    })
}

/// What came of a rendering.
fn came_of(
    alloc: Global,
    outcome: Outcome,
    sound: &[u8],
    replies: &[u8],
) -> Result<Came, NoMemory> {
    let line = outcome_line(alloc, outcome)?;
    Came::of(alloc, line, outcome_writes(outcome), sound, replies)
}

/// How many bytes a source gives in `READS` reads. A read that fails gives none.
fn left_of(source: &mut MemorySource) -> u64 {
    let mut count: u64 = 0;
    let mut into = [0u8; 64];
    for _ in 0..READS {
        count = count.saturating_add(source.read(&mut into).unwrap_or(0) as u64);
    }
    count
}

/// Renders the stream of a case in memory, whose jobs pass a gate.
fn rendered_through<H: AllocGlobal + Threads + Sync, G: Gate>(
    rt: &H,
    case: &Case,
    settings: &Settings,
    gate: &G,
) -> Result<Came, NoMemory> {
    let alloc = rt.alloc();
    let mut ports = ports_of(alloc, case)?;
    let outcome = render(
        rt,
        alloc,
        settings,
        &mut ports.source,
        &mut ports.sound,
        &mut ports.replies,
        gate,
    );
    let mut came = came_of(alloc, outcome, ports.sound.taken(), ports.replies.taken())?;
    if case.left.is_some() {
        came.left = Some(left_of(&mut ports.source));
    }
    Ok(came)
}

/// Renders the stream of a case, of which two jobs are held.
fn rendered_held<H: AllocGlobal + Threads + Sync>(
    rt: &H,
    case: &Case,
    settings: &Settings,
    hold: &Hold,
) -> Result<Came, NoMemory> {
    let gate = HoldGate::new(hold.one, hold.other, hold.turns);
    let mut came = rendered_through(rt, case, settings, &gate)?;
    came.is_held = gate.met() == hold.meets;
    Ok(came)
}

/// Renders the stream of a case in memory.
fn rendered<H: AllocGlobal + Threads + Sync>(
    rt: &H,
    case: &Case,
    settings: &Settings,
) -> Result<Came, NoMemory> {
    match &case.hold {
        Some(hold) => rendered_held(rt, case, settings, hold),
        None => rendered_through(rt, case, settings, &Open),
    }
}

/// What comes of words that are refused.
fn refused(alloc: Global, index: u32) -> Result<Came, NoMemory> {
    came_of(alloc, Outcome::BadWords { index }, &[], &[])
}

/// What comes of a case.
fn run_case<H: AllocGlobal + Threads + Wait + Sync>(rt: &H, case: &Case) -> Result<Came, NoMemory> {
    if u32::try_from(case.words.len()).is_err() {
        return Err(NoMemory);
    }
    match settings(&case.words) {
        Err(bad) => refused(rt.alloc(), bad.index),
        Ok(settings) => match (&case.connection, &case.session) {
            (Some(connection), _) => served(rt, case, connection, &settings),
            (None, Some(session)) => served_together(rt, case, session, &settings),
            (None, None) => rendered(rt, case, &settings),
        },
    }
}

/// The line that should come at the end of a case.
fn wanted_line(alloc: Global, case: &Case) -> Result<String, NoMemory> {
    let blocks = case.blocks;
    match &case.ending {
        Some(line) => Ok(String::from_str(alloc, line.as_str())?),
        None => Ok(format!(in alloc; "done {blocks} blocks")?),
    }
}

/// The settings that words choose, if they choose any.
fn chosen(words: &[Word]) -> Option<Settings> {
    if u32::try_from(words.len()).is_err() {
        return None;
    }
    settings(words).ok()
}

/// The header of the sound of a case, if it has one.
fn wanted_header(alloc: Global, case: &Case) -> Result<Text, NoMemory> {
    match chosen(&case.words) {
        Some(settings) if case.is_rendered() => header(alloc, &settings, case.blocks),
        _ => Ok(Text::new(alloc)),
    }
}

/// What should come of a case.
fn wanted_of(alloc: Global, case: &Case) -> Result<Came, NoMemory> {
    let line = wanted_line(alloc, case)?;
    let mut sound = wanted_header(alloc, case)?;
    sound.append(case.sound.as_slice())?;
    let (sound, replies) = (sound.as_slice(), case.replies.as_slice());
    Came::of(alloc, line, Written::Whole, sound, replies)
}

/// Where two lists of bytes differ first.
fn parting(came: &[u8], wanted: &[u8]) -> usize {
    for (place, (one, other)) in came.iter().zip(wanted).enumerate() {
        if one != other {
            return place;
        }
    }
    came.len().min(wanted.len())
}

/// How what came differs from what should come, if it does.
fn difference_of(
    alloc: Global,
    written: Written,
    came: &[u8],
    wanted: &[u8],
) -> Result<Option<Difference>, NoMemory> {
    let agrees = match written {
        Written::Whole => came == wanted,
        Written::Prefix => wanted.starts_with(came),
        Written::Nothing => came.is_empty(),
    };
    if agrees {
        return Ok(None);
    }
    let place = parting(came, wanted);
    let rest = came.get(place..).unwrap_or(came);
    let bytes = Text::from_slice(alloc, rest.get(..64).unwrap_or(rest))?;
    Ok(Some(Difference {
        place: place as u64,
        bytes,
    }))
}

/// Compares what came with the line, the sound and the replies that should come.
fn judged(
    alloc: Global,
    case: &Case,
    came: &Came,
    line: &str,
    wanted: &Came,
) -> Result<Verdict, NoMemory> {
    if came.line.as_str() != line {
        let ours = String::from_str(alloc, came.line.as_str())?;
        return Ok(Verdict::Ending(ours));
    }
    if case.left.is_some() && case.left != came.left {
        return Ok(Verdict::Left);
    }
    if !came.is_held {
        return Ok(Verdict::Meeting);
    }
    let (ours, theirs) = (came.replies.as_slice(), wanted.replies.as_slice());
    if let Some(found) = difference_of(alloc, came.written, ours, theirs)? {
        return Ok(Verdict::Replies(found));
    }
    let sound = came.sound.as_slice();
    if case.sum == Some(sum_of(sound)) {
        return Ok(Verdict::Agrees);
    }
    match difference_of(alloc, came.written, sound, wanted.sound.as_slice())? {
        Some(found) => Ok(Verdict::Sound(found)),
        None => Ok(Verdict::Agrees),
    }
}

fn case_named<'a>(cases: &'a [Case], name: &str) -> Option<&'a Case> {
    for case in cases {
        if case.name.as_str() == name {
            return Some(case);
        }
    }
    None
}

/// The words of a case, with another number of workers.
fn words_with(alloc: Global, case: &Case, workers: u32) -> Result<Vec<Word>, NoMemory> {
    let mut words = Vec::new(alloc);
    for word in case.words.iter() {
        if word.as_slice().starts_with(b"workers=") {
            let other = format!(in alloc; "workers={workers}")?;
            words.push(Text::from_slice(alloc, other.as_bytes())?)?;
        } else {
            words.push(Text::from_slice(alloc, word.as_slice())?)?;
        }
    }
    Ok(words)
}

/// Renders a case again by `workers` workers, and compares what comes with what came before.
fn rendered_again<H: AllocGlobal + Threads + Sync>(
    rt: &H,
    case: &Case,
    workers: u32,
    seed: u64,
    before: &Came,
) -> Result<Verdict, NoMemory> {
    let alloc = rt.alloc();
    let words = words_with(alloc, case, workers)?;
    let Some(settings) = chosen(&words) else {
        return Ok(Verdict::Unknown);
    };
    let came = rendered_through(rt, case, &settings, &DrawnGate::new(seed))?;
    judged(alloc, case, &came, before.line.as_str(), before)
}

/// Renders a case again as it says. The first rendering that differs is the verdict.
fn try_again<H: AllocGlobal + Threads + Sync>(
    rt: &H,
    case: &Case,
    again: &Again,
    before: &Came,
) -> Result<Verdict, NoMemory> {
    for workers in again.workers.iter() {
        for time in 0..again.times {
            let seed = again.seed ^ u64::from(time);
            match rendered_again(rt, case, *workers, seed, before)? {
                Verdict::Agrees => {}
                other => return Ok(other),
            }
        }
    }
    Ok(Verdict::Agrees)
}

/// Tries one of the cases of a script.
pub fn try_case<H: AllocGlobal + Threads + Wait + Sync>(
    rt: &H,
    cases: &[Case],
    case: &Case,
) -> Result<Verdict, NoMemory> {
    let alloc = rt.alloc();
    let ours = run_case(rt, case)?;
    let wanted = wanted_of(alloc, case)?;
    let line = wanted.line.as_str();
    if let Some(again) = &case.again {
        match judged(alloc, case, &ours, line, &wanted)? {
            Verdict::Agrees => return try_again(rt, case, again, &ours),
            other => return Ok(other),
        }
    }
    match &case.same {
        None => judged(alloc, case, &ours, line, &wanted),
        Some(name) => match case_named(cases, name.as_str()) {
            None => Ok(Verdict::Unknown),
            Some(other) => judged(alloc, case, &ours, line, &run_case(rt, other)?),
        },
    }
}
