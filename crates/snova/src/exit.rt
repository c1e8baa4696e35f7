//! What came of the words: the line that is printed, and the status of the program.
ghost use Rattle.std.specs.Prelude.{◌≡◌, Some};
ghost use Rattle.std.specs.Fmt.{DisplaysOnOk};
ghost use Rattle.std.specs.declared.io.ErrorKind.TheVariants.{OutOfMemory};
ghost use Rattle.snova.specs.Lines.{bad_stream_line, converted_line, end_line, exit_line, exit_status, fault_number, has_line, outcome_line, session_line, session_status, shelf_line};

use crate::usage::{USAGE, VERSION};
use sn_clients::How;
use sn_osc::PacketKind;
use sn_server::{Ended, Outcome, StreamFault};
use sn_top::{Converted, Served, ShelfOutcome};
use std::{fmt, io};

/// The status if the words are refused.
pub(crate) const BAD_WORDS: u8 = 2;

/// The status if memory ran out before anything was read or served.
const NO_MEMORY: u8 = 1;

/// The status if a file or a connection can't be opened.
const CANNOT_OPEN: u8 = 9;

/// What came of the words.
#[derive(Clone, Copy)]
pub(crate) enum Exit {
    /// The usage was asked for.
    Help,
    /// The version was asked for.
    Version,
    /// A file of commands was rendered.
    Rendered(ShelfOutcome),
    /// A connection was served.
    Served(Served),
    /// Several connections were served at once.
    Session(How),
    /// A text was made a stream, or a stream a text.
    Converted(Converted),
    /// A drill was played.
    Drilled(Outcome),
    /// A report was written.
    Planned(Outcome),
    /// Memory ran out before anything was read or served.
    NoMemory,
    /// A file could not be opened, no connection could be taken at the port, the clock could not be read, or one file
    /// would be written over another.
    NotOpened,
}

impl Exit {
    /// What an error of this kind means that came while files or connections were opened.
    pub(crate) fn unopened(kind: io::ErrorKind) -> Exit
        ensures memory { kind ≡ OutOfMemory → result ≡ Exit.NoMemory }
        ensures other { (kind ≡ OutOfMemory → ⊥) → result ≡ Exit.NotOpened }
    {
        if kind == io::ErrorKind::OutOfMemory {
            Exit::NoMemory
        } else {
            Exit::NotOpened
        }
    }

    /// The status of the program.
    pub(crate) fn status(&self) -> u8
        ensures { result ≡ exit_status self.now }
    {
        match self {
            Exit::Help | Exit::Version => 0,
            Exit::Rendered(outcome) => outcome.status(),
            Exit::Served(served) => served.status(),
            Exit::Session(how) => session_status(*how),
            Exit::Converted(converted) => converted.status(),
            Exit::Drilled(outcome) => outcome.status(),
            Exit::Planned(outcome) => outcome.status(),
            Exit::NoMemory => NO_MEMORY,
            Exit::NotOpened => CANNOT_OPEN,
        }
    }

    /// Whether its line is still to be printed: a drill that was done has printed its own.
    pub(crate) fn has_line(&self) -> bool
        ensures { result ≡ has_line self.now }
    {
        match self {
            Exit::Drilled(Outcome::Done { .. }) => false,
            _ => true,
        }
    }
}

/// The status of the program after a session of several connections.
fn session_status(how: How) -> u8
    ensures { result ≡ session_status how }
{
    match how {
        How::Quit | How::Over => 0,
        How::NoMemory => 1,
        How::SoundFault => 7,
        How::TurnsFull => 15,
    }
}

/// The number by which a fault of a stream is printed, after a `P`.
fn number_of(fault: StreamFault) -> u8
    ensures { result ≡ fault_number fault }
{
    match fault {
        StreamFault::Packet(PacketKind::Size) => 1,
        StreamFault::Packet(PacketKind::Start) => 2,
        StreamFault::Packet(PacketKind::Unended) => 3,
        StreamFault::Packet(PacketKind::Padding) => 4,
        StreamFault::Packet(PacketKind::NoTags) => 5,
        StreamFault::Packet(PacketKind::ShortArgs) => 6,
        StreamFault::Packet(PacketKind::LongArgs) => 7,
        StreamFault::Packet(PacketKind::BlobSize) => 8,
        StreamFault::Packet(PacketKind::ElementSize) => 9,
        StreamFault::Packet(PacketKind::Head) => 10,
        StreamFault::Packet(PacketKind::NestedEarly) => 11,
        StreamFault::Packet(PacketKind::TooDeep) => 12,
        StreamFault::FrameSize => 13,
        StreamFault::FrameCut => 14,
    }
}

/// Writes the first fault of a stream.
fn write_bad_stream<W: fmt::Write>(
    f: &mut fmt::Formatter<W>,
    packet: u32,
    place: u64,
    fault: StreamFault,
) -> fmt::Result
    ensures { DisplaysOnOk W.write_str_gives f.old result (Some (bad_stream_line packet place fault)) f.new }
{
    let number = number_of(fault);
    write!(
        f,
        "bad stream: packet {packet}, byte {place}, fault P{number}"
    )
}

/// Writes what came of a run.
fn write_outcome<W: fmt::Write>(f: &mut fmt::Formatter<W>, outcome: Outcome) -> fmt::Result
    ensures { DisplaysOnOk W.write_str_gives f.old result (Some (outcome_line outcome)) f.new }
{
    match outcome {
        Outcome::Done { blocks } => write!(f, "done {blocks} blocks"),
        Outcome::NoMemory => f.write_str("no memory"),
        Outcome::BadWords { index } => write!(f, "bad word {index}"),
        Outcome::BadStream {
            packet,
            place,
            fault,
        } => write_bad_stream(f, packet, place, fault),
        Outcome::LongStream { bytes: _ } => f.write_str("stream over 16777216 bytes"),
        Outcome::LongSound { blocks } => write!(f, "sound too long: {blocks} blocks"),
        Outcome::ReadFault => f.write_str("read fault"),
        Outcome::SoundFault => f.write_str("sound fault"),
        Outcome::ReplyFault => f.write_str("reply fault"),
    }
}

/// Writes what came of a run over a shelf.
fn write_shelf_outcome<W: fmt::Write>(
    f: &mut fmt::Formatter<W>,
    outcome: ShelfOutcome,
) -> fmt::Result
    ensures { DisplaysOnOk W.write_str_gives f.old result (Some (shelf_line outcome)) f.new }
{
    match outcome {
        ShelfOutcome::Ran(outcome) => write_outcome(f, outcome),
        ShelfOutcome::ShelfFault => f.write_str("shelf fault"),
    }
}

/// Writes how a connection ended.
fn write_end<W: fmt::Write>(f: &mut fmt::Formatter<W>, how: Ended) -> fmt::Result
    ensures { DisplaysOnOk W.write_str_gives f.old result (Some (end_line how)) f.new }
{
    match how {
        Ended::Quit => f.write_str("quit"),
        Ended::NoMemory => f.write_str("no memory"),
        Ended::Closed => f.write_str("closed"),
        Ended::Cut { kept } => write!(f, "cut after {kept} bytes"),
        Ended::BadFrame { size } => write!(f, "bad frame size {size}"),
        Ended::LinkFault => f.write_str("link fault"),
        Ended::SoundFault => f.write_str("sound fault"),
        Ended::Worn {
            bytes: _,
            blocks: _,
        } => f.write_str("worn out"),
    }
}

/// Writes how a session of several connections ended.
fn write_session<W: fmt::Write>(f: &mut fmt::Formatter<W>, how: How) -> fmt::Result
    ensures { DisplaysOnOk W.write_str_gives f.old result (Some (session_line how)) f.new }
{
    match how {
        How::Quit => f.write_str("quit"),
        How::Over => f.write_str("over"),
        How::NoMemory => f.write_str("no memory"),
        How::SoundFault => f.write_str("sound fault"),
        How::TurnsFull => f.write_str("turns full"),
    }
}

/// Writes what came of a conversion.
fn write_converted<W: fmt::Write>(f: &mut fmt::Formatter<W>, converted: Converted) -> fmt::Result
    ensures { DisplaysOnOk W.write_str_gives f.old result (Some (converted_line converted)) f.new }
{
    match converted {
        Converted::Done { packets } => write!(f, "done {packets} packets"),
        Converted::NoMemory => f.write_str("no memory"),
        Converted::BadWords { index } => write!(f, "bad word {index}"),
        Converted::BadStream {
            packet,
            place,
            fault,
        } => write_bad_stream(f, packet, place, fault),
        Converted::LongStream { bytes: _ } => f.write_str("stream over 16777216 bytes"),
        Converted::ReadFault => f.write_str("read fault"),
        Converted::OutFault => f.write_str("out fault"),
        Converted::BadScore { line } => write!(f, "bad score: line {line}"),
    }
}

impl fmt::Display for Exit {
    ghost output = { exit_line };

    fn fmt<W: fmt::Write>(&self, f: &mut fmt::Formatter<W>) -> fmt::Result {
        match self {
            Exit::Help => f.write_str(USAGE),
            Exit::Version => write!(f, "snova {VERSION}"),
            Exit::Rendered(outcome) => write_shelf_outcome(f, *outcome),
            Exit::Served(Served::BadWords { index }) => write!(f, "bad word {index}"),
            Exit::Served(Served::Ran(how)) => write_end(f, *how),
            Exit::Session(how) => write_session(f, *how),
            Exit::Converted(converted) => write_converted(f, *converted),
            Exit::Drilled(outcome) => write_outcome(f, *outcome),
            Exit::Planned(outcome) => write_outcome(f, *outcome),
            Exit::NoMemory => f.write_str("no memory"),
            Exit::NotOpened => f.write_str("cannot open"),
        }
    }
}
