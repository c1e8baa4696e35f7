//! Calls that neither rows nor scripts reach, each tried by a function of its own.
use crate::line::Unanswered;
use crate::packets::{decoded, framed_by_bytes, timed};
use crate::texts::TONE;
use crate::trees::{attached, attached_and_undone, walked, written_and_undone};
use sn_def::{DefKind, Unread, print, read};
use sn_mem::{Extent, Extents, Foot, PlainPort, clash, load_words, store_words};
use sn_osc::{Address, Body, Bundle, Frame, Message, Packet, frames_of, spellable};
use sn_ports::{FileSink, FileSource, NoMemory, Text, fill, show, write_all};
use sn_queue::Messages;
use std::alloc::Global;
use std::fs;
use std::rt::Files;

fn is_shown(alloc: Global, value: i32, digits: &[u8]) -> Result<bool, NoMemory> {
    Ok(show(alloc, value)?.as_slice() == digits)
}

/// Numbers are shown in decimal.
fn shown(alloc: Global) -> Result<bool, Unanswered> {
    Ok(
        is_shown(alloc, -5, b"-5")?
            && is_shown(alloc, 0, b"0")?
            && is_shown(alloc, 2_147_483_647, b"2147483647")?
            && is_shown(alloc, -2_147_483_648, b"-2147483648")?,
    )
}

/// A sink gives back its writer, which has what was written.
fn given_back(alloc: Global) -> Result<bool, Unanswered> {
    let mut sink = FileSink::new(Vec::new(alloc));
    if write_all(&mut sink, b"replies").is_err() {
        return Ok(false);
    }
    Ok(sink.into_inner().as_slice() == b"replies".as_slice())
}

/// The second of two pieces of a file of nine bytes is cut, and nothing is left after it.
fn filled<H: Files>(rt: &H) -> Result<bool, Unanswered> {
    let mut source = FileSource::new(fs::open(rt, "piece.txt")?);
    let mut into = [0u8; 6];
    let is_first = fill(&mut source, &mut into) == Ok(6) && into == *b"comman";
    let is_second = fill(&mut source, &mut into) == Ok(3) && into == *b"ds\nman";
    Ok(is_first && is_second && fill(&mut source, &mut into) == Ok(0))
}

fn is_printed(alloc: Global, text: &[u8], printed: &[u8]) -> Result<bool, NoMemory> {
    match read(alloc, text) {
        Ok(def) => Ok(print(alloc, &def)?.as_slice() == printed),
        Err(_) => Ok(false),
    }
}

/// A definition is printed with whole numbers, in version 1 if it has no array; what is printed so already stays as it
/// is.
fn printed(alloc: Global) -> Result<bool, Unanswered> {
    let tone = TONE.as_bytes();
    let one = b"snova 1\ndef half\ncontrol x 0.5\na = SinOsc x -0.1\nend\n";
    let two = b"snova 2\ndef half\ncontrol x 0.5\na = SinOsc x -0.1\nend\n";
    let whole = b"snova 1\ndef half\ncontrol x 8388608\na = SinOsc x -1677722\nend\n";
    Ok(
        is_printed(alloc, one, whole)?
            && is_printed(alloc, two, whole)?
            && is_printed(alloc, tone, tone)?,
    )
}

/// A definition with arrays is printed in version 2, each array in its place.
fn arrays_printed(alloc: Global) -> Result<bool, Unanswered> {
    let bank =
        b"snova 2\ndef bank\narray amp 0.5 0.25 0\ncontrol out 0\narray a 1\nOut.ar out amp.1\nend\n";
    let whole =
        b"snova 2\ndef bank\narray amp 8388608 4194304 0\ncontrol out 0\narray a 1\nOut.ar out amp.1\nend\n";
    Ok(is_printed(alloc, bank, whole)?)
}

fn is_at_fault(alloc: Global, text: &[u8], kind: DefKind, line: u32) -> bool {
    match read(alloc, text) {
        Err(Unread::Bad(fault)) => fault.kind == kind && fault.line == line,
        _ => false,
    }
}

/// What is wrong with the line of an array is judged in order: the name, whether it is given already,
/// and then each literal; and in version 1 it is the line of a unit.
fn arrays_at_fault(alloc: Global) -> Result<bool, Unanswered> {
    let unit = b"snova 1\ndef a\narray x 1 2\nend\n";
    let shape = b"snova 2\ndef a\narray = SinOsc 1 2\nend\n";
    let name = b"snova 2\ndef a\narray x.1 y\nend\n";
    let twice = b"snova 2\ndef a\ncontrol x 1\narray x y\nend\n";
    let number = b"snova 2\ndef a\narray x 1 y 2\nend\n";
    Ok(
        is_at_fault(alloc, unit, DefKind::Unit, 3)
            && is_at_fault(alloc, shape, DefKind::Line, 3)
            && is_at_fault(alloc, name, DefKind::Name, 3)
            && is_at_fault(alloc, twice, DefKind::Twice, 4)
            && is_at_fault(alloc, number, DefKind::Number, 3),
    )
}

fn is_spellable(alloc: Global, address: &[u8]) -> Result<bool, NoMemory> {
    let address = Address::from_slice(alloc, address)?;
    Ok(spellable(&Packet::Message(Message {
        address,
        body: Body::Bare,
    })))
}

/// Whether a bundle of a bundle with no elements has a spelling, by their tags.
fn is_nestable(alloc: Global, tag: u64, inner: u64) -> Result<bool, Unanswered> {
    let mut elements = Vec::new(alloc);
    elements.push(Packet::Bundle(Bundle {
        tag: inner,
        elements: Vec::new(alloc),
    }))?;
    Ok(spellable(&Packet::Bundle(Bundle { tag, elements })))
}

/// An address begins with `/` and has no byte 0. A bundle in another one has no earlier tag.
fn spelled(alloc: Global) -> Result<bool, Unanswered> {
    Ok(
        is_spellable(alloc, b"/sync")?
            && !is_spellable(alloc, b"sync")?
            && !is_spellable(alloc, b"/\0")?
            && is_nestable(alloc, 5, 9)?
            && !is_nestable(alloc, 9, 5)?,
    )
}

fn are_both(frames: &[Frame]) -> bool {
    match frames {
        [a, b] => {
            a.place == 4
                && a.bytes.as_slice() == b"/sync\0\0\0,i\0\0\0\0\0\x07".as_slice()
                && b.place == 24
                && b.bytes.as_slice() == b"/a\0\0".as_slice()
        }
        _ => false,
    }
}

/// Two pieces of a stream have two frames, of which the first is cut, and three bytes are left.
fn framed_stream(alloc: Global) -> Result<bool, Unanswered> {
    let first = Text::from_slice(alloc, b"\0\0\0\x10/sync\0\0")?;
    let second = Text::from_slice(alloc, b"\0,i\0\0\0\0\0\x07\0\0\0\x04/a\0\0\0\0\0")?;
    let (frames, framer) = frames_of(alloc, &[first, second])?;
    Ok(are_both(&frames) && framer.kept() == 3)
}

fn one_extent(alloc: Global, at: u32, len: u32) -> Result<Extents, NoMemory> {
    let mut extents = Extents::new(alloc);
    extents.push(Extent { at, len })?;
    Ok(extents)
}

/// Whether what reads these words clashes with what reads the first 65 words and writes 65 words from word 130 on.
fn is_clash(alloc: Global, at: u32, len: u32, wanted: bool) -> Result<bool, NoMemory> {
    let writer = Foot {
        reads: one_extent(alloc, 0, 65)?,
        writes: one_extent(alloc, 130, 65)?,
    };
    let reader = Foot {
        reads: one_extent(alloc, at, len)?,
        writes: Extents::new(alloc),
    };
    Ok(clash(&writer, &reader) == wanted && clash(&reader, &writer) == wanted)
}

/// Words clash if one writes them, and both read them without a clash.
fn clashing(alloc: Global) -> Result<bool, Unanswered> {
    Ok(
        is_clash(alloc, 130, 1, true)?
            && is_clash(alloc, 194, 1, true)?
            && is_clash(alloc, 195, 5, false)?
            && is_clash(alloc, 129, 1, false)?
            && is_clash(alloc, 0, 65, false)?
            && is_clash(alloc, 131, 0, false)?,
    )
}

/// Words that are stored are loaded.
#[tactic(auto, using(crate::proofs::Plain::plain_may_write, crate::proofs::Plain::plain_may_read))]
fn plain_words(alloc: Global) -> Result<bool, Unanswered> {
    let mut port = PlainPort::new(alloc, 80)?;
    store_words(&mut port, 70, &[4, 5]);
    let mut words = [0u64; 3];
    load_words(&mut port, 69, &mut words);
    Ok(words == [0, 4, 5])
}

/// A list of messages gives them back.
fn listed(alloc: Global) -> Result<bool, Unanswered> {
    let address = Address::from_slice(alloc, b"/quit")?;
    let mut items = Vec::new(alloc);
    items.push(Message {
        address,
        body: Body::Bare,
    })?;
    let back = Messages::from_vec(items).into_vec();
    match back.as_slice() {
        [message] => Ok(message.address.as_slice() == b"/quit".as_slice()),
        _ => Ok(false),
    }
}

/// The calls, and whether each answers as it should.
pub fn calls<H: Files>(rt: &H, alloc: Global) -> [(&'static str, Result<bool, Unanswered>); 18] {
    [
        ("show", shown(alloc)),
        ("into_inner of a sink", given_back(alloc)),
        ("fill of a file", filled(rt)),
        ("print", printed(alloc)),
        ("print arrays", arrays_printed(alloc)),
        ("read arrays", arrays_at_fault(alloc)),
        ("spellable", spelled(alloc)),
        ("frames_of", framed_stream(alloc)),
        ("feed and next", framed_by_bytes(alloc)),
        ("decode", Ok(decoded(alloc))),
        ("due and at", Ok(timed())),
        ("clash", clashing(alloc)),
        ("PlainPort", plain_words(alloc)),
        ("into_vec of messages", listed(alloc)),
        ("next_in_walk", walked(alloc)),
        ("attach", attached(alloc)),
        ("undo of attach", attached_and_undone(alloc)),
        ("payload_mut", written_and_undone(alloc)),
    ]
}
