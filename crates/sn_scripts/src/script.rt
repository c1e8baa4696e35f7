//! Scripts as text: one line for each step.
//!
//! `case NAME` begins a case, `with KEY=VALUE ..` gives settings, `at TAG` begins a bundle, `/address argument ..` is a
//! message, and `raw HEX ..` the bytes of a packet. `blob NAME /address ..` names the bytes of a message, and
//! `text NAME` those of the lines up to a line `.`; `@NAME` is such a blob as an argument. An argument that is a whole
//! number is an int, any other is a string, and so is what stands between two `"`. `bytes HEX ..` are bytes of the
//! stream without a size. `many N LINE` is a line N times.
//!
//! `> /address argument ..` is a reply, `= HEX ..` are bytes of the sound after its header, `sum HEX` is the FNV-1a sum
//! of 64 bits of all its bytes in their place, and `blocks N` its length. `same as NAME` stands for the sound and the
//! replies of another case. `ends LINE` is the line that the program prints at the end, if it isn't `done N blocks`.
//! After a refusal nothing was written, and after a fault a prefix of what the case says. `leaves N` says how many
//! bytes of the stream are not taken.
//!
//! `source PIECE CALL ..` lets a call move at most PIECE bytes, and lets the calls of these numbers, from 0, fail; so
//! do `sound` and `replies`.
//!
//! `meet ONE OTHER TURNS` holds each of two jobs until the other has come too, for TURNS turns at most: they must run
//! at the same time. `apart ONE OTHER TURNS` says that they must not. `again TIMES SEED WORKERS ..` renders a case
//! TIMES times by each of these numbers of workers, and each job waits for a drawn number of turns before it runs.
//!
//! `over TAG` makes a case a connection whose block 0 begins at a time, without a header of its sound: `ticks N`
//! delivers what stands above it, and then N blocks are due. The calls of `replies` are then those of the link.
//!
//! `several MOST N ..` makes a case a session whose pulse gives these numbers, in MOST turns at most, without a header
//! of its sound. What stands above a line `client`, or above the end, comes of one client, client 0 first. The replies
//! are those of client 0, then those of client 1, and so on; the calls of `source` and `replies` are those of each
//! client. It ends with how it ended, the number of its turns and how each client ended.
use crate::bytes::{Given, bundle_head, message, put_sized};
use crate::case::{Again, Case, Connection, Hold, Port, Session, Step};
use sn_ports::{NoMemory, Text};
use std::alloc::Global;

/// The cases of a script, and the numbers of the lines that say nothing.
#[derive(Drop)]
pub struct Script {
    pub cases: Vec<Case>,
    pub bad_lines: Vec<u64>,
}

#[derive(Drop)]
struct Blob {
    name: String,
    bytes: Text,
}

/// A script as far as it was read.
#[derive(Drop)]
struct Reader {
    alloc: Global,
    script: Script,
    blobs: Vec<Blob>,
    /// The text that is being read, up to a line `.`.
    is_in_text: bool,
}

fn blob_named<'a>(blobs: &'a [Blob], name: &str) -> Option<&'a [u8]> {
    for blob in blobs {
        if blob.name.as_str() == name {
            return Some(blob.bytes.as_slice());
        }
    }
    None
}

/// A word outside quotes.
fn given<'a>(blobs: &'a [Blob], word: &'a str) -> Option<Given<'a>> {
    if let Some(name) = word.strip_prefix('@') {
        return match blob_named(blobs, name) {
            Some(bytes) => Some(Given::Blob(bytes)),
            None => None,
        };
    }
    match word.parse::<i32>() {
        Ok(value) => Some(Given::Int(value)),
        Err(_) => Some(Given::Word(word)),
    }
}

/// The arguments of a line, or `None` if a blob has no such name or a quote stays open.
fn arguments<'a>(
    alloc: Global,
    blobs: &'a [Blob],
    line: &'a str,
) -> Result<Option<Vec<Given<'a>>>, NoMemory> {
    let mut found = Vec::new(alloc);
    let mut is_quoted = false;
    for part in line.split('"') {
        if is_quoted {
            found.push(Given::Word(part))?;
        } else {
            for word in part.split_whitespace() {
                let Some(argument) = given(blobs, word) else {
                    return Ok(None);
                };
                found.push(argument)?;
            }
        }
        is_quoted = !is_quoted;
    }
    // What follows the last quote is outside.
    Ok(if is_quoted { Some(found) } else { None })
}

/// The bytes of the message that a line gives.
fn message_of(alloc: Global, blobs: &[Blob], line: &str) -> Result<Option<Text>, NoMemory> {
    let (address, rest) = line.split_once(' ').unwrap_or((line, ""));
    if !address.starts_with('/') {
        return Ok(None);
    }
    match arguments(alloc, blobs, rest)? {
        Some(given) => Ok(Some(message(alloc, address, &given)?)),
        None => Ok(None),
    }
}

fn put_hex(out: &mut Text, line: &str) -> Result<bool, NoMemory> {
    for word in line.split_whitespace() {
        match u8::from_str_radix(word, 16) {
            Ok(byte) => out.append(&[byte])?,
            Err(_) => return Ok(false),
        }
    }
    Ok(true)
}

fn put_words(alloc: Global, case: &mut Case, line: &str) -> Result<bool, NoMemory> {
    for word in line.split_whitespace() {
        case.words.push(Text::from_slice(alloc, word.as_bytes())?)?;
    }
    Ok(true)
}

/// Begins a bundle with a time tag.
fn put_bundle(alloc: Global, case: &mut Case, tag: &str) -> Result<bool, NoMemory> {
    let Ok(tag) = tag.parse::<u64>() else {
        return Ok(false);
    };
    case.close_bundle()?;
    case.bundle = Some(bundle_head(alloc, tag)?);
    Ok(true)
}

fn put_raw(alloc: Global, case: &mut Case, hex: &str) -> Result<bool, NoMemory> {
    let mut element = Text::new(alloc);
    if !put_hex(&mut element, hex)? {
        return Ok(false);
    }
    case.put_element(&element)?;
    Ok(true)
}

fn put_reply(
    alloc: Global,
    blobs: &[Blob],
    case: &mut Case,
    reply: &str,
) -> Result<bool, NoMemory> {
    let Some(reply) = message_of(alloc, blobs, reply)? else {
        return Ok(false);
    };
    put_sized(&mut case.replies, reply.as_slice())?;
    Ok(true)
}

fn put_command(
    alloc: Global,
    blobs: &[Blob],
    case: &mut Case,
    line: &str,
) -> Result<bool, NoMemory> {
    let Some(command) = message_of(alloc, blobs, line)? else {
        return Ok(false);
    };
    case.put_element(&command)?;
    Ok(true)
}

/// Makes a case a connection whose block 0 begins at a time tag.
fn put_connection(alloc: Global, case: &mut Case, base: &str) -> bool {
    let Ok(base) = base.parse::<u64>() else {
        return false;
    };
    case.connection = Some(Connection {
        base,
        steps: Vec::new(alloc),
    });
    true
}

fn put_ticks(alloc: Global, case: &mut Case, count: &str) -> Result<bool, NoMemory> {
    let Ok(count) = count.parse::<u32>() else {
        return Ok(false);
    };
    case.send_stream(alloc)?;
    match &mut case.connection {
        Some(connection) => {
            connection.steps.push(Step::Ticks(count))?;
            Ok(true)
        }
        None => Ok(false),
    }
}

/// The numbers of a line, or `None` if one of its words is none.
fn numbers(alloc: Global, line: &str) -> Result<Option<Vec<u32>>, NoMemory> {
    let mut found = Vec::new(alloc);
    for word in line.split_whitespace() {
        match word.parse::<u32>() {
            Ok(number) => found.push(number)?,
            Err(_) => return Ok(None),
        }
    }
    Ok(Some(found))
}

/// Holds two jobs at the gate of a case, by the numbers of a line.
fn hold_jobs(case: &mut Case, numbers: &[u32], meets: bool) -> bool {
    match numbers {
        [one, other, turns] => {
            case.hold = Some(Hold {
                one: *one,
                other: *other,
                turns: *turns,
                meets,
            });
            true
        }
        _ => false,
    }
}

/// Holds two jobs of a case at its gate.
fn put_hold(alloc: Global, case: &mut Case, line: &str, meets: bool) -> Result<bool, NoMemory> {
    match numbers(alloc, line)? {
        Some(numbers) => Ok(hold_jobs(case, &numbers, meets)),
        None => Ok(false),
    }
}

/// A session by the numbers of a line.
fn session(alloc: Global, numbers: &[u32]) -> Result<Option<Session>, NoMemory> {
    match numbers {
        [most, numbers @ ..] => Ok(Some(Session {
            most: *most,
            numbers: Vec::from_slice(alloc, numbers)?,
            streams: Vec::new(alloc),
        })),
        _ => Ok(None),
    }
}

/// Makes a case a session of several clients.
fn put_session(alloc: Global, case: &mut Case, line: &str) -> Result<bool, NoMemory> {
    let Some(numbers) = numbers(alloc, line)? else {
        return Ok(false);
    };
    case.session = session(alloc, &numbers)?;
    Ok(case.session.is_some())
}

/// What stands above comes of one client of the session.
fn put_client(alloc: Global, case: &mut Case) -> Result<bool, NoMemory> {
    case.send_stream(alloc)?;
    Ok(case.session.is_some())
}

/// How a case is rendered again by the numbers of a line.
fn again(alloc: Global, numbers: &[u32]) -> Result<Option<Again>, NoMemory> {
    match numbers {
        [times, seed, workers @ ..] => Ok(Some(Again {
            workers: Vec::from_slice(alloc, workers)?,
            times: *times,
            seed: u64::from(*seed),
        })),
        _ => Ok(None),
    }
}

/// Lets a case be rendered again by other numbers of workers.
fn put_again(alloc: Global, case: &mut Case, line: &str) -> Result<bool, NoMemory> {
    let Some(numbers) = numbers(alloc, line)? else {
        return Ok(false);
    };
    case.again = again(alloc, &numbers)?;
    Ok(case.again.is_some())
}

/// Sets how many bytes a call may move at most, and which calls fail.
fn put_port(alloc: Global, port: &mut Port, line: &str) -> Result<bool, NoMemory> {
    let (piece, calls) = line.split_once(' ').unwrap_or((line, ""));
    let Ok(piece) = piece.parse::<u32>() else {
        return Ok(false);
    };
    let Some(fails) = numbers(alloc, calls)? else {
        return Ok(false);
    };
    port.piece = piece;
    port.fails = fails;
    Ok(true)
}

fn put_same(alloc: Global, case: &mut Case, words: &str) -> Result<bool, NoMemory> {
    let Some(name) = words.strip_prefix("as ") else {
        return Ok(false);
    };
    case.same = Some(String::from_str(alloc, name)?);
    Ok(true)
}

fn put_blocks(case: &mut Case, number: &str) -> bool {
    match number.parse::<u64>() {
        Ok(blocks) => {
            case.blocks = blocks;
            true
        }
        Err(_) => false,
    }
}

fn put_left(case: &mut Case, number: &str) -> bool {
    case.left = number.parse::<u64>().ok();
    case.left.is_some()
}

fn put_ending(alloc: Global, case: &mut Case, line: &str) -> Result<bool, NoMemory> {
    case.ending = Some(String::from_str(alloc, line)?);
    Ok(true)
}

fn put_sum(case: &mut Case, hex: &str) -> bool {
    case.sum = u64::from_str_radix(hex, 16).ok();
    case.sum.is_some()
}

/// Bytes of the stream without a size.
fn put_bytes(case: &mut Case, hex: &str) -> Result<bool, NoMemory> {
    case.close_bundle()?;
    put_hex(&mut case.stream, hex)
}

/// A line of a case: its first word, and what follows.
#[derive(Clone, Copy)]
struct Line<'a> {
    whole: &'a str,
    word: &'a str,
    rest: &'a str,
}

/// A line of what goes in. It returns whether the line says something.
fn stream_line(
    alloc: Global,
    blobs: &[Blob],
    case: &mut Case,
    line: Line<'_>,
) -> Result<bool, NoMemory> {
    match line.word {
        "with" => put_words(alloc, case, line.rest),
        "at" => put_bundle(alloc, case, line.rest),
        "raw" => put_raw(alloc, case, line.rest),
        "bytes" => put_bytes(case, line.rest),
        _ => put_command(alloc, blobs, case, line.whole),
    }
}

/// A line of how calls move and fail, or of what goes in.
fn port_line(
    alloc: Global,
    blobs: &[Blob],
    case: &mut Case,
    line: Line<'_>,
) -> Result<bool, NoMemory> {
    match line.word {
        "source" => put_port(alloc, &mut case.source_port, line.rest),
        "sound" => put_port(alloc, &mut case.sound_port, line.rest),
        "replies" => put_port(alloc, &mut case.reply_port, line.rest),
        _ => stream_line(alloc, blobs, case, line),
    }
}

/// A line of how a case is tried, or another one.
fn trial_line(
    alloc: Global,
    blobs: &[Blob],
    case: &mut Case,
    line: Line<'_>,
) -> Result<bool, NoMemory> {
    match line.word {
        "over" => Ok(put_connection(alloc, case, line.rest)),
        "several" => put_session(alloc, case, line.rest),
        "client" => put_client(alloc, case),
        "ticks" => put_ticks(alloc, case, line.rest),
        "again" => put_again(alloc, case, line.rest),
        "meet" => put_hold(alloc, case, line.rest, true),
        "apart" => put_hold(alloc, case, line.rest, false),
        _ => port_line(alloc, blobs, case, line),
    }
}

/// A line of what is to come, or another one.
fn outcome_line(
    alloc: Global,
    blobs: &[Blob],
    case: &mut Case,
    line: Line<'_>,
) -> Result<bool, NoMemory> {
    match line.word {
        "ends" => put_ending(alloc, case, line.rest),
        "blocks" => Ok(put_blocks(case, line.rest)),
        "leaves" => Ok(put_left(case, line.rest)),
        "=" => put_hex(&mut case.sound, line.rest),
        "sum" => Ok(put_sum(case, line.rest)),
        "same" => put_same(alloc, case, line.rest),
        ">" => put_reply(alloc, blobs, case, line.rest),
        _ => trial_line(alloc, blobs, case, line),
    }
}

/// A line of a case. It returns whether the line says something.
fn case_line(alloc: Global, blobs: &[Blob], case: &mut Case, line: &str) -> Result<bool, NoMemory> {
    let (word, rest) = line.split_once(' ').unwrap_or((line, ""));
    let line = Line {
        whole: line,
        word,
        rest,
    };
    outcome_line(alloc, blobs, case, line)
}

/// A line as many times as the number before it says, if there is one. It returns whether the line says something.
fn case_lines(
    alloc: Global,
    blobs: &[Blob],
    case: &mut Case,
    line: &str,
) -> Result<bool, NoMemory> {
    let Some(many) = line.strip_prefix("many ") else {
        return case_line(alloc, blobs, case, line);
    };
    let (number, line) = many.split_once(' ').unwrap_or((many, ""));
    let Ok(number) = number.parse::<u32>() else {
        return Ok(false);
    };
    for _ in 0..number {
        if !case_line(alloc, blobs, case, line)? {
            return Ok(false);
        }
    }
    Ok(true)
}

impl Reader {
    fn new(alloc: Global) -> Reader {
        Reader {
            alloc,
            script: Script {
                cases: Vec::new(alloc),
                bad_lines: Vec::new(alloc),
            },
            blobs: Vec::new(alloc),
            is_in_text: false,
        }
    }

    fn put_blob(&mut self, name: &str, bytes: Text) -> Result<(), NoMemory> {
        self.blobs.push(Blob {
            name: String::from_str(self.alloc, name)?,
            bytes,
        })?;
        Ok(())
    }

    /// A line of the text that is being read.
    fn text_line(&mut self, line: &str) -> Result<bool, NoMemory> {
        if line == "." {
            self.is_in_text = false;
        } else if let Some(blob) = self.blobs.last_mut() {
            blob.bytes.append(line.as_bytes())?;
            blob.bytes.append(b"\n")?;
        }
        Ok(true)
    }

    fn begin_case(&mut self, name: &str) -> Result<bool, NoMemory> {
        self.script.cases.push(Case::new(self.alloc, name)?)?;
        Ok(true)
    }

    fn begin_text(&mut self, name: &str) -> Result<bool, NoMemory> {
        self.put_blob(name, Text::new(self.alloc))?;
        self.is_in_text = true;
        Ok(true)
    }

    /// A blob by its name and its message. It returns whether the line says something.
    fn blob_line(&mut self, rest: &str) -> Result<bool, NoMemory> {
        let (name, command) = rest.split_once(' ').unwrap_or((rest, ""));
        match message_of(self.alloc, &self.blobs, command)? {
            Some(bytes) => {
                self.put_blob(name, bytes)?;
                Ok(true)
            }
            None => Ok(false),
        }
    }

    /// A line of the case that was begun last. It returns whether the line says something.
    fn line_of_case(&mut self, line: &str) -> Result<bool, NoMemory> {
        match self.script.cases.last_mut() {
            Some(case) => case_lines(self.alloc, &self.blobs, case, line),
            None => Ok(false),
        }
    }

    /// A line by itself. It returns whether the line says something.
    fn line(&mut self, line: &str) -> Result<bool, NoMemory> {
        if self.is_in_text {
            return self.text_line(line);
        }
        if line.is_empty() || line.starts_with('#') {
            return Ok(true);
        }
        let (word, rest) = line.split_once(' ').unwrap_or((line, ""));
        match word {
            "case" => self.begin_case(rest),
            "text" => self.begin_text(rest),
            "blob" => self.blob_line(rest),
            _ => self.line_of_case(line),
        }
    }
}

/// The cases of a script.
pub fn read_cases(alloc: Global, text: &str) -> Result<Script, NoMemory> {
    let mut reader = Reader::new(alloc);
    let mut number: u64 = 0;
    for line in text.lines() {
        number = number.saturating_add(1);
        if !reader.line(line)? {
            reader.script.bad_lines.push(number)?;
        }
    }
    for case in reader.script.cases.iter_mut() {
        case.send_stream(alloc)?;
        put_words(alloc, case, "commands sound replies")?;
    }
    Ok(reader.script)
}
