//! Reading a whole score.
ghost use Rattle.std.specs.Prelude.{◌≡◌, ◌≤◌, ◌<◌, ◌^◌, ℕ, List, length, map, Ok, Err, IfOk};
ghost use Rattle.sn_osc.specs.Shape.{Shape, shape};
ghost use Rattle.sn_score.specs.declared.fault.Unscored.TheVariants as unscored;
ghost use Rattle.sn_score.specs.Score.{Score};
ghost use Rattle.sn_score.specs.Faults.{ScoreFault};
ghost use Rattle.sn_score.specs.Reached.{at_start, after_line, at_end, lines_at, pieces, read};
ghost use Rattle.sn_score.specs.Answers.{Reads, NextGives, reached, texts};

use crate::draft::Draft;
use crate::fault::{Refused, Unscored};
use sn_osc::Packet;
use std::alloc::{AllocError, Global};

/// A list of packets.
pub type Packets = Vec<Packet>;

/// What stands between line feeds.
fn pieces(alloc: Global, text: &[u8]) -> Result<Vec<&[u8]>, AllocError>
    ensures { IfOk result (λ v. texts v.items ≡ pieces text.now) }
{
    text.split(|byte| *byte == b'\n').collect(alloc)
}

/// One more line, which has this number.
fn next_line(alloc: Global, draft: Draft, number: u32, line: &[u8]) -> Result<Draft, Unscored>
    ensures { NextGives number result (after_line (reached draft) line.now) }
{
    match draft.with_line(alloc, line) {
        Ok(next) => Ok(next),
        Err(Refused::NoMemory) => Err(Unscored::NoMemory),
        Err(Refused::Fault) => Err(Unscored::Bad { line: number }),
    }
}

/// What follows the last line feed, as if it were the line of this number.
#[tactic(auto, unfolding(crate::specs::Reached::at_end))]
fn end(draft: Draft, number: u32, rest: &[u8]) -> Result<Packets, Unscored>
    ensures { Reads (λ v. map shape v.items) result (at_end (reached draft) number rest.now) }
{
    if !rest.is_empty() {
        return Err(Unscored::Bad { line: number });
    }
    match draft.into_packets() {
        Some(packets) => Ok(packets),
        None => Err(Unscored::Bad { line: number }),
    }
}

/// All lines, and what follows the last line feed.
fn read_lines(alloc: Global, lines: &[&[u8]]) -> Result<Packets, Unscored>
    requires { length lines.now ≤ 2 ^ 31 }
    ensures { Reads (λ v. map shape v.items) result (lines_at at_start 1 (texts lines.now)) }
{
    let mut draft = Draft::new(alloc);
    let mut number = 1;
    for (at, line) in lines.iter().enumerate() {
        if at + 1 == lines.len() {
            return end(draft, number, line);
        }
        draft = next_line(alloc, draft, number, line)?;
        number += 1;
    }
    Err(Unscored::Bad { line: number })
}

/// What the text is, read line by line.
#[tactic(auto, unfolding(crate::specs::Reached::read))]
fn read(alloc: Global, text: &[u8]) -> Result<Packets, Unscored>
    requires { length text.now < 2 ^ 31 }
    ensures { Reads (λ v. map shape v.items) result (read text.now) }
{
    let pieces = pieces(alloc, text)?;
    read_lines(alloc, &pieces)
}

/// The packets of a score, or the first line at which no score goes on.
///
/// # Errors
///
/// `Bad` comes exactly if the text is no score.
pub fn read_score(alloc: Global, text: &[u8]) -> Result<Packets, Unscored>
    requires { length text.now < 2 ^ 31 }
    // Packets come only if the text is theirs, and a fault only if it is the first.
    ensures found { IfOk result (λ v. Score text.now (map shape v.items)) }
    ensures bad { (number : ℕ) → result ≡ Err (unscored.Bad number) → ScoreFault text.now number }
    // What is written is read, and what is at fault is refused, unless memory runs out.
    ensures only_found { (packets : List Shape) → Score text.now packets → Reads (λ v. map shape v.items) result (Ok packets) }
    ensures only_bad { (number : ℕ) → ScoreFault text.now number → Reads (λ v. map shape v.items) result (Err number) }
{
    read(alloc, text)
}
