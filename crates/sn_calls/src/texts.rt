//! Rows of a definition's text in which one line is changed, each with the first fault that is read.
ghost use Rattle.sn_calls.specs.Ready.{Always};

use crate::line::{Answer, Line, Rows, Unanswered, said};
use sn_def::{Unread, read};
use std::alloc::Global;

/// The text before a line of it is changed.
pub(crate) const TONE: &str =
    "snova 1\ndef tone\ncontrol freq 440000\ncontrol out 0\na = SinOsc freq 0\nOut.ar out a\nend\n";

/// What becomes of a line.
#[derive(Clone, Copy)]
enum Change<'a> {
    /// Another line stands in its place.
    Instead(&'a str),
    /// Another line comes after it.
    After(&'a str),
    /// This many controls come after it.
    Controls(u32),
    /// It is left out.
    Without,
}

/// Changes of a text, which keep nothing.
#[derive(Drop)]
pub struct TextRows {
    pub alloc: Global,
}

fn push_line(out: &mut String, line: &str) -> Result<(), Unanswered> {
    out.push_str(line)?;
    out.push_str("\n")?;
    Ok(())
}

/// Puts in `count` controls, each with a name of its own.
fn push_controls(alloc: Global, out: &mut String, count: u32) -> Result<(), Unanswered> {
    for number in 0..count {
        push_line(out, format!(in alloc; "control c{number} 0")?.as_str())?;
    }
    Ok(())
}

/// Puts in what becomes of a line.
fn push_changed(
    alloc: Global,
    out: &mut String,
    line: &str,
    change: Change<'_>,
) -> Result<(), Unanswered> {
    match change {
        Change::Instead(other) => push_line(out, other),
        Change::After(other) => {
            push_line(out, line)?;
            push_line(out, other)
        }
        Change::Controls(count) => {
            push_line(out, line)?;
            push_controls(alloc, out, count)
        }
        Change::Without => Ok(()),
    }
}

/// The text with a change of the line of a number, from 1.
fn changed(alloc: Global, number: u32, change: Change<'_>) -> Answer {
    let mut out = String::new(alloc);
    let mut at: u32 = 0;
    for line in TONE.lines() {
        at = at.saturating_add(1);
        if at == number {
            push_changed(alloc, &mut out, line, change)?;
        } else {
            push_line(&mut out, line)?;
        }
    }
    Ok(out)
}

/// The line and the kind of the first fault of a text.
fn first_fault(alloc: Global, text: &str) -> Answer {
    match read(alloc, text.as_bytes()) {
        Ok(_) => said(alloc, "none"),
        Err(Unread::Bad(fault)) => Ok(format!(in alloc; "{} {:?}", fault.line, fault.kind)?),
        Err(Unread::NoMemory) => Err(Unanswered::NoMemory),
    }
}

fn change_of<'a>(verb: &str, line: &mut Line<'a>) -> Result<Change<'a>, Unanswered> {
    match verb {
        "instead" => Ok(Change::Instead(line.rest())),
        "after" => Ok(Change::After(line.rest())),
        "controls" => Ok(Change::Controls(line.natural()?)),
        "without" => Ok(Change::Without),
        _ => Err(Unanswered::NoRow),
    }
}

impl Rows for TextRows {
    ghost ready = { λ _. Always };

    fn answer(&mut self, line: &mut Line<'_>) -> Answer {
        let alloc = self.alloc;
        let verb = line.word();
        let number = line.natural()?;
        let change = change_of(verb, line)?;
        let text = changed(alloc, number, change)?;
        first_fault(alloc, text.as_str())
    }
}
