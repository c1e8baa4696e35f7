//! A sound server: reads a file of commands, or serves a connection, and writes its sound and its replies.
//! It also writes commands as text, makes commands of a text, plays commands that a seed chooses, and reports what may
//! run beside what.
#![tactic(auto)]

mod clock;
mod drills;
mod exit;
mod files;
mod forms;
mod listening;
mod pacing;
mod pairs;
mod progress;
mod reasons;
mod reports;
mod several;
mod usage;
mod watching;

use drills::drill_printed;
use exit::{BAD_WORDS, Exit};
use files::render_files;
use forms::convert_files;
use listening::serve_port;
use reports::plan_files;
use sn_ports::{NoMemory, Text, Word};
use std::io::{Eprint, IsTerminal, Print};
use std::net::{Net, TcpListener, TcpStream};
use std::process::ExitCode;
use std::rt::{Clock, Env, Files};
use std::sync::Wait;
use std::thread::Threads;
use std::{env, io};
use usage::{Call, USAGE, call_of};

/// The words after the program's name. Words that are no text count as none.
fn given<H: Env + AllocGlobal>(rt: &H) -> Result<Vec<String>, NoMemory> {
    let mut words = Vec::new(rt.alloc());
    let args = match env::args(rt) {
        Ok(args) => args,
        Err(error) if error.kind() == io::ErrorKind::OutOfMemory => return Err(NoMemory),
        Err(_) => return Ok(words),
    };
    for arg in args.skip(1) {
        words.push(arg)?;
    }
    Ok(words)
}

fn as_words<H: AllocGlobal>(rt: &H, args: &[String]) -> Result<Vec<Word>, NoMemory> {
    let mut words = Vec::new(rt.alloc());
    for arg in args {
        words.push(Text::from_slice(rt.alloc(), arg.as_bytes())?)?;
    }
    Ok(words)
}

/// Does what the words of the command line say, and tells how far it is if somebody watches.
fn carry_out<
    H: Env
        + Files
        + Clock
        + Print
        + Eprint
        + Net<Listener = TcpListener, Stream = TcpStream>
        + AllocGlobal
        + Threads
        + Wait
        + Sync,
>(rt: &H, is_watched: bool) -> Result<Exit, NoMemory> {
    let args = given(rt)?;
    let words = as_words(rt, &args)?;
    if u32::try_from(words.len()).is_err() {
        return Err(NoMemory);
    }
    Ok(match call_of(&words) {
        Call::Help => Exit::Help,
        Call::Version => Exit::Version,
        Call::Serve => serve_port(rt, &args, &words),
        Call::Convert => convert_files(rt, &args, &words, is_watched),
        Call::Drill => drill_printed(rt, &words, is_watched),
        Call::Plan => plan_files(rt, &args, &words, is_watched),
        Call::Render => render_files(rt, &args, &words, is_watched),
    })
}

fn main(rt: HostRuntime) -> io::Result<ExitCode> {
    let is_watched = rt.stderr().is_terminal();
    let exit = carry_out(&rt, is_watched).unwrap_or(Exit::NoMemory);
    // Whether anything can be printed or not, the status stands.
    if exit.has_line() {
        let _ = println!(rt; "{exit}");
    }
    let status = exit.status();
    if status == BAD_WORDS {
        let _ = rt.eprintln(USAGE);
    }
    Ok(ExitCode::from(status))
}
