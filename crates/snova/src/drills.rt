//! The drill that the words choose.
ghost use Rattle.std.specs.Prelude.{◌<◌, ◌^◌, length};

use crate::exit::Exit;
use crate::reasons::tell_last;
use crate::watching::Watch;
use sn_files::NotedSink;
use sn_ports::Word;
use sn_top::drill;
use std::io;
use std::io::{Eprint, Print};
use std::thread::Threads;
use std::time::Clock;

/// Plays the drill that the words choose, says how long it plays if somebody watches, and prints its line.
pub(crate) fn drill_printed<H: Print + Eprint + Clock + AllocGlobal + Threads + Sync>(
    rt: &H,
    words: &[Word],
    is_watched: bool,
) -> Exit
    requires { length words.now < 2 ^ 32 }
{
    let mut out = NotedSink::new(io::writer(rt));
    let watch = Watch::new(rt, is_watched);
    let outcome = drill(rt, rt.alloc(), words, &mut out, &watch);
    watch.end();
    tell_last(rt, "standard output", out.faults().last());
    Exit::Drilled(outcome)
}
