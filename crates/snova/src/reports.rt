//! The files that the words of a plan name.
ghost use Rattle.std.specs.Prelude.{◌≡◌, ◌<◌, ◌^◌, ℕ, Err, false, length, is_some, IsOk};
ghost use Rattle.sn_files.specs.Kept.{AreOne};
ghost use Rattle.sn_render.specs.declared.outcome.Outcome.{Outcome};
ghost use Rattle.sn_words.specs.Words.{plan_words_of};
ghost use Rattle.snova.specs.declared.exit.Exit.{Exit};

use crate::exit::Exit;
use crate::pairs::{Pair, Paths, open_pair};
use crate::reasons::{tell_last, told};
use crate::watching::{Watch, WatchedSource};
use sn_files::{MadeFile, NotedSink, NotedSource};
use sn_ports::Word;
use sn_server::Outcome;
use sn_top::plan_run;
use sn_words::plan_words;
use std::fs::OpenFile;
use std::io::{Eprint, Write};
use std::rt::Files;
use std::thread::Threads;
use std::time::Clock;

/// What a plan answers. If it was done, a file to which no byte was written is emptied first.
fn finished<H: Eprint, F: Write + OpenFile + Drop>(
    rt: &H,
    path: &str,
    outcome: Outcome,
    made: &mut MadeFile<F>,
) -> Outcome
    ensures done { (n : ℕ) → result ≡ Outcome.Done n → (outcome ≡ result) × (made.new.is_kept ≡ false) }
    ensures other { ((n : ℕ) → outcome ≡ Outcome.Done n → ⊥) → (result ≡ outcome) × (made.new ≡ made.old) }
{
    match outcome {
        Outcome::Done { .. } if told(rt, path, made.finish()).is_err() => Outcome::SoundFault,
        _ => outcome,
    }
}

/// Plays one file and writes the report into the other, which holds what it held, for words that choose settings, and
/// says how far it is if somebody watches.
fn plan_over<H: Files + Clock + Eprint + AllocGlobal + Threads + Sync>(
    rt: &H,
    words: &[Word],
    paths: &Paths<'_>,
    pair: Pair<H::File>,
    is_watched: bool,
) -> Outcome
    requires room { length words.now < 2 ^ 32 }
    requires accepted { IsOk (plan_words_of words.now) }
    requires kept { pair.made.is_kept ≡ is_some pair.made.identity }
    requires apart { AreOne pair.made.identity pair.given.identity → ⊥ }
{
    let watch = Watch::new(rt, is_watched);
    let mut source = WatchedSource::new(NotedSource::new(pair.given), &watch);
    let mut out = NotedSink::new(pair.made);
    let outcome = plan_run(rt, rt.alloc(), words, &mut source, &mut out, &watch);
    watch.end();
    let source = source.into_inner();
    tell_last(rt, paths.given, source.faults().last());
    tell_last(rt, paths.made, out.faults().last());
    finished(rt, paths.made, outcome, &mut out.into_inner())
}

/// Writes the report of the file that the words name. If they are refused, no file is opened. Two paths of one file are
/// refused, since it would be written over itself.
pub(crate) fn plan_files<H: Files + Clock + Eprint + AllocGlobal + Threads + Sync>(
    rt: &H,
    args: &[String],
    words: &[Word],
    is_watched: bool,
) -> Exit
    requires { length words.now < 2 ^ 32 }
    ensures { (i : ℕ) → plan_words_of words.now ≡ Err i → result ≡ Exit.Planned (Outcome.BadWords i) }
{
    if let Err(bad) = plan_words(words) {
        return Exit::Planned(Outcome::BadWords { index: bad.index });
    }
    let [.., commands, report] = args else {
        return Exit::NotOpened;
    };
    let paths = Paths {
        given: commands.as_str(),
        made: report.as_str(),
    };
    match open_pair(rt, &paths) {
        Ok(pair) => Exit::Planned(plan_over(rt, words, &paths, pair, is_watched)),
        Err(error) => Exit::unopened(error.kind()),
    }
}
