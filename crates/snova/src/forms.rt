//! The files that the words of a conversion name.
ghost use Rattle.std.specs.Prelude.{◌≡◌, ◌<◌, ◌^◌, ℕ, Err, false, length, is_some, IsOk};
ghost use Rattle.sn_files.specs.Kept.{AreOne};
ghost use Rattle.sn_words.specs.Converting.{convert_words_of};
ghost use Rattle.sn_top.specs.declared.converting.Converted.{Converted};
ghost use Rattle.snova.specs.declared.exit.Exit.{Exit};

use crate::exit::Exit;
use crate::pairs::{Pair, Paths, open_pair};
use crate::reasons::{tell_last, told};
use crate::watching::{Watch, WatchedSink, WatchedSource};
use sn_files::{MadeFile, NotedSink, NotedSource};
use sn_ports::Word;
use sn_top::{Converted, convert};
use sn_words::convert_words;
use std::fs::OpenFile;
use std::io::{Eprint, Write};
use std::rt::Files;
use std::time::Clock;

/// What a conversion answers. If it was done, a file to which no byte was written is emptied first.
fn finished<H: Eprint, F: Write + OpenFile + Drop>(
    rt: &H,
    path: &str,
    converted: Converted,
    made: &mut MadeFile<F>,
) -> Converted
    ensures done { (n : ℕ) → result ≡ Converted.Done n → (converted ≡ result) × (made.new.is_kept ≡ false) }
    ensures other { ((n : ℕ) → converted ≡ Converted.Done n → ⊥) → (result ≡ converted) × (made.new ≡ made.old) }
{
    match converted {
        Converted::Done { .. } if told(rt, path, made.finish()).is_err() => Converted::OutFault,
        _ => converted,
    }
}

/// Converts one file into the other, which holds what it held, for words that choose a conversion, and says how far it
/// is if somebody watches.
fn convert_over<H: Files + Clock + Eprint + AllocGlobal>(
    rt: &H,
    words: &[Word],
    paths: &Paths<'_>,
    pair: Pair<H::File>,
    is_watched: bool,
) -> Converted
    requires room { length words.now < 2 ^ 32 }
    requires accepted { IsOk (convert_words_of words.now) }
    requires kept { pair.made.is_kept ≡ is_some pair.made.identity }
    requires apart { AreOne pair.made.identity pair.given.identity → ⊥ }
{
    let watch = Watch::new(rt, is_watched);
    let mut source = WatchedSource::new(NotedSource::new(pair.given), &watch);
    let mut out = WatchedSink::new(NotedSink::new(pair.made), &watch);
    let converted = convert(rt.alloc(), words, &mut source, &mut out);
    watch.end();
    let (source, out) = (source.into_inner(), out.into_inner());
    tell_last(rt, paths.given, source.faults().last());
    tell_last(rt, paths.made, out.faults().last());
    finished(rt, paths.made, converted, &mut out.into_inner())
}

/// Converts the file that the words name. If they are refused, no file is opened. Two paths of one file are refused,
/// since it would be written over itself.
pub(crate) fn convert_files<H: Files + Clock + Eprint + AllocGlobal>(
    rt: &H,
    args: &[String],
    words: &[Word],
    is_watched: bool,
) -> Exit
    requires { length words.now < 2 ^ 32 }
    ensures { (i : ℕ) → convert_words_of words.now ≡ Err i → result ≡ Exit.Converted (Converted.BadWords i) }
{
    if let Err(bad) = convert_words(words) {
        return Exit::Converted(Converted::BadWords { index: bad.index });
    }
    let [.., given, made] = args else {
        return Exit::NotOpened;
    };
    let paths = Paths {
        given: given.as_str(),
        made: made.as_str(),
    };
    match open_pair(rt, &paths) {
        Ok(pair) => Exit::Converted(convert_over(rt, words, &paths, pair, is_watched)),
        Err(error) => Exit::unopened(error.kind()),
    }
}
