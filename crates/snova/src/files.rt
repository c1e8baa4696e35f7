//! The files that the words of a rendering name.
ghost use Rattle.std.specs.Prelude.{◌≡◌, ◌<◌, ◌^◌, ℕ, Err, false, length, is_some, IfOk, IsTrue, IsOk};
ghost use Rattle.sn_render.specs.declared.outcome.Outcome.{Outcome};
ghost use Rattle.sn_files.specs.Kept.{AreOne};
ghost use Rattle.sn_words.specs.Words.{settings_of};
ghost use Rattle.snova.specs.Paths.{are_apart};
ghost use Rattle.snova.specs.declared.exit.Exit.{Exit};
ghost use Rattle.sn_top.specs.declared.shelving.ShelfOutcome.{ShelfOutcome};

use crate::exit::Exit;
use crate::progress::Progress;
use crate::reasons::{named_twice, stands_once, tell_last, told};
use sn_files::{GivenFile, MadeFile, NotedSink, NotedSource};
use sn_ports::{Open, Word};
use sn_server::Outcome;
use sn_shelf::{FolderShelf, Unread};
use sn_top::{ShelfOutcome, run_shelf};
use sn_words::settings;
use std::fs::OpenFile;
use std::io;
use std::io::{Eprint, Read, Write};
use std::rt::Files;
use std::thread::Threads;
use std::time::Clock;

/// The paths of a rendering.
#[derive(Clone, Copy)]
struct Paths<'a> {
    commands: &'a str,
    sound: &'a str,
    replies: &'a str,
}

impl<'a> Paths<'a> {
    /// Whether no two paths are spelled alike.
    fn are_apart(&self) -> bool
        ensures { result ≡ are_apart self.now.commands.now self.now.sound.now self.now.replies.now }
    {
        self.commands != self.sound && self.commands != self.replies && self.sound != self.replies
    }

    /// One of two that are spelled alike.
    fn alike(&self) -> &'a str {
        if self.commands == self.replies {
            self.replies
        } else {
            self.sound
        }
    }
}

/// The files of a rendering. None of them was read or written.
#[derive(Drop)]
struct Opened<F: Read + Write + OpenFile + Drop> {
    commands: GivenFile<F>,
    sound: MadeFile<F>,
    replies: MadeFile<F>,
}

/// Opens the files of a rendering. No two of them are one file.
fn open_all<H: Files + Eprint>(rt: &H, paths: &Paths<'_>) -> io::Result<Opened<H::File>>
    requires apart { IsTrue (are_apart paths.now.commands.now paths.now.sound.now paths.now.replies.now) }
    ensures kept { IfOk result (λ files. (files.sound.is_kept ≡ is_some files.sound.identity) × (files.replies.is_kept ≡ is_some files.replies.identity)) }
    ensures sound { IfOk result (λ files. AreOne files.sound.identity files.commands.identity → ⊥) }
    ensures replies { IfOk result (λ files. AreOne files.replies.identity files.commands.identity → ⊥) }
    ensures both { IfOk result (λ files. AreOne files.replies.identity files.sound.identity → ⊥) }
{
    let commands = told(rt, paths.commands, GivenFile::open(rt, paths.commands))?;
    let sound = told(rt, paths.sound, MadeFile::open(rt, paths.sound))?;
    let replies = told(rt, paths.replies, MadeFile::open(rt, paths.replies))?;
    stands_once(rt, paths.sound, sound.identity(), commands.identity())?;
    stands_once(rt, paths.replies, replies.identity(), commands.identity())?;
    stands_once(rt, paths.replies, replies.identity(), sound.identity())?;
    Ok(Opened {
        commands,
        sound,
        replies,
    })
}

/// What a run answers. If it was done, a file to which no byte was written is emptied first.
fn finished<H: Eprint, F: Write + OpenFile + Drop>(
    rt: &H,
    paths: &Paths<'_>,
    outcome: ShelfOutcome,
    sound: &mut MadeFile<F>,
    replies: &mut MadeFile<F>,
) -> ShelfOutcome
    ensures done { (n : ℕ) → result ≡ ShelfOutcome.Ran (Outcome.Done n) → (outcome ≡ result) × (sound.new.is_kept ≡ false) × (replies.new.is_kept ≡ false) }
    ensures other { ((n : ℕ) → outcome ≡ ShelfOutcome.Ran (Outcome.Done n) → ⊥) → (result ≡ outcome) × (sound.new ≡ sound.old) × (replies.new ≡ replies.old) }
{
    if !matches!(outcome, ShelfOutcome::Ran(Outcome::Done { .. })) {
        return outcome;
    }
    if told(rt, paths.sound, sound.finish()).is_err() {
        return ShelfOutcome::Ran(Outcome::SoundFault);
    }
    if told(rt, paths.replies, replies.finish()).is_err() {
        return ShelfOutcome::Ran(Outcome::ReplyFault);
    }
    outcome
}

/// Says which file on the shelf failed, and why, if one did.
fn tell_unread<H: Eprint>(rt: &H, unread: &Option<Unread>) {
    match unread {
        None => {}
        Some(unread) => tell_last(
            rt,
            str::from_utf8(unread.name.as_slice()).unwrap_or(""),
            Some(unread.error),
        ),
    }
}

/// Runs over files that hold what they held, for words that choose settings, and says how far it is if somebody
/// watches, and why if a file fails.
fn run_over<H: Files + Clock + Eprint + AllocGlobal + Threads + Sync>(
    rt: &H,
    words: &[Word],
    paths: &Paths<'_>,
    files: Opened<H::File>,
    is_watched: bool,
) -> ShelfOutcome
    requires room { length words.now < 2 ^ 32 }
    requires accepted { IsOk (settings_of words.now) }
    requires kept { (files.sound.is_kept ≡ is_some files.sound.identity) × (files.replies.is_kept ≡ is_some files.replies.identity) }
    requires sound { AreOne files.sound.identity files.commands.identity → ⊥ }
    requires replies { AreOne files.replies.identity files.commands.identity → ⊥ }
    requires both { AreOne files.replies.identity files.sound.identity → ⊥ }
{
    let mut source = NotedSource::new(files.commands);
    let mut shelf = FolderShelf::new(rt, rt.alloc());
    let mut sound = Progress::new(NotedSink::new(files.sound), rt, is_watched);
    let mut replies = NotedSink::new(files.replies);
    let outcome = run_shelf(
        rt,
        rt.alloc(),
        words,
        &mut source,
        &mut shelf,
        &mut sound,
        &mut replies,
        &Open,
    );
    let sound = sound.end();
    tell_last(rt, paths.commands, source.faults().last());
    tell_unread(rt, shelf.unread());
    tell_last(rt, paths.sound, sound.faults().last());
    tell_last(rt, paths.replies, replies.faults().last());
    let (mut sound, mut replies) = (sound.into_inner(), replies.into_inner());
    finished(rt, paths, outcome, &mut sound, &mut replies)
}

/// Renders the file at the first of the paths, the last three of words that choose settings. Two paths of one file are
/// refused, since one would be written over the other.
fn render_paths<H: Files + Clock + Eprint + AllocGlobal + Threads + Sync>(
    rt: &H,
    words: &[Word],
    paths: &Paths<'_>,
    is_watched: bool,
) -> io::Result<ShelfOutcome>
    requires room { length words.now < 2 ^ 32 }
    requires accepted { IsOk (settings_of words.now) }
{
    if !paths.are_apart() {
        return Err(named_twice(rt, paths.alike()));
    }
    let files = open_all(rt, paths)?;
    Ok(run_over(rt, words, paths, files, is_watched))
}

/// Renders the file that the words name, and says how far it is if somebody watches. If the words are refused, no file
/// is opened.
pub(crate) fn render_files<H: Files + Clock + Eprint + AllocGlobal + Threads + Sync>(
    rt: &H,
    args: &[String],
    words: &[Word],
    is_watched: bool,
) -> Exit
    requires { length words.now < 2 ^ 32 }
    ensures { (i : ℕ) → settings_of words.now ≡ Err i → result ≡ Exit.Rendered (ShelfOutcome.Ran (Outcome.BadWords i)) }
{
    if let Err(bad) = settings(words) {
        return Exit::Rendered(ShelfOutcome::Ran(Outcome::BadWords { index: bad.index }));
    }
    let [.., commands, sound, replies] = args else {
        return Exit::NotOpened;
    };
    let paths = Paths {
        commands: commands.as_str(),
        sound: sound.as_str(),
        replies: replies.as_str(),
    };
    match render_paths(rt, words, &paths, is_watched) {
        Ok(outcome) => Exit::Rendered(outcome),
        Err(error) => Exit::unopened(error.kind()),
    }
}
