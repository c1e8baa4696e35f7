//! A stream whose commands name files on a shelf.
ghost use Rattle.std.specs.Prelude.{◌≡◌, ◌⊎◌, ◌<◌, ◌^◌, ◌↔◌, ℕ, List, Some, Err, length};
ghost use Rattle.std.specs.Io.KnownBytes.{Keeps};
ghost use Rattle.sn_ports.specs.Causes.{Rose};
ghost use Rattle.sn_render.specs.declared.outcome.Outcome.{Outcome};
ghost use Rattle.sn_shelf.specs.Files.{File};
ghost use Rattle.sn_words.specs.Words.{settings_of};
ghost use Rattle.sn_top.specs.Headline.{AreChosen, ByWords};
ghost use Rattle.sn_top.specs.Shelving.{HasRun, IsShelfRun, PlayedByShelf, TakesByShelf, WritesByShelf, shelf_status};
ghost use Rattle.sn_top.specs.declared.shelving.ShelfOutcome.{ShelfOutcome};

use sn_pcm::Settings;
use sn_ports::{Gate, Sink, Source, Word};
use sn_server::{Outcome, play, read_packets};
use sn_shelf::{Shelf, Unexpanded, expand_all};
use sn_words::settings;
use std::alloc::Global;
use std::thread::Threads;

/// The status if the shelf failed.
const SHELF_FAULT: u8 = 14;

/// How a run over a shelf ended.
#[derive(Clone, Copy, Debug, PartialEq, Eq)]
pub enum ShelfOutcome {
    /// As a run without files ends.
    Ran(Outcome),
    /// The shelf failed.
    ShelfFault,
}

impl ShelfOutcome {
    /// The status of the program.
    pub fn status(&self) -> u8
        ensures { result ≡ shelf_status self.now }
    {
        match self {
            ShelfOutcome::Ran(outcome) => outcome.status(),
            ShelfOutcome::ShelfFault => SHELF_FAULT,
        }
    }
}

/// Reads and decodes a stream, takes in the samples of the files that it names, and plays it.
fn run_stream<H: Threads + Sync, S: Source, L: Shelf, O: Sink, R: Sink, G: Gate>(
    rt: &H,
    alloc: Global,
    settings: &Settings,
    source: &mut S,
    shelf: &mut L,
    sound: &mut O,
    replies: &mut R,
    gate: &G,
) -> ShelfOutcome
    ensures done { (n : ℕ) → result ≡ ShelfOutcome.Ran (Outcome.Done n) → PlayedByShelf settings.now (S.left source.old) (L.files shelf.old) n
        (O.taken sound.old) (O.taken sound.new) (R.taken replies.old) (R.taken replies.new) }
    ensures taken { TakesByShelf result (S.left source.old) (S.left source.new) }
    ensures answer { IsShelfRun settings.now (S.left source.old) (L.files shelf.old) result }
    ensures words { (i : ℕ) → result ≡ ShelfOutcome.Ran (Outcome.BadWords i) → ⊥ }
    ensures read { result ≡ ShelfOutcome.Ran Outcome.ReadFault → Rose (S.faults source.old) (S.faults source.new) }
    ensures shelf { result ≡ ShelfOutcome.ShelfFault → Rose (L.faults shelf.old) (L.faults shelf.new) }
    ensures sound { result ≡ ShelfOutcome.Ran Outcome.SoundFault → Rose (O.faults sound.old) (O.faults sound.new) }
    ensures reply { result ≡ ShelfOutcome.Ran Outcome.ReplyFault → Rose (R.faults replies.old) (R.faults replies.new) }
    ensures source_unfailed { (result ≡ ShelfOutcome.Ran Outcome.ReadFault) ⊎ (S.faults source.new ≡ S.faults source.old) }
    ensures shelf_unfailed { (result ≡ ShelfOutcome.ShelfFault) ⊎ (L.faults shelf.new ≡ L.faults shelf.old) }
    ensures sound_unfailed { (result ≡ ShelfOutcome.Ran Outcome.SoundFault) ⊎ (O.faults sound.new ≡ O.faults sound.old) }
    ensures replies_unfailed { (result ≡ ShelfOutcome.Ran Outcome.ReplyFault) ⊎ (R.faults replies.new ≡ R.faults replies.old) }
    ensures kept { L.files shelf.new ≡ L.files shelf.old }
    ensures written { WritesByShelf settings.now (S.left source.old) (L.files shelf.old) result (O.taken sound.old) (O.taken sound.new) (R.taken replies.old) (R.taken replies.new) }
{
    let packets = match read_packets(alloc, source) {
        Ok(packets) => packets,
        Err(outcome) => return ShelfOutcome::Ran(outcome),
    };
    let expanded = match expand_all(alloc, shelf, packets) {
        Ok(expanded) => expanded,
        Err(Unexpanded::NoMemory) => return ShelfOutcome::Ran(Outcome::NoMemory),
        Err(Unexpanded::Failed) => return ShelfOutcome::ShelfFault,
    };
    ShelfOutcome::Ran(play(rt, alloc, settings, expanded, sound, replies, gate))
}

/// Does what the words `render [key=value ..] COMMANDS SOUND REPLIES` say: reads a command stream, takes in the samples
/// of the files that its commands name, and writes the sound and the replies that it gives.
///
/// The shelf is read after the stream was decoded and before the length is judged. If the words, the stream or its
/// length are refused, or the source or the shelf fails, neither sink takes a byte. If a sink fails, or memory runs out
/// in the midst, each sink took a prefix of the bytes that the whole run gives.
pub fn run_shelf<H: Threads + Sync, S: Source, L: Shelf, O: Sink, R: Sink, G: Gate>(
    rt: &H,
    alloc: Global,
    words: &[Word],
    source: &mut S,
    shelf: &mut L,
    sound: &mut O,
    replies: &mut R,
    gate: &G,
) -> ShelfOutcome
    requires { length words.now < 2 ^ 32 }

    // What was done is the sequential walk of the stream with the samples that came in, by the settings of the words,
    // if the objects tell it.
    ensures done { (n : ℕ) → result ≡ ShelfOutcome.Ran (Outcome.Done n) → (s : Settings) × AreChosen words.now s × PlayedByShelf s (S.left source.old) (L.files shelf.old) n
        (O.taken sound.old) (O.taken sound.new) (R.taken replies.old) (R.taken replies.new) }

    // What was read of the stream, at each answer.
    ensures taken { TakesByShelf result (S.left source.old) (S.left source.new) }

    // Every other answer has its cause, except `NoMemory`.
    ensures words { (i : ℕ) → (result ≡ ShelfOutcome.Ran (Outcome.BadWords i)) ↔ (settings_of words.now ≡ Err i) }
    ensures read { result ≡ ShelfOutcome.Ran Outcome.ReadFault → Rose (S.faults source.old) (S.faults source.new) }
    ensures shelf { result ≡ ShelfOutcome.ShelfFault → Rose (L.faults shelf.old) (L.faults shelf.new) }
    ensures sound { result ≡ ShelfOutcome.Ran Outcome.SoundFault → Rose (O.faults sound.old) (O.faults sound.new) }
    ensures reply { result ≡ ShelfOutcome.Ran Outcome.ReplyFault → Rose (R.faults replies.old) (R.faults replies.new) }

    // Each of the four failed only if its fault is the answer.
    ensures source_unfailed { (result ≡ ShelfOutcome.Ran Outcome.ReadFault) ⊎ (S.faults source.new ≡ S.faults source.old) }
    ensures shelf_unfailed { (result ≡ ShelfOutcome.ShelfFault) ⊎ (L.faults shelf.new ≡ L.faults shelf.old) }
    ensures sound_unfailed { (result ≡ ShelfOutcome.Ran Outcome.SoundFault) ⊎ (O.faults sound.new ≡ O.faults sound.old) }
    ensures replies_unfailed { (result ≡ ShelfOutcome.Ran Outcome.ReplyFault) ⊎ (R.faults replies.new ≡ R.faults replies.old) }

    // If the words choose settings, the answer is one that the stream has with the files. If no count rises either, it
    // is the one that they have, or memory ran out.
    ensures answer { ByWords words.now (λ s. IsShelfRun s (S.left source.old) (L.files shelf.old) result) }
    ensures complete { ByWords words.now (λ s. (bytes : List ℕ) (files : List File) (answer : Outcome) → S.left source.old ≡ Some bytes → L.files shelf.old ≡ Some files → HasRun s bytes files answer
        → (Rose (S.faults source.old) (S.faults source.new) → ⊥) → (Rose (L.faults shelf.old) (L.faults shelf.new) → ⊥)
        → (Rose (O.faults sound.old) (O.faults sound.new) → ⊥) → (Rose (R.faults replies.old) (R.faults replies.new) → ⊥)
        → (result ≡ ShelfOutcome.Ran answer) ⊎ (result ≡ ShelfOutcome.Ran Outcome.NoMemory)) }

    // What each sink took at every other answer: nothing, or a prefix of what the stream gives with the samples that
    // came in.
    ensures written { ByWords words.now (λ s. WritesByShelf s (S.left source.old) (L.files shelf.old) result (O.taken sound.old) (O.taken sound.new) (R.taken replies.old) (R.taken replies.new)) }
    ensures untouched { (i : ℕ) → result ≡ ShelfOutcome.Ran (Outcome.BadWords i) → Keeps (O.taken sound.old) (O.taken sound.new) × Keeps (R.taken replies.old) (R.taken replies.new) }

    // The shelf has the files that it had.
    ensures kept { L.files shelf.new ≡ L.files shelf.old }
{
    match settings(words) {
        Ok(chosen) => run_stream(rt, alloc, &chosen, source, shelf, sound, replies, gate),
        Err(bad) => ShelfOutcome::Ran(Outcome::BadWords { index: bad.index }),
    }
}
