ghost use Rattle.std.specs.Prelude.{◌≡◌, ◌⊎◌, ◌<◌, ◌^◌, ◌↔◌, ℕ, List, Some, Err, length};
ghost use Rattle.std.specs.Io.KnownBytes.{Keeps};
ghost use Rattle.sn_ports.specs.Limits.{most_count};
ghost use Rattle.sn_ports.specs.Causes.{Rose};
ghost use Rattle.sn_ports.specs.Links.{LinkEvent, KeepsEvents};
ghost use Rattle.sn_pcm.specs.declared.settings.Settings.{Settings};
ghost use Rattle.sn_render.specs.Faults.{NothingFailed};
ghost use Rattle.sn_server.specs.PlayEvents.{bytes_in, play_events};
ghost use Rattle.sn_server.specs.Served.{AtClose, GivesEnd};
ghost use Rattle.sn_server.specs.declared.ended.Ended.{Ended};
ghost use Rattle.sn_words.specs.Serving.{serve_words_of};
ghost use Rattle.sn_top.specs.Connection.{AreServed, ByServeWords, served_status};

use sn_ports::{Gate, Link, Sink, Word};
use sn_server::{Ended, serve_one};
use sn_words::serve_words;
use std::alloc::Global;
use std::thread::Threads;

/// What came of serving.
#[derive(Clone, Copy, Debug, PartialEq, Eq)]
pub enum Served {
    /// The words spell no settings and no port. The first bad word has this index, from 0.
    BadWords { index: u32 },
    /// A connection was served, and this is how it ended.
    Ran(Ended),
}

impl Served {
    /// The status of the program.
    pub fn status(&self) -> u8
        ensures { result ≡ served_status self.now }
    {
        match self {
            Served::BadWords { .. } => 2,
            Served::Ran(ended) => ended.status(),
        }
    }
}

/// Does what the words `serve [key=value ..] PORT SOUND` say over one connection, with block 0 at the time tag `base`:
/// takes what comes over it, sends the replies, and writes the sound as PCM without a header.
pub fn serve<H: Threads + Sync, L: Link, O: Sink, G: Gate>(
    rt: &H,
    alloc: Global,
    words: &[Word],
    base: u64,
    link: &mut L,
    sound: &mut O,
    gate: &G,
) -> Served
    requires { length words.now < 2 ^ 32 }

    // The events that were taken give the end by the settings of the words, and what they give was written. Or the last
    // one was cut short, by a fault or because memory ran out. Each is said if the objects tell it.
    ensures served { (how : Ended) → result ≡ Served.Ran how → (s : Settings) × AreServed words.now s × GivesEnd s base
        (L.left link.old) (L.left link.new) (O.taken sound.old) (O.taken sound.new) (L.sent link.old) (L.sent link.new) how }
    ensures close { (how : Ended) → result ≡ Served.Ran how → AtClose how (L.left link.old) (L.left link.new) }

    // Every other answer has its cause, except `NoMemory`.
    ensures words { (i : ℕ) → (result ≡ Served.BadWords i) ↔ (serve_words_of words.now ≡ Err i) }
    ensures link { result ≡ Served.Ran Ended.LinkFault → Rose (L.faults link.old) (L.faults link.new) }
    ensures sound { result ≡ Served.Ran Ended.SoundFault → Rose (O.faults sound.old) (O.faults sound.new) }

    // Each of the two failed only if its fault is the answer.
    ensures link_unfailed { (result ≡ Served.Ran Ended.LinkFault) ⊎ (L.faults link.new ≡ L.faults link.old) }
    ensures sound_unfailed { (result ≡ Served.Ran Ended.SoundFault) ⊎ (O.faults sound.new ≡ O.faults sound.old) }

    // If the words choose settings and no count rises, the end is the one that all events give, or memory ran out.
    ensures complete { ByServeWords words.now (λ s. (events : List LinkEvent) → L.left link.old ≡ Some events → bytes_in events < most_count
        → (Rose (L.faults link.old) (L.faults link.new) → ⊥) → (Rose (O.faults sound.old) (O.faults sound.new) → ⊥)
        → (result ≡ Served.Ran (play_events s base events).ending) ⊎ (result ≡ Served.Ran Ended.NoMemory)) }

    // If the words are refused, nothing was taken, sent or written, and nothing failed.
    ensures untouched { (i : ℕ) → result ≡ Served.BadWords i
        → KeepsEvents (L.left link.old) (L.left link.new) × Keeps (L.sent link.old) (L.sent link.new) × Keeps (O.taken sound.old) (O.taken sound.new)
        × NothingFailed (L.faults link.old) (L.faults link.new) (O.faults sound.old) (O.faults sound.new) }
{
    match serve_words(words) {
        Ok(chosen) => {
            let how = serve_one(rt, alloc, &chosen.settings, base, link, sound, gate);
            Served::Ran(how)
        }
        Err(bad) => Served::BadWords { index: bad.index },
    }
}
