ghost use Rattle.std.specs.Prelude.{◌≡◌, ◌⊎◌, ◌<◌, ◌^◌, ◌↔◌, ℕ, List, Some, Ok, Err, length};
ghost use Rattle.std.specs.Io.KnownBytes.{Keeps};
ghost use Rattle.sn_ports.specs.Causes.{Rose};
ghost use Rattle.sn_pcm.specs.declared.settings.Settings.{Settings};
ghost use Rattle.sn_render.specs.Outcomes.{Played, IsAnswer, HasAnswer, TakesStream, Writes};
ghost use Rattle.sn_render.specs.declared.outcome.Outcome.{Outcome};
ghost use Rattle.sn_words.specs.Words.{settings_of};
ghost use Rattle.sn_top.specs.Headline.{AreChosen, ByWords};

use sn_ports::{Gate, Sink, Source, Word};
use sn_server::{Outcome, render};
use sn_words::settings;
use std::alloc::Global;
use std::thread::Threads;

/// Does what the words `render [key=value ..] COMMANDS SOUND REPLIES` say: reads a command stream, and writes the sound
/// and the replies that it gives.
///
/// If the words, the stream or its length are refused, or the source fails, neither sink takes a byte. If a sink fails,
/// or memory runs out in the midst, each sink took a prefix of the bytes that the whole run gives.
pub fn run<H: Threads + Sync, S: Source, O: Sink, R: Sink, G: Gate>(
    rt: &H,
    alloc: Global,
    words: &[Word],
    source: &mut S,
    sound: &mut O,
    replies: &mut R,
    gate: &G,
) -> Outcome
    requires { length words.now < 2 ^ 32 }

    // What was done is the sequential walk of the stream, by the settings of the words, if the objects tell their
    // bytes.
    ensures done { (n : ℕ) → result ≡ Outcome.Done n → (s : Settings) × AreChosen words.now s × Played s (S.left source.old) n
        (O.taken sound.old) (O.taken sound.new) (R.taken replies.old) (R.taken replies.new) }

    // What was read of the stream, at each answer.
    ensures taken { TakesStream result (S.left source.old) (S.left source.new) }

    // Every other answer has its cause, except `NoMemory`.
    ensures words { (i : ℕ) → (result ≡ Outcome.BadWords i) ↔ (settings_of words.now ≡ Err i) }
    ensures read { result ≡ Outcome.ReadFault → Rose (S.faults source.old) (S.faults source.new) }
    ensures sound { result ≡ Outcome.SoundFault → Rose (O.faults sound.old) (O.faults sound.new) }
    ensures reply { result ≡ Outcome.ReplyFault → Rose (R.faults replies.old) (R.faults replies.new) }

    // Each of the three failed only if its fault is the answer.
    ensures source_unfailed { (result ≡ Outcome.ReadFault) ⊎ (S.faults source.new ≡ S.faults source.old) }
    ensures sound_unfailed { (result ≡ Outcome.SoundFault) ⊎ (O.faults sound.new ≡ O.faults sound.old) }
    ensures replies_unfailed { (result ≡ Outcome.ReplyFault) ⊎ (R.faults replies.new ≡ R.faults replies.old) }

    // If the words choose settings, the answer is one that the stream has by them. If no count rises either, it is the
    // one that the stream has, or memory ran out.
    ensures answer { ByWords words.now (λ s. IsAnswer s (S.left source.old) result) }
    ensures complete { ByWords words.now (λ s. (bytes : List ℕ) (answer : Outcome) → S.left source.old ≡ Some bytes → HasAnswer s bytes answer
        → (Rose (S.faults source.old) (S.faults source.new) → ⊥) → (Rose (O.faults sound.old) (O.faults sound.new) → ⊥) → (Rose (R.faults replies.old) (R.faults replies.new) → ⊥)
        → (result ≡ answer) ⊎ (result ≡ Outcome.NoMemory)) }

    // What each sink took at every other answer: nothing, or a prefix of what the stream gives by the settings that the
    // words choose.
    ensures written { ByWords words.now (λ s. Writes s (S.left source.old) result (O.taken sound.old) (O.taken sound.new) (R.taken replies.old) (R.taken replies.new)) }
    ensures untouched { (i : ℕ) → result ≡ Outcome.BadWords i → Keeps (O.taken sound.old) (O.taken sound.new) × Keeps (R.taken replies.old) (R.taken replies.new) }
{
    match settings(words) {
        Ok(chosen) => render(rt, alloc, &chosen, source, sound, replies, gate),
        Err(bad) => Outcome::BadWords { index: bad.index },
    }
}
