ghost use Rattle.std.specs.Prelude.{◌≡◌, ◌⊎◌, ℕ, List, Some, IfOk, IfErr, OnOk, map};
ghost use Rattle.std.specs.Io.KnownBytes.{IsAtEnd};
ghost use Rattle.sn_osc.specs.Shape.{shape};
ghost use Rattle.sn_pcm.specs.declared.settings.Settings.{Settings};
ghost use Rattle.sn_ports.specs.Causes.{Rose};
ghost use Rattle.sn_render.specs.Outcomes.{Played, IsAnswer, HasAnswer, ArePacketsOf, IsUnplayed, TakesStream, Writes};
ghost use Rattle.sn_render.specs.declared.outcome.Outcome.{Outcome};

use crate::gathering::{Ungathered, gather};
use crate::outcome::Outcome;
use crate::playing::play;
use sn_osc::Elements;
use sn_pcm::Settings;
use sn_ports::{Gate, Sink, Source};
use std::alloc::Global;
use std::thread::Threads;

/// The packets of a stream that is read to its end, or the outcome of one that has none.
pub fn read_packets<S: Source>(alloc: Global, source: &mut S) -> Result<Elements, Outcome>
    ensures packets { IfOk result (λ v. ArePacketsOf (S.left source.old) (map shape v.items)) }
    ensures end { OnOk result (IsAtEnd (S.left source.new)) }
    ensures unplayed { IfErr result IsUnplayed }
    ensures answer { (s : Settings) → IfErr result (λ o. IsAnswer s (S.left source.old) o) }
    ensures taken { IfErr result (λ o. TakesStream o (S.left source.old) (S.left source.new)) }
    ensures read { result ≡ Err Outcome.ReadFault → Rose (S.faults source.old) (S.faults source.new) }
    ensures unfailed { OnOk result (S.faults source.new ≡ S.faults source.old) }
    ensures refused { IfErr result (λ o. (o ≡ Outcome.ReadFault) ⊎ (S.faults source.new ≡ S.faults source.old)) }
{
    match gather(alloc, source) {
        Ok(packets) => Ok(packets),
        Err(Ungathered::NoMemory) => Err(Outcome::NoMemory),
        Err(Ungathered::ReadFault) => Err(Outcome::ReadFault),
        Err(Ungathered::LongStream { bytes }) => Err(Outcome::LongStream { bytes }),
        Err(
            Ungathered::BadStream {
                packet,
                place,
                fault,
            },
        ) => Err(Outcome::BadStream {
            packet,
            place,
            fault,
        }),
    }
}

/// Reads, decodes and plays a stream.
fn run_stream<H: Threads + Sync, S: Source, O: Sink, R: Sink, G: Gate>(
    rt: &H,
    alloc: Global,
    settings: &Settings,
    source: &mut S,
    sound: &mut O,
    replies: &mut R,
    gate: &G,
) -> Outcome
    ensures answer { IsAnswer settings.now (S.left source.old) result }
    ensures done { (n : ℕ) → result ≡ Outcome.Done n → Played settings.now (S.left source.old) n
        (O.taken sound.old) (O.taken sound.new) (R.taken replies.old) (R.taken replies.new) }
    ensures taken { TakesStream result (S.left source.old) (S.left source.new) }
    ensures read { result ≡ Outcome.ReadFault → Rose (S.faults source.old) (S.faults source.new) }
    ensures sound { result ≡ Outcome.SoundFault → Rose (O.faults sound.old) (O.faults sound.new) }
    ensures reply { result ≡ Outcome.ReplyFault → Rose (R.faults replies.old) (R.faults replies.new) }
    ensures source_unfailed { (result ≡ Outcome.ReadFault) ⊎ (S.faults source.new ≡ S.faults source.old) }
    ensures sound_unfailed { (result ≡ Outcome.SoundFault) ⊎ (O.faults sound.new ≡ O.faults sound.old) }
    ensures replies_unfailed { (result ≡ Outcome.ReplyFault) ⊎ (R.faults replies.new ≡ R.faults replies.old) }
    ensures written { Writes settings.now (S.left source.old) result (O.taken sound.old) (O.taken sound.new) (R.taken replies.old) (R.taken replies.new) }
{
    let packets = match read_packets(alloc, source) {
        Ok(packets) => packets,
        Err(outcome) => return outcome,
    };
    play(rt, alloc, settings, packets, sound, replies, gate)
}

/// Reads a stream to its end, decodes every packet, checks the length, and then writes the sound and the replies that
/// it gives.
///
/// The first refusal in this order is the answer. Before rendering begins neither sink has taken a byte. If a sink
/// fails, or memory runs out before the end, each sink took a prefix of the bytes that the whole run gives.
pub fn render<H: Threads + Sync, S: Source, O: Sink, R: Sink, G: Gate>(
    rt: &H,
    alloc: Global,
    settings: &Settings,
    source: &mut S,
    sound: &mut O,
    replies: &mut R,
    gate: &G,
) -> Outcome
    // What was done is the sequential walk of the stream, if the objects tell their bytes.
    ensures done { (n : ℕ) → result ≡ Outcome.Done n → Played settings.now (S.left source.old) n
        (O.taken sound.old) (O.taken sound.new) (R.taken replies.old) (R.taken replies.new) }
    // What was read of the stream, at each answer.
    ensures taken { TakesStream result (S.left source.old) (S.left source.new) }
    // Every other answer apart from `NoMemory` has its cause.
    ensures answer { IsAnswer settings.now (S.left source.old) result }
    ensures read { result ≡ Outcome.ReadFault → Rose (S.faults source.old) (S.faults source.new) }
    ensures sound { result ≡ Outcome.SoundFault → Rose (O.faults sound.old) (O.faults sound.new) }
    ensures reply { result ≡ Outcome.ReplyFault → Rose (R.faults replies.old) (R.faults replies.new) }
    // None of the three failed, unless its fault is the answer.
    ensures source_unfailed { (result ≡ Outcome.ReadFault) ⊎ (S.faults source.new ≡ S.faults source.old) }
    ensures sound_unfailed { (result ≡ Outcome.SoundFault) ⊎ (O.faults sound.new ≡ O.faults sound.old) }
    ensures replies_unfailed { (result ≡ Outcome.ReplyFault) ⊎ (R.faults replies.new ≡ R.faults replies.old) }
    // If no count rises, the answer is the one that the stream has, or `NoMemory`.
    ensures complete { (bytes : List ℕ) (answer : Outcome) → S.left source.old ≡ Some bytes → HasAnswer settings.now bytes answer → (Rose (S.faults source.old) (S.faults source.new) → ⊥)
        → (Rose (O.faults sound.old) (O.faults sound.new) → ⊥) → (Rose (R.faults replies.old) (R.faults replies.new) → ⊥) → (result ≡ answer) ⊎ (result ≡ Outcome.NoMemory) }
    // What each sink took at every other answer: nothing, or a prefix of what the stream gives.
    ensures written { Writes settings.now (S.left source.old) result (O.taken sound.old) (O.taken sound.new) (R.taken replies.old) (R.taken replies.new) }
{
    run_stream(rt, alloc, settings, source, sound, replies, gate)
}
