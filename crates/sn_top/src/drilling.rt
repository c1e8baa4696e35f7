//! A drill: commands that a seed chooses are played into memory, and a line tells what came of them.
ghost use Rattle.std.specs.Prelude.{◌≡◌, ◌⊎◌, ◌≤◌, ◌<◌, ◌^◌, ◌↔◌, ℕ, Err, IfOk, length};
ghost use Rattle.std.specs.Io.KnownBytes.{Keeps};
ghost use Rattle.sn_ports.specs.Causes.{Rose};
ghost use Rattle.sn_pcm.specs.declared.settings.Settings.{Settings};
ghost use Rattle.sn_render.specs.Outcomes.{IsTooLong};
ghost use Rattle.sn_render.specs.Play.{last_of};
ghost use Rattle.sn_render.specs.declared.outcome.Outcome.{Outcome};
ghost use Rattle.sn_words.specs.Drilling.{drill_words_of};
ghost use Rattle.sn_top.specs.Drilling.{ByDrillWords, Drills, line_of, packets_of};

use sn_drill::{GrownSink, drill_packets, line_of};
use sn_ports::{Gate, NoMemory, Sink, Text, Word, write_all};
use sn_server::{Outcome, play};
use sn_words::{DrillWords, drill_words};
use std::alloc::Global;
use std::thread::Threads;

/// A drill that was played.
#[derive(Drop)]
struct Drilled {
    blocks: u64,
    line: Text,
}

/// Plays the packets of a drill into memory, and makes its line.
fn play_drill<H: Threads + Sync, G: Gate>(
    rt: &H,
    alloc: Global,
    chosen: &DrillWords,
    gate: &G,
) -> Result<Drilled, NoMemory>
    ensures last { IfOk result (λ d. d.blocks ≡ last_of chosen.now.settings (packets_of chosen.now.settings chosen.now.seed chosen.now.blocks)) }
    ensures blocks { IfOk result (λ d. d.blocks ≡ chosen.now.blocks) }
    ensures line { IfOk result (λ d. d.line.bytes ≡ line_of chosen.now.settings chosen.now.seed chosen.now.blocks) }
{
    let packets = drill_packets(alloc, chosen.seed, chosen.blocks, chosen.settings.rate)?;
    let mut sound = GrownSink::new(alloc);
    let mut replies = GrownSink::new(alloc);
    let outcome = play(
        rt,
        alloc,
        &chosen.settings,
        packets,
        &mut sound,
        &mut replies,
        gate,
    );
    let Outcome::Done { blocks } = outcome else {
        // The sound is not too long, and the two sinks fail only if memory runs out.
        return Err(NoMemory);
    };
    let line = line_of(alloc, chosen.blocks, sound.taken(), replies.taken())?;
    Ok(Drilled { blocks, line })
}

/// A law: a drill has as many blocks as its words say, and its sound is not too long.
pub fn short_drill()
    ensures { (s : Settings) (seed blocks : ℕ) → 1 ≤ blocks → blocks ≤ 20000 → (last_of s (packets_of s seed blocks) ≡ blocks) × (IsTooLong s blocks → ⊥) }
{}

/// Does what the words `drill [seed=N] [blocks=M] [key=value ..]` say: plays the packets that the seed chooses into
/// memory, and writes one line that tells of their sound and their replies.
///
/// If the words are refused, or memory runs out, the sink takes no byte. If it fails, it took a prefix of the line.
pub fn drill<H: Threads + Sync, O: Sink, G: Gate>(
    rt: &H,
    alloc: Global,
    words: &[Word],
    out: &mut O,
    gate: &G,
) -> Outcome
    requires { length words.now < 2 ^ 32 }

    // What the sink took, at each outcome of the drill that the words choose. No other outcome comes of it.
    ensures written { ByDrillWords words.now (λ s seed blocks. Drills s seed blocks result (O.taken out.old) (O.taken out.new)) }

    // Every other outcome has its cause, except `NoMemory`.
    ensures words { (i : ℕ) → (result ≡ Outcome.BadWords i) ↔ (drill_words_of words.now ≡ Err i) }
    ensures out { result ≡ Outcome.SoundFault → Rose (O.faults out.old) (O.faults out.new) }

    // The sink failed only if its fault is the outcome.
    ensures unfailed { (result ≡ Outcome.SoundFault) ⊎ (O.faults out.new ≡ O.faults out.old) }

    // If the words choose a drill and no count rises, it is done, or memory ran out.
    ensures complete { ByDrillWords words.now (λ s seed blocks. (Rose (O.faults out.old) (O.faults out.new) → ⊥) → (result ≡ Outcome.Done blocks) ⊎ (result ≡ Outcome.NoMemory)) }

    // If the words are refused, the sink took nothing.
    ensures untouched { (i : ℕ) → result ≡ Outcome.BadWords i → Keeps (O.taken out.old) (O.taken out.new) }
{
    let chosen = match drill_words(words) {
        Ok(chosen) => chosen,
        Err(bad) => return Outcome::BadWords { index: bad.index },
    };
    let Ok(drilled) = play_drill(rt, alloc, &chosen, gate) else {
        return Outcome::NoMemory;
    };
    match write_all(out, drilled.line.as_slice()) {
        Ok(()) => Outcome::Done {
            blocks: drilled.blocks,
        },
        Err(_) => Outcome::SoundFault,
    }
}
