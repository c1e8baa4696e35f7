//! A stream of commands is played, and a report tells what may run beside what at its end.
ghost use Rattle.std.specs.Prelude.{◌≡◌, ◌⊎◌, ◌<◌, ◌^◌, ◌↔◌, ℕ, List, Some, Err, IfOk, OnOk, length, map};
ghost use Rattle.std.specs.Io.KnownBytes.{Keeps};
ghost use Rattle.sn_osc.specs.Shape.{shape};
ghost use Rattle.sn_ports.specs.Causes.{Rose};
ghost use Rattle.sn_report.specs.Lines.{HasLongest};
ghost use Rattle.sn_report.specs.Reports.{report_of};
ghost use Rattle.sn_render.specs.Outcomes.{HasAnswer, IsAnswer, TakesStream};
ghost use Rattle.sn_render.specs.Playing.{ArePlayable, IsEnd};
ghost use Rattle.sn_render.specs.declared.outcome.Outcome.{Outcome};
ghost use Rattle.sn_words.specs.Words.{plan_words_of};
ghost use Rattle.sn_top.specs.Planning.{ByPlanWords, Reported, Reports, WritesPlan, WritesReport};

use sn_engine::Engine;
use sn_pcm::Settings;
use sn_ports::{Gate, NoMemory, Sink, Source, Text, Word, write_all};
use sn_report::stage_report;
use sn_server::{Outcome, Packets, Reached, reach, read_packets};
use sn_words::plan_words;
use std::alloc::Global;
use std::thread::Threads;

/// The report of the world of an engine.
fn engine_report(alloc: Global, engine: Engine) -> Result<Text, NoMemory>
    ensures text { IfOk result (λ text. text.bytes ≡ report_of engine.running.world) }
    ensures longest { OnOk result (HasLongest engine.running.world) }
{
    stage_report(alloc, engine.stage())
}

/// Plays packets, and writes the report of the world at the boundary after their last block.
fn plan_packets<H: Threads + Sync, O: Sink, G: Gate>(
    rt: &H,
    alloc: Global,
    settings: &Settings,
    packets: Packets,
    out: &mut O,
    gate: &G,
) -> Outcome
    requires playable { ArePlayable (map shape packets.items) }
    ensures end { IsEnd settings.now (map shape packets.items) result }
    ensures done { (n : ℕ) → result ≡ Outcome.Done n → Reports settings.now (map shape packets.items) n (O.taken out.old) (O.taken out.new) }
    ensures written { WritesReport settings.now (map shape packets.items) result (O.taken out.old) (O.taken out.new) }
    ensures out { result ≡ Outcome.SoundFault → Rose (O.faults out.old) (O.faults out.new) }
    ensures out_unfailed { (result ≡ Outcome.SoundFault) ⊎ (O.faults out.new ≡ O.faults out.old) }
{
    let reached = match reach(rt, alloc, settings, packets, gate) {
        Ok(reached) => reached,
        Err(outcome) => return outcome,
    };
    let Reached { engine, blocks } = reached;
    let Ok(text) = engine_report(alloc, engine) else {
        return Outcome::NoMemory;
    };
    match write_all(out, text.as_slice()) {
        Ok(()) => Outcome::Done { blocks },
        Err(_) => Outcome::SoundFault,
    }
}

/// Reads a stream, plays it, and writes the report.
fn plan_stream<H: Threads + Sync, S: Source, O: Sink, G: Gate>(
    rt: &H,
    alloc: Global,
    settings: &Settings,
    source: &mut S,
    out: &mut O,
    gate: &G,
) -> Outcome
    ensures answer { IsAnswer settings.now (S.left source.old) result }
    ensures done { (n : ℕ) → result ≡ Outcome.Done n → Reported settings.now (S.left source.old) n (O.taken out.old) (O.taken out.new) }
    ensures taken { TakesStream result (S.left source.old) (S.left source.new) }
    ensures written { WritesPlan settings.now (S.left source.old) result (O.taken out.old) (O.taken out.new) }
    ensures read { result ≡ Outcome.ReadFault → Rose (S.faults source.old) (S.faults source.new) }
    ensures out { result ≡ Outcome.SoundFault → Rose (O.faults out.old) (O.faults out.new) }
    ensures source_unfailed { (result ≡ Outcome.ReadFault) ⊎ (S.faults source.new ≡ S.faults source.old) }
    ensures out_unfailed { (result ≡ Outcome.SoundFault) ⊎ (O.faults out.new ≡ O.faults out.old) }
{
    let packets = match read_packets(alloc, source) {
        Ok(packets) => packets,
        Err(outcome) => return outcome,
    };
    plan_packets(rt, alloc, settings, packets, out, gate)
}

/// Does what the words `plan [key=value ..] COMMANDS REPORT` say: reads a command stream, plays it as
/// [`run`](crate::rendering::run) does, but for its sound and its replies, and writes what may run beside what at the
/// boundary after the last block.
///
/// If the words, the stream or its length are refused, the source fails, or memory runs out, the sink takes no byte. If
/// the sink fails, it took a prefix of the report.
pub fn plan_run<H: Threads + Sync, S: Source, O: Sink, G: Gate>(
    rt: &H,
    alloc: Global,
    words: &[Word],
    source: &mut S,
    out: &mut O,
    gate: &G,
) -> Outcome
    requires { length words.now < 2 ^ 32 }

    // What was done is the report of the last world, whose chain is the longest.
    ensures done { ByPlanWords words.now (λ s. (n : ℕ) → result ≡ Outcome.Done n → Reported s (S.left source.old) n (O.taken out.old) (O.taken out.new)) }

    // What was read of the stream, at each outcome.
    ensures taken { TakesStream result (S.left source.old) (S.left source.new) }

    // Every other outcome has its cause, except `NoMemory`.
    ensures words { (i : ℕ) → (result ≡ Outcome.BadWords i) ↔ (plan_words_of words.now ≡ Err i) }
    ensures read { result ≡ Outcome.ReadFault → Rose (S.faults source.old) (S.faults source.new) }
    ensures out { result ≡ Outcome.SoundFault → Rose (O.faults out.old) (O.faults out.new) }

    // Each of the two failed only if its fault is the outcome.
    ensures source_unfailed { (result ≡ Outcome.ReadFault) ⊎ (S.faults source.new ≡ S.faults source.old) }
    ensures out_unfailed { (result ≡ Outcome.SoundFault) ⊎ (O.faults out.new ≡ O.faults out.old) }

    // If the words choose settings, the outcome is one that the stream has by them. If no count rises either, it is the
    // one that the stream has, or memory ran out.
    ensures answer { ByPlanWords words.now (λ s. IsAnswer s (S.left source.old) result) }
    ensures complete { ByPlanWords words.now (λ s. (bytes : List ℕ) (answer : Outcome) → S.left source.old ≡ Some bytes → HasAnswer s bytes answer
        → (Rose (S.faults source.old) (S.faults source.new) → ⊥) → (Rose (O.faults out.old) (O.faults out.new) → ⊥) → (result ≡ answer) ⊎ (result ≡ Outcome.NoMemory)) }

    // What the sink took at every other outcome: nothing, or a prefix of the report.
    ensures written { ByPlanWords words.now (λ s. WritesPlan s (S.left source.old) result (O.taken out.old) (O.taken out.new)) }
    ensures untouched { (i : ℕ) → result ≡ Outcome.BadWords i → Keeps (O.taken out.old) (O.taken out.new) }
{
    match plan_words(words) {
        Ok(settings) => plan_stream(rt, alloc, &settings, source, out, gate),
        Err(bad) => Outcome::BadWords { index: bad.index },
    }
}
