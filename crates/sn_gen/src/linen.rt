//! Envelopes that a gate opens and releases.
ghost use Rattle.std.specs.Prelude.{◌≡◌, ◌<◌, ◌≤◌, ◌+◌, ◌∷◌, [], true, ℕ, ℤ, List, IfSome, length};
ghost use Rattle.sn_ports.specs.Limits.{block_frames};
ghost use Rattle.sn_gen.specs.Linen.{segment_in, segment_word, gated, height, done_at, passed, envelope_in, envelope_words, linen};
ghost use Rattle.sn_mem.specs.Words.{MayWrite, SameButWords};
ghost use Rattle.sn_mem.specs.Blocks.{recurred, scan};
ghost use Rattle.sn_gen.specs.declared.linen.Segment.TheVariants.{Open};
ghost use Rattle.sn_gen.specs.Resting.{Leaves};

use crate::course::{FRAMES, run_course};
use crate::line::Sweep;
use sn_fixed::{Slope, frames_of};
use sn_mem::{
    Blocks, Port, Recurrence, Stored, ended, load_words, run_recurrence, sample_of, store_words,
    word_of,
};
use sn_ports::limits::BLOCK_FRAMES;

/// Where an envelope is.
#[derive(Clone, Copy)]
pub(crate) enum Segment {
    /// The gate was not open yet.
    Waiting,
    /// The gate is open: the attack, and then the level.
    Open,
    /// The gate has closed: the release, and then 0.
    Released,
}

fn segment_in(word: u64) -> Segment
    ensures { result ≡ segment_in word }
{
    if word == 0 {
        Segment::Waiting
    } else if word == 1 {
        Segment::Open
    } else {
        Segment::Released
    }
}

fn segment_word(segment: Segment) -> u64
    ensures { result ≡ segment_word segment }
{
    match segment {
        Segment::Waiting => 0,
        Segment::Open => 1,
        Segment::Released => 2,
    }
}

/// How far an envelope is.
#[derive(Clone, Copy)]
pub(crate) struct Envelope {
    /// The done word, 0 until the end.
    pub done: u64,
    /// Where it is.
    pub segment: Segment,
    /// The segment's next frame, up to the number of its frames.
    pub frame: u32,
    /// How many frames the attack or the release takes.
    pub frames: u32,
    /// The sample that the attack goes to.
    pub level: i32,
    /// The output that the release falls from.
    pub top: i32,
    /// The last output.
    pub last: i32,
}

impl Stored for Envelope {
    ghost use Rattle.sn_gen.specs.Linen.{envelope_in, envelope_words};

    ghost size = { 7 };

    ghost loaded = { envelope_in };

    ghost stored = { envelope_words };

    fn size() -> usize {
        7
    }

    fn load(words: &[u64]) -> Envelope {
        Envelope {
            done: words[0],
            segment: segment_in(words[1]),
            frame: (words[2] % 4_294_967_296) as u32,
            frames: (words[3] % 4_294_967_296) as u32,
            level: sample_of(words[4]),
            top: sample_of(words[5]),
            last: sample_of(words[6]),
        }
    }

    fn store(self, words: &mut [u64]) {
        words.copy_from_slice(&[
            self.done,
            segment_word(self.segment),
            u64::from(self.frame),
            u64::from(self.frames),
            word_of(self.level),
            word_of(self.top),
            word_of(self.last),
        ]);
    }
}

/// Begins the attack or the release if the gate says so.
fn gated(rate: u32, envelope: Envelope, inputs: &Blocks, frame: usize) -> Envelope
    requires inputs { 4 ≤ length inputs.now }
    requires frame { frame < block_frames }
    ensures { result ≡ gated rate envelope inputs.now frame }
{
    let is_open = inputs.at(0, frame) > 0;
    match envelope.segment {
        Segment::Waiting if is_open => Envelope {
            segment: Segment::Open,
            frame: 0,
            frames: frames_of(inputs.at(1, frame), rate),
            level: inputs.at(2, frame),
            ..envelope
        },
        Segment::Open if !is_open => Envelope {
            segment: Segment::Released,
            frame: 0,
            frames: frames_of(inputs.at(3, frame), rate),
            top: envelope.last,
            ..envelope
        },
        _ => envelope,
    }
}

/// The sample at a frame. It is inlined, so that a loop keeps the slope in registers.
#[inline(always)]
fn height(slope: &mut Slope, envelope: Envelope) -> i32
    ensures { result ≡ height envelope }
{
    let frame = envelope.frame;
    let frames = envelope.frames;
    match envelope.segment {
        Segment::Waiting => 0,
        Segment::Open if frame < frames => slope.forward(0, envelope.level, frame, frames),
        Segment::Open => envelope.level,
        Segment::Released if frame < frames => {
            slope.backward(0, envelope.top, frames - frame, frames)
        }
        Segment::Released => 0,
    }
}

fn done_at(envelope: Envelope) -> u64
    ensures { result ≡ done_at envelope.segment envelope }
{
    match envelope.segment {
        Segment::Released if envelope.frame >= envelope.frames => ended(envelope.done),
        _ => envelope.done,
    }
}

/// The envelope after a frame with this output.
fn passed(envelope: Envelope, sample: i32) -> Envelope
    ensures { result ≡ passed envelope sample }
{
    let frame = if envelope.frame < envelope.frames {
        envelope.frame + 1
    } else {
        envelope.frame
    };
    Envelope {
        done: done_at(envelope),
        frame,
        last: sample,
        ..envelope
    }
}

/// Linen gate attack level release done!
#[derive(Clone, Copy)]
pub(crate) struct Linen {
    /// Frames a second.
    pub rate: u32,
    /// The attack or the release at its next frame.
    pub slope: Slope,
}

impl Recurrence for Linen {
    ghost use Rattle.sn_gen.specs.Linen.{linen};

    type State = Envelope;

    ghost arity = { λ _. 5 };

    ghost step = { λ u. linen u.rate };

    #[inline(always)]
    fn next(&mut self, envelope: Envelope, inputs: &Blocks, frame: usize) -> (Envelope, i32) {
        let envelope = gated(self.rate, envelope, inputs, frame);
        let sample = height(&mut self.slope, envelope);
        (passed(envelope, sample), sample)
    }
}

/// Whether the gate is known to leave a segment as it is through a block.
fn leaves(segment: Segment, inputs: &Blocks) -> bool
    requires { 1 ≤ length inputs.now }
    ensures { result ≡ true → Leaves segment inputs.now }
{
    match (segment, inputs.same(0)) {
        (Segment::Released, _) => true,
        (Segment::Open, Some(gate)) => gate > 0,
        (Segment::Waiting, Some(gate)) => gate <= 0,
        _ => false,
    }
}

/// A block after the segment's last frame, if the gate leaves the segment as it is. Returns the envelope after it.
fn rested(envelope: Envelope, outputs: &mut Blocks) -> Envelope
    requires { envelope.frames ≤ envelope.frame }
    ensures envelope { (rate : ℕ) (inputs : List (List ℤ)) → Leaves envelope.segment inputs → result ≡ (scan (linen rate) envelope inputs block_frames).0 }
    ensures outputs { (rate : ℕ) (inputs : List (List ℤ)) → Leaves envelope.segment inputs → outputs.new ≡ (scan (linen rate) envelope inputs block_frames).1 ∷ [] }
{
    let sample = height(&mut Slope::new(), envelope);
    outputs.clear();
    outputs.push_equal(sample);
    Envelope {
        done: done_at(envelope),
        last: sample,
        ..envelope
    }
}

/// A block of an attack that goes on after it, if the gate stays open. Returns the envelope after it.
fn risen(envelope: Envelope, outputs: &mut Blocks) -> Envelope
    requires open { envelope.segment ≡ Open }
    requires within { envelope.frame + block_frames ≤ envelope.frames }
    ensures envelope { (rate : ℕ) (inputs : List (List ℤ)) → Leaves envelope.segment inputs → result ≡ (scan (linen rate) envelope inputs block_frames).0 }
    ensures outputs { (rate : ℕ) (inputs : List (List ℤ)) → Leaves envelope.segment inputs → outputs.new ≡ (scan (linen rate) envelope inputs block_frames).1 ∷ [] }
{
    let attack = Sweep {
        done: 0,
        frame: envelope.frame,
        start: 0,
        end: envelope.level,
        frames: envelope.frames,
    };
    let mut samples = [0i32; BLOCK_FRAMES];
    let after = run_course(attack, &mut samples);
    outputs.clear();
    outputs.push(&samples);
    Envelope {
        frame: after.frame,
        last: samples[BLOCK_FRAMES - 1],
        ..envelope
    }
}

/// A block in which an attack goes on, or that lies past the segment's last frame, if the gate leaves the segment as it
/// is. Returns the envelope after it. Returns `None` for any other block, and then puts nothing out.
fn followed(envelope: Envelope, outputs: &mut Blocks) -> Option<Envelope>
    ensures envelope { IfSome result (λ after. (rate : ℕ) (inputs : List (List ℤ)) → Leaves envelope.segment inputs → after ≡ (scan (linen rate) envelope inputs block_frames).0) }
    ensures outputs { IfSome result (λ _. (rate : ℕ) (inputs : List (List ℤ)) → Leaves envelope.segment inputs → outputs.new ≡ (scan (linen rate) envelope inputs block_frames).1 ∷ []) }
{
    if envelope.frames <= envelope.frame {
        return Some(rested(envelope, outputs));
    }
    match envelope.segment {
        Segment::Open if envelope.frames - envelope.frame >= FRAMES => {
            Some(risen(envelope, outputs))
        }
        _ => None,
    }
}

/// The same, if the gate is known to leave the segment as it is.
fn left(envelope: Envelope, inputs: &Blocks, outputs: &mut Blocks) -> Option<Envelope>
    requires { 1 ≤ length inputs.now }
    ensures envelope { IfSome result (λ after. (rate : ℕ) → after ≡ (scan (linen rate) envelope inputs.now block_frames).0) }
    ensures outputs { IfSome result (λ _. (rate : ℕ) → outputs.new ≡ (scan (linen rate) envelope inputs.now block_frames).1 ∷ []) }
{
    if leaves(envelope.segment, inputs) {
        followed(envelope, outputs)
    } else {
        None
    }
}

/// Runs Linen for a block, as `run_recurrence` does, which runs the blocks in which it begins, falls, or comes to
/// its level.
pub(crate) fn run_linen<P: Port>(
    rate: u32,
    port: &mut P,
    at: u32,
    inputs: &Blocks,
    outputs: &mut Blocks,
)
    requires inputs { 5 ≤ length inputs.now }
    requires state { MayWrite (P.foot port.old) at 7 }
    ensures words { P.words port.new ≡ (recurred 7 envelope_in envelope_words (linen rate) (P.words port.old) at inputs.now).0 }
    ensures outputs { outputs.new ≡ (recurred 7 envelope_in envelope_words (linen rate) (P.words port.old) at inputs.now).1 ∷ [] }
    ensures port { SameButWords P.foot P.rest port.old port.new }
{
    let mut words = [0u64; 7];
    load_words(port, at, &mut words);
    match left(Envelope::load(&words), inputs, outputs) {
        Some(envelope) => {
            envelope.store(&mut words);
            store_words(port, at, &words);
        }
        None => {
            let slope = Slope::new();
            run_recurrence(&Linen { rate, slope }, port, at, inputs, outputs);
        }
    }
}
