//! Straight lines.
ghost use Rattle.std.specs.Prelude.{◌≡◌, ◌<◌, ◌≤◌, ◌+◌, ◌∷◌, [], ℕ, ℤ, List, IfSome, length};
ghost use Rattle.sn_ports.specs.Limits.{block_frames};
ghost use Rattle.sn_mem.specs.Words.{MayWrite, SameButWords};
ghost use Rattle.sn_mem.specs.Blocks.{recurred, scan};
ghost use Rattle.sn_gen.specs.Line.{begun, swept, line, sweep_in, sweep_words};

use crate::course::{FRAMES, run_course};
use sn_fixed::{Slope, frames_of};
use sn_mem::{
    Blocks, Port, Recurrence, Stored, ended, load_words, run_recurrence, sample_of, store_words,
    word_of,
};
use sn_ports::limits::BLOCK_FRAMES;

/// How far a line is.
#[derive(Clone, Copy)]
pub(crate) struct Sweep {
    /// The done word, 0 until the end.
    pub done: u64,
    /// The next frame, up to the number of frames, or 1 if that is 0. It is 0 only before the first frame.
    pub frame: u32,
    /// The first sample.
    pub start: i32,
    /// The last sample.
    pub end: i32,
    /// How many frames it takes from start to end.
    pub frames: u32,
}

impl Stored for Sweep {
    ghost use Rattle.sn_gen.specs.Line.{sweep_in, sweep_words};

    ghost size = { 5 };

    ghost loaded = { sweep_in };

    ghost stored = { sweep_words };

    fn size() -> usize {
        5
    }

    fn load(words: &[u64]) -> Sweep {
        Sweep {
            done: words[0],
            frame: (words[1] % 4_294_967_296) as u32,
            start: sample_of(words[2]),
            end: sample_of(words[3]),
            frames: (words[4] % 4_294_967_296) as u32,
        }
    }

    fn store(self, words: &mut [u64]) {
        words.copy_from_slice(&[
            self.done,
            u64::from(self.frame),
            word_of(self.start),
            word_of(self.end),
            u64::from(self.frames),
        ]);
    }
}

/// The inputs are read at the first frame.
fn begun(rate: u32, sweep: Sweep, inputs: &Blocks, frame: usize) -> Sweep
    requires inputs { 3 ≤ length inputs.now }
    requires frame { frame < block_frames }
    ensures { result ≡ begun rate sweep inputs.now frame }
{
    if sweep.frame > 0 {
        return sweep;
    }
    Sweep {
        done: sweep.done,
        frame: 0,
        start: inputs.at(0, frame),
        end: inputs.at(1, frame),
        frames: frames_of(inputs.at(2, frame), rate),
    }
}

fn swept(slope: &mut Slope, sweep: Sweep) -> (Sweep, i32)
    ensures { result ≡ swept sweep }
{
    if sweep.frame < sweep.frames {
        let sample = slope.forward(sweep.start, sweep.end, sweep.frame, sweep.frames);
        let frame = sweep.frame + 1;
        (Sweep { frame, ..sweep }, sample)
    } else {
        let done = ended(sweep.done);
        let frame = sweep.frame.max(1);
        (
            Sweep {
                done,
                frame,
                ..sweep
            },
            sweep.end,
        )
    }
}

/// Line start end dur done!
#[derive(Clone, Copy)]
pub(crate) struct Line {
    /// Frames a second.
    pub rate: u32,
    /// The line at its next frame.
    pub slope: Slope,
}

impl Recurrence for Line {
    ghost use Rattle.sn_gen.specs.Line.{line};

    type State = Sweep;

    ghost arity = { λ _. 4 };

    ghost step = { λ u. line u.rate };

    #[inline(always)]
    fn next(&mut self, sweep: Sweep, inputs: &Blocks, frame: usize) -> (Sweep, i32) {
        let sweep = begun(self.rate, sweep, inputs, frame);
        swept(&mut self.slope, sweep)
    }
}

/// A block of a line that has begun and goes on after it. Returns the line after it.
fn along(sweep: Sweep, outputs: &mut Blocks) -> Sweep
    requires begun { 0 < sweep.frame }
    requires within { sweep.frame + block_frames ≤ sweep.frames }
    ensures sweep { (rate : ℕ) (inputs : List (List ℤ)) → result ≡ (scan (line rate) sweep inputs block_frames).0 }
    ensures outputs { (rate : ℕ) (inputs : List (List ℤ)) → outputs.new ≡ (scan (line rate) sweep inputs block_frames).1 ∷ [] }
{
    let mut samples = [0i32; BLOCK_FRAMES];
    let after = run_course(sweep, &mut samples);
    outputs.clear();
    outputs.push(&samples);
    after
}

/// A block after the end of a line. Returns the line after it.
fn past(sweep: Sweep, outputs: &mut Blocks) -> Sweep
    requires begun { 0 < sweep.frame }
    requires over { sweep.frames ≤ sweep.frame }
    ensures sweep { (rate : ℕ) (inputs : List (List ℤ)) → result ≡ (scan (line rate) sweep inputs block_frames).0 }
    ensures outputs { (rate : ℕ) (inputs : List (List ℤ)) → outputs.new ≡ (scan (line rate) sweep inputs block_frames).1 ∷ [] }
{
    outputs.clear();
    outputs.push_equal(sweep.end);
    let done = ended(sweep.done);
    Sweep { done, ..sweep }
}

/// A block in which a line neither begins nor comes to its end, so no frame asks for either. Returns the line after it.
/// Returns `None` for any other block, and then puts nothing out.
fn passed(sweep: Sweep, outputs: &mut Blocks) -> Option<Sweep>
    ensures sweep { IfSome result (λ after. (rate : ℕ) (inputs : List (List ℤ)) → after ≡ (scan (line rate) sweep inputs block_frames).0) }
    ensures outputs { IfSome result (λ _. (rate : ℕ) (inputs : List (List ℤ)) → outputs.new ≡ (scan (line rate) sweep inputs block_frames).1 ∷ []) }
{
    if sweep.frame == 0 {
        None
    } else if sweep.frames <= sweep.frame {
        Some(past(sweep, outputs))
    } else if sweep.frames - sweep.frame >= FRAMES {
        Some(along(sweep, outputs))
    } else {
        None
    }
}

/// Runs Line for a block, as `run_recurrence` does, which runs the blocks in which it begins or comes to its end.
pub(crate) fn run_line<P: Port>(
    rate: u32,
    port: &mut P,
    at: u32,
    inputs: &Blocks,
    outputs: &mut Blocks,
)
    requires inputs { 4 ≤ length inputs.now }
    requires state { MayWrite (P.foot port.old) at 5 }
    ensures words { P.words port.new ≡ (recurred 5 sweep_in sweep_words (line rate) (P.words port.old) at inputs.now).0 }
    ensures outputs { outputs.new ≡ (recurred 5 sweep_in sweep_words (line rate) (P.words port.old) at inputs.now).1 ∷ [] }
    ensures port { SameButWords P.foot P.rest port.old port.new }
{
    let mut words = [0u64; 5];
    load_words(port, at, &mut words);
    match passed(Sweep::load(&words), outputs) {
        Some(sweep) => {
            sweep.store(&mut words);
            store_words(port, at, &words);
        }
        None => {
            let slope = Slope::new();
            run_recurrence(&Line { rate, slope }, port, at, inputs, outputs);
        }
    }
}
