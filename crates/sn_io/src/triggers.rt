//! Units whose state words tell what is to be settled after a block.
ghost use Rattle.std.specs.Prelude.{◌≡◌, ◌<◌, ◌≤◌, ◌^◌, [], true, length};
ghost use Rattle.sn_ports.specs.Limits.{block_frames};
ghost use Rattle.sn_def.specs.Units.{row_of};
ghost use Rattle.sn_def.specs.declared.table.StateSize.TheVariants.{Fixed};
ghost use Rattle.sn_mem.specs.Words.{MayWrite, SameButWords};
ghost use Rattle.sn_mem.specs.Blocks.{window, put, recurred};
ghost use Rattle.sn_io.specs.Triggers.{is_trigger, trigger_block, count_in, count_word, one_quieter, counted, is_quiet, is_silent, quieter};

use sn_def::{Kind, Now};
use sn_fixed::{ONE, TimeFrames, rises};
use sn_mem::{Blocks, Extent, Port, Recurrence, Stored, ended, run_recurrence, sample_of, word_of};

/// What a unit has to report.
#[derive(Clone, Copy)]
pub(crate) struct Sent {
    /// The number of the last block in which the trigger rose plus 1, or 0.
    pub rose: u64,
    /// The id at the frame of the first rise in that block.
    pub id: i32,
    /// The value at that frame.
    pub value: i32,
    /// The last sample of the trigger.
    pub trigger: i32,
}

impl Stored for Sent {
    ghost use Rattle.sn_io.specs.Triggers.{sent_in, sent_words};

    ghost size = { 4 };

    ghost loaded = { sent_in };

    ghost stored = { sent_words };

    fn size() -> usize {
        4
    }

    fn load(words: &[u64]) -> Sent {
        Sent {
            rose: words[0],
            id: sample_of(words[1]),
            value: sample_of(words[2]),
            trigger: sample_of(words[3]),
        }
    }

    fn store(self, words: &mut [u64]) {
        words.copy_from_slice(&[
            self.rose,
            word_of(self.id),
            word_of(self.value),
            word_of(self.trigger),
        ]);
    }
}

/// SendTrig trig id value
#[derive(Clone, Copy)]
pub(crate) struct SendTrig {
    /// The block's number, from 0 and below 2^63.
    pub block: u64,
    ghost low: { block < 2 ^ 63 },
}

impl Recurrence for SendTrig {
    ghost use Rattle.sn_io.specs.Triggers.{send_trig};

    type State = Sent;

    ghost arity = { λ _. 3 };

    ghost step = { λ u. send_trig u.block };

    fn next(&mut self, state: Sent, inputs: &Blocks, frame: usize) -> (Sent, i32) {
        let trigger = inputs.at(0, frame);
        let this = self.block + 1;
        if rises(state.trigger, trigger) && state.rose != this {
            let first = Sent {
                rose: this,
                id: inputs.at(1, frame),
                value: inputs.at(2, frame),
                trigger,
            };
            (first, 0)
        } else {
            (Sent { trigger, ..state }, 0)
        }
    }
}

/// How long a signal has been quiet.
#[derive(Clone, Copy)]
pub(crate) struct Quiet {
    /// The done word, 0 until the end.
    pub done: u64,
    /// How many frames were quiet since the last one that was not, if there was one.
    pub count: Option<u32>,
}

/// The count in a word, which is 0 before the first frame that is not quiet.
fn count_in(word: u32) -> Option<u32>
    ensures { result ≡ count_in word }
{
    if word == 0 { None } else { Some(word - 1) }
}

fn count_word(count: Option<u32>) -> u64
    ensures { result ≡ count_word count }
{
    match count {
        None => 0,
        Some(frames) => u64::from(frames) + 1,
    }
}

impl Stored for Quiet {
    ghost use Rattle.sn_io.specs.Triggers.{quiet_in, quiet_words};

    ghost size = { 2 };

    ghost loaded = { quiet_in };

    ghost stored = { quiet_words };

    fn size() -> usize {
        2
    }

    fn load(words: &[u64]) -> Quiet {
        Quiet {
            done: words[0],
            count: count_in((words[1] % 4_294_967_296) as u32),
        }
    }

    fn store(self, words: &mut [u64]) {
        words.copy_from_slice(&[self.done, count_word(self.count)]);
    }
}

/// Whether a frame's distance from 0 is less than `amp`.
fn is_quiet(inputs: &Blocks, frame: usize) -> bool
    requires inputs { 2 ≤ length inputs.now }
    requires frame { frame < block_frames }
    ensures { result ≡ is_quiet inputs.now frame }
{
    i64::from(inputs.at(0, frame).unsigned_abs()) < i64::from(inputs.at(1, frame))
}

/// One more, if there was a frame that was not quiet.
fn one_quieter(count: Option<u32>) -> Option<u32>
    ensures { result ≡ one_quieter count }
{
    match count {
        None => None,
        Some(frames) if frames < 4_294_967_294 => Some(frames + 1),
        Some(frames) => Some(frames),
    }
}

fn counted(quiet: bool, count: Option<u32>) -> Option<u32>
    ensures { result ≡ counted quiet count }
{
    if quiet { one_quieter(count) } else { Some(0) }
}

/// Whether enough frames were quiet that the unit ends.
fn is_silent(frames: &mut TimeFrames, time: i32, count: Option<u32>) -> bool
    ensures value { result ≡ is_silent frames.old.rate time count }
    ensures rate { frames.new.rate ≡ frames.old.rate }
{
    match count {
        None => false,
        Some(quiet) => frames.at(time).max(1) <= quiet,
    }
}

fn quieter(frames: &mut TimeFrames, state: Quiet, inputs: &Blocks, frame: usize) -> Quiet
    requires inputs { 3 ≤ length inputs.now }
    requires frame { frame < block_frames }
    ensures value { result ≡ quieter frames.old.rate state inputs.now frame }
    ensures rate { frames.new.rate ≡ frames.old.rate }
{
    let count = counted(is_quiet(inputs, frame), state.count);
    let done = if is_silent(frames, inputs.at(2, frame), count) {
        ended(state.done)
    } else {
        state.done
    };
    Quiet { done, count }
}

/// DetectSilence x amp time done!
#[derive(Clone, Copy)]
pub(crate) struct DetectSilence {
    /// The frames of the last time.
    pub frames: TimeFrames,
}

impl Recurrence for DetectSilence {
    ghost use Rattle.sn_io.specs.Triggers.{detect_silence};

    type State = Quiet;

    ghost arity = { λ _. 4 };

    ghost step = { λ u. detect_silence u.frames.rate };

    fn next(&mut self, state: Quiet, inputs: &Blocks, frame: usize) -> (Quiet, i32) {
        let after = quieter(&mut self.frames, state, inputs, frame);
        (after, if after.done == 0 { 0 } else { ONE })
    }
}

/// Whether a unit has ended.
#[derive(Clone, Copy)]
pub(crate) struct DoneWord {
    /// The done word, 0 until the end.
    pub done: u64,
}

impl Stored for DoneWord {
    ghost use Rattle.sn_io.specs.Triggers.{ending_in, ending_words};

    ghost size = { 1 };

    ghost loaded = { ending_in };

    ghost stored = { ending_words };

    fn size() -> usize {
        1
    }

    fn load(words: &[u64]) -> DoneWord {
        DoneWord { done: words[0] }
    }

    fn store(self, words: &mut [u64]) {
        words[0] = self.done;
    }
}

/// FreeSelf x, PauseSelf x
#[derive(Clone, Copy)]
pub(crate) struct EndSelf;

impl Recurrence for EndSelf {
    ghost use Rattle.sn_io.specs.Triggers.{end_self};

    type State = DoneWord;

    ghost arity = { λ _. 1 };

    ghost step = { λ _. end_self };

    fn next(&mut self, state: DoneWord, inputs: &Blocks, frame: usize) -> (DoneWord, i32) {
        let done = if inputs.at(0, frame) > 0 {
            ended(state.done)
        } else {
            state.done
        };
        (DoneWord { done }, 0)
    }
}

/// Runs a unit that has no output.
fn run_silent<U: Recurrence, P: Port>(
    unit: &U,
    port: &mut P,
    at: u32,
    inputs: &Blocks,
    outputs: &mut Blocks,
)
    requires inputs { U.arity unit.now ≤ length inputs.now }
    requires state { MayWrite (P.foot port.old) at U.State.size }
    ensures words { P.words port.new ≡ (recurred U.State.size U.State.loaded U.State.stored (U.step unit.now) (P.words port.old) at inputs.now).0 }
    ensures outputs { outputs.new ≡ [] }
    ensures port { SameButWords P.foot P.rest port.old port.new }
{
    run_recurrence(unit, port, at, inputs, outputs);
    outputs.clear();
}

/// SendTrig, DetectSilence, FreeSelf or PauseSelf.
#[tactic(auto, unfolding(crate::specs::Triggers::trigger_block, sn_def::specs::Units::row_of))]
pub(crate) fn run_trigger<P: Port>(
    kind: Kind,
    now: &Now,
    port: &mut P,
    state: Extent,
    inputs: &Blocks,
    outputs: &mut Blocks,
)
    requires kind { is_trigger kind ≡ true }
    requires block { now.now.block < 2 ^ 63 }
    requires inputs { length (row_of kind).inputs ≤ length inputs.now }
    requires size { (row_of kind).words ≡ Fixed state.len }
    requires state { MayWrite (P.foot port.old) state.at state.len }
    ensures words { P.words port.new ≡ put (P.words port.old) state.at (trigger_block kind now.now (window (P.words port.old) state.at state.len) inputs.now).0 }
    ensures outputs { outputs.new ≡ (trigger_block kind now.now (window (P.words port.old) state.at state.len) inputs.now).1 }
    ensures port { SameButWords P.foot P.rest port.old port.new }
{
    let block = now.block;
    let at = state.at;
    match kind {
        Kind::SendTrig => run_silent(&SendTrig { block }, port, at, inputs, outputs),
        Kind::DetectSilence => {
            let frames = TimeFrames::new(now.rate);
            run_recurrence(&DetectSilence { frames }, port, at, inputs, outputs);
        }
        Kind::FreeSelf | Kind::PauseSelf => run_silent(&EndSelf, port, at, inputs, outputs),
        _ => {}
    }
}
