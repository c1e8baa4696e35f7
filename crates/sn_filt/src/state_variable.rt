//! The state-variable filter.
ghost use Rattle.std.specs.Prelude.{◌≡◌, ◌<◌, ◌≤◌, ◌*◌, ◌/◌, ◌^◌, pos, ◌+ℤ◌, ◌-ℤ◌, ◌*ℤ◌, unsigned_abs, length};
ghost use Rattle.std.specs.Int.{int_min, int_max};
ghost use Rattle.sn_ports.specs.Limits.{block_frames};
ghost use Rattle.sn_fixed.specs.Arcs.{arc};
ghost use Rattle.sn_fixed.specs.Fixed.{floor};
ghost use Rattle.sn_mem.specs.Words.{MayWrite, SameButWords};
ghost use Rattle.sn_mem.specs.Blocks.{window, put, scan};
ghost use Rattle.sn_filt.specs.StateVariable.{half_angle, reciprocal, weight, weights_at, lim, v1, v2, band_sample, filtered, svf, svf_at, svf_block};

use sn_fixed::{arc, sat_wide};
use sn_mem::{Block, Blocks, Port, Stored, load_words, store_words};
use sn_ports::limits::BLOCK_FRAMES;

/// The state: two integrators, of which 2^40 is 1.0.
#[derive(Clone, Copy)]
pub(crate) struct Integrators {
    /// The one that holds the band output.
    pub first: i64,
    /// The one that holds the low output.
    pub second: i64,
}

impl Stored for Integrators {
    ghost use Rattle.sn_filt.specs.StateVariable.{integrators_in, integrators_words};

    ghost size = { 2 };

    ghost loaded = { integrators_in };

    ghost stored = { integrators_words };

    fn size() -> usize {
        2
    }

    fn load(words: &[u64]) -> Integrators {
        Integrators {
            first: words[0].cast_signed(),
            second: words[1].cast_signed(),
        }
    }

    fn store(self, words: &mut [u64]) {
        words.copy_from_slice(&[self.first.cast_unsigned(), self.second.cast_unsigned()]);
    }
}

/// What a frame is weighed with.
#[derive(Clone, Copy)]
pub(crate) struct Weights {
    /// How much of the band output is fed back: 2^24 is 1.0.
    pub k: u32,
    /// Of the first integrator in its own next value: 2^40 is 1.0.
    pub a1: u64,
    /// Of either in the other's.
    pub a2: u64,
    /// Of the input in the second.
    pub a3: u64,
}

/// The samples of a frame.
#[derive(Clone, Copy)]
pub(crate) struct Bands {
    /// What is below the frequency.
    pub low: i32,
    /// What is near to it.
    pub band: i32,
    /// What is above it.
    pub high: i32,
}

/// The nearest number to `z` from 0 to 2^30.
fn within_quarter(z: i64) -> i64
    ensures value { result ≡ int_max (pos 0) (int_min (pos 1073741824) z) }
    ensures bound { unsigned_abs result ≤ 1073741824 }
{
    z.clamp(0, 1_073_741_824)
}

/// Half of the angle that a frequency goes in a frame: 2^30 is a quarter turn.
#[tactic(auto, unfolding(crate::specs::StateVariable::half_angle))]
fn half_angle(rate: u32, freq: i32) -> u64
    requires { 0 < rate }
    ensures value { result ≡ half_angle rate freq }
    ensures bound { result ≤ 1073741824 }
{
    let angle = (i64::from(freq) * 2_147_483_648).div_euclid(1000 * i64::from(rate));
    within_quarter(angle).unsigned_abs()
}

/// The sine of an angle up to a quarter turn, which is 2^31: 2^31 is 1.0.
fn height(angle: u64) -> u64
    requires { angle ≤ 2147483648 }
    ensures value { result ≡ arc angle / 2147483648 }
    ensures bound { result ≤ 2147483648 }
{
    arc(angle) / 2_147_483_648
}

/// The product of two numbers of which 2^31 is 1.0.
#[tactic(auto, using(crate::proofs::Weighing::square_small))]
fn product(a: u64, b: u64) -> u64
    requires a { a ≤ 2147483648 }
    requires b { b ≤ 2147483648 }
    ensures value { result ≡ a * b }
    ensures bound { result ≤ 2 ^ 62 }
{
    a * b
}

/// The damping in the scale of 2^55.
#[tactic(auto, using(crate::proofs::Weighing::damping_small))]
fn damping(k: u32, part: u64) -> u64
    requires { part ≤ 2147483648 }
    ensures value { result ≡ k * part }
    ensures bound { result ≤ 2 ^ 63 }
{
    u64::from(k) * part
}

/// What all weights are divided by, upside down.
#[tactic(auto, using(crate::proofs::Weighing::reciprocal_small), unfolding(crate::specs::StateVariable::reciprocal))]
fn reciprocal(k: u32, sine: u64, cosine: u64) -> u64
    requires sine { sine ≤ 2147483648 }
    requires cosine { cosine ≤ 2147483648 }
    ensures value { result ≡ reciprocal k sine cosine }
    ensures bound { result ≤ 2147483648 }
{
    let part = product(sine, cosine) / 2_147_483_648;
    2_305_843_009_213_693_952 / (1_073_741_825 + damping(k, part) / 33_554_432)
}

/// The product of a product and a number, of which 2^31 is 1.0.
#[tactic(auto, using(crate::proofs::Weighing::triple_small))]
fn triple(product: u64, r: u64) -> u128
    requires product { product ≤ 2 ^ 62 }
    requires r { r ≤ 2147483648 }
    ensures value { result ≡ product * r }
    ensures bound { result ≤ 2 ^ 93 }
{
    u128::from(product) * u128::from(r)
}

/// The product of three numbers in the scale of the integrators.
#[tactic(auto, unfolding(crate::specs::StateVariable::weight))]
fn weight(a: u64, b: u64, r: u64) -> u64
    requires a { a ≤ 2147483648 }
    requires b { b ≤ 2147483648 }
    requires r { r ≤ 2147483648 }
    ensures value { result ≡ weight a b r }
    ensures bound { result ≤ 2 ^ 40 }
{
    (triple(product(a, b), r) / 9_007_199_254_740_992) as u64
}

/// The weights at a frequency and a reciprocal of Q.
#[tactic(auto, unfolding(crate::specs::StateVariable::weights_at))]
fn weights_at(rate: u32, freq: i32, rq: i32) -> Weights
    requires { 0 < rate }
    ensures value { result ≡ weights_at rate freq rq }
    ensures first { result.a1 ≤ 2 ^ 40 }
    ensures second { result.a2 ≤ 2 ^ 40 }
    ensures third { result.a3 ≤ 2 ^ 40 }
{
    let half = half_angle(rate, freq);
    let sine = height(2 * half);
    let cosine = height(2_147_483_648 - 2 * half);
    let k = rq.max(0) as u32;
    let r = reciprocal(k, sine, cosine);
    Weights {
        k,
        a1: weight(cosine, cosine, r),
        a2: weight(sine, cosine, r),
        a3: weight(sine, sine, r),
    }
}

/// The weights at the last frequency and reciprocal of Q.
#[derive(Clone, Copy)]
struct Tuning {
    /// Frames a second, at least 1.
    rate: u32,
    freq: i32,
    rq: i32,
    weights: Weights,
    ghost some: { 0 < rate },
    ghost known: { weights ≡ weights_at rate freq rq },
    ghost first: { weights.a1 ≤ 2 ^ 40 },
    ghost second: { weights.a2 ≤ 2 ^ 40 },
    ghost third: { weights.a3 ≤ 2 ^ 40 },
}

impl Tuning {
    fn new(rate: u32, freq: i32, rq: i32) -> Tuning
        requires { 0 < rate }
        ensures rate { result.rate ≡ rate }
        ensures weights { result.weights ≡ weights_at rate freq rq }
    {
        Tuning {
            rate,
            freq,
            rq,
            weights: weights_at(rate, freq, rq),
        }
    }

    /// The weights at a frequency and a reciprocal of Q. They are computed only if these aren't the last ones.
    fn at(&mut self, freq: i32, rq: i32) -> Weights
        ensures value { result ≡ weights_at self.old.rate freq rq }
        ensures rate { self.new.rate ≡ self.old.rate }
        ensures first { result.a1 ≤ 2 ^ 40 }
        ensures second { result.a2 ≤ 2 ^ 40 }
        ensures third { result.a3 ≤ 2 ^ 40 }
    {
        if freq != self.freq || rq != self.rq {
            *self = Tuning::new(self.rate, freq, rq);
        }
        self.weights
    }
}

/// The exact product with a weight.
#[tactic(auto, using(crate::proofs::Weighing::share_small))]
fn share(weight: u64, z: i128) -> i128
    requires weight { weight ≤ 2 ^ 40 }
    requires z { unsigned_abs z ≤ 2 ^ 64 }
    ensures value { result ≡ pos weight *ℤ z }
    ensures bound { unsigned_abs result ≤ 2 ^ 104 }
{
    i128::from(weight) * z
}

/// A sum by weights, rounded down.
#[tactic(auto, using(crate::proofs::Weighing::weighed_small))]
fn weighed(a: u64, y: i128, b: u64, z: i128) -> i128
    requires a { a ≤ 2 ^ 40 }
    requires y { unsigned_abs y ≤ 2 ^ 64 }
    requires b { b ≤ 2 ^ 40 }
    requires z { unsigned_abs z ≤ 2 ^ 64 }
    ensures value { result ≡ floor (pos a *ℤ y +ℤ pos b *ℤ z) 1099511627776 }
    ensures bound { unsigned_abs result ≤ 2 ^ 65 }
{
    (share(a, y) + share(b, z)).div_euclid(1_099_511_627_776)
}

/// What the damping makes of the band output, rounded down.
#[tactic(auto, using(crate::proofs::Weighing::damped_small, crate::proofs::Weighing::damped_scaled))]
fn damped(k: u32, z: i128) -> i128
    requires { unsigned_abs z ≤ 2 ^ 65 }
    ensures value { result ≡ floor (pos k *ℤ z) 16777216 }
    ensures bound { unsigned_abs result ≤ 2 ^ 73 }
{
    (i128::from(k) * z).div_euclid(16_777_216)
}

/// The nearest number that an integrator holds.
#[tactic(auto, unfolding(crate::specs::StateVariable::lim))]
fn limited(z: i128) -> i64
    ensures { result ≡ lim z }
{
    z.clamp(-18_014_398_509_481_984, 18_014_398_509_481_984) as i64
}

/// The sample of an output.
fn band_sample(z: i128) -> i32
    ensures { result ≡ band_sample z }
{
    sat_wide(z.div_euclid(65_536))
}

/// A sample in the scale of the integrators.
fn in_scale(x: i32) -> i128
    ensures value { result ≡ x *ℤ pos 65536 }
    ensures bound { unsigned_abs result ≤ 2 ^ 47 }
{
    i128::from(x) * 65_536
}

/// How far the input is from an integrator.
fn distance(x: i128, i: Integrators) -> i128
    requires { unsigned_abs x ≤ 2 ^ 47 }
    ensures value { result ≡ x -ℤ i.second }
    ensures bound { unsigned_abs result ≤ 2 ^ 64 }
{
    x - i128::from(i.second)
}

/// The first integrator halfway through a frame.
fn first_halfway(w: Weights, i: Integrators, v3: i128) -> i128
    requires first { w.a1 ≤ 2 ^ 40 }
    requires second { w.a2 ≤ 2 ^ 40 }
    requires v3 { unsigned_abs v3 ≤ 2 ^ 64 }
    ensures value { result ≡ v1 w i v3 }
    ensures bound { unsigned_abs result ≤ 2 ^ 65 }
{
    weighed(w.a1, i128::from(i.first), w.a2, v3)
}

/// The sum of an integrator and what is added to it.
fn added(last: i64, z: i128) -> i128
    requires { unsigned_abs z ≤ 2 ^ 65 }
    ensures value { result ≡ last +ℤ z }
    ensures bound { unsigned_abs result ≤ 2 ^ 66 }
{
    i128::from(last) + z
}

/// The second integrator halfway through a frame.
fn second_halfway(w: Weights, i: Integrators, v3: i128) -> i128
    requires second { w.a2 ≤ 2 ^ 40 }
    requires third { w.a3 ≤ 2 ^ 40 }
    requires v3 { unsigned_abs v3 ≤ 2 ^ 64 }
    ensures value { result ≡ v2 w i v3 }
    ensures bound { unsigned_abs result ≤ 2 ^ 66 }
{
    added(i.second, weighed(w.a2, i128::from(i.first), w.a3, v3))
}

/// Twice the halfway place less the last one.
fn reflected(v: i128, last: i64) -> i128
    requires { unsigned_abs v ≤ 2 ^ 66 }
    ensures { result ≡ pos 2 *ℤ v -ℤ last }
{
    2 * v - i128::from(last)
}

/// An integrator after a frame.
fn after(v: i128, last: i64) -> i64
    requires { unsigned_abs v ≤ 2 ^ 66 }
    ensures { result ≡ lim (pos 2 *ℤ v -ℤ last) }
{
    limited(reflected(v, last))
}

/// What two parts leave of the input.
fn less(x: i128, v2: i128, damped: i128) -> i128
    requires x { unsigned_abs x ≤ 2 ^ 47 }
    requires v2 { unsigned_abs v2 ≤ 2 ^ 66 }
    requires damped { unsigned_abs damped ≤ 2 ^ 73 }
    ensures { result ≡ x -ℤ v2 -ℤ damped }
{
    x - v2 - damped
}

/// What is left of the input.
fn high_sample(k: u32, x: i128, v1: i128, v2: i128) -> i32
    requires x { unsigned_abs x ≤ 2 ^ 47 }
    requires v1 { unsigned_abs v1 ≤ 2 ^ 65 }
    requires v2 { unsigned_abs v2 ≤ 2 ^ 66 }
    ensures { result ≡ band_sample (x -ℤ v2 -ℤ floor (pos k *ℤ v1) 16777216) }
{
    band_sample(less(x, v2, damped(k, v1)))
}

/// One frame of the filter.
#[tactic(auto, unfolding(crate::specs::StateVariable::filtered))]
fn filtered(w: Weights, i: Integrators, x: i32) -> (Integrators, Bands)
    requires first { w.a1 ≤ 2 ^ 40 }
    requires second { w.a2 ≤ 2 ^ 40 }
    requires third { w.a3 ≤ 2 ^ 40 }
    ensures { result ≡ filtered w i x }
{
    let x = in_scale(x);
    let v3 = distance(x, i);
    let v1 = first_halfway(w, i, v3);
    let v2 = second_halfway(w, i, v3);
    let state = Integrators {
        first: after(v1, i.first),
        second: after(v2, i.second),
    };
    let bands = Bands {
        low: band_sample(v2),
        band: band_sample(v1),
        high: high_sample(w.k, x, v1, v2),
    };
    (state, bands)
}

/// One frame. The tuning stays the same except for what it remembers.
fn next(
    tuning: &mut Tuning,
    state: Integrators,
    inputs: &Blocks,
    frame: usize,
) -> (Integrators, Bands)
    requires inputs { 3 ≤ length inputs.now }
    requires frame { frame < block_frames }
    ensures value { result ≡ svf tuning.old.rate state inputs.now frame }
    ensures rate { tuning.new.rate ≡ tuning.old.rate }
{
    let weights = tuning.at(inputs.at(1, frame), inputs.at(2, frame));
    filtered(weights, state, inputs.at(0, frame))
}

/// Runs the filter from a state for the frames of a block. Returns the state after them.
fn run_frames(
    tuning: Tuning,
    begin: Integrators,
    inputs: &Blocks,
    low: &mut Block,
    band: &mut Block,
    high: &mut Block,
) -> Integrators
    requires { 3 ≤ length inputs.now }
    ensures state { result ≡ (scan (svf_at (λ y. y.low) tuning.rate) begin inputs.now block_frames).0 }
    ensures low { low.new ≡ (scan (svf_at (λ y. y.low) tuning.rate) begin inputs.now block_frames).1 }
    ensures band { band.new ≡ (scan (svf_at (λ y. y.band) tuning.rate) begin inputs.now block_frames).1 }
    ensures high { high.new ≡ (scan (svf_at (λ y. y.high) tuning.rate) begin inputs.now block_frames).1 }
{
    let mut tuning = tuning;
    let mut state = begin;
    for frame in 0..BLOCK_FRAMES {
        let (after, bands) = next(&mut tuning, state, inputs, frame);
        state = after;
        low[frame] = bands.low;
        band[frame] = bands.band;
        high[frame] = bands.high;
    }
    state
}

/// Runs SVF for a block.
pub(crate) fn run_svf<P: Port>(
    rate: u32,
    port: &mut P,
    at: u32,
    inputs: &Blocks,
    outputs: &mut Blocks,
)
    requires rate { 0 < rate }
    requires inputs { 3 ≤ length inputs.now }
    requires state { MayWrite (P.foot port.old) at 2 }
    ensures words { P.words port.new ≡ put (P.words port.old) at (svf_block rate (window (P.words port.old) at 2) inputs.now).0 }
    ensures outputs { outputs.new ≡ (svf_block rate (window (P.words port.old) at 2) inputs.now).1 }
    ensures port { SameButWords P.foot P.rest port.old port.new }
{
    let mut words = [0u64; 2];
    load_words(port, at, &mut words);
    let begin = Integrators::load(&words);
    let tuning = Tuning::new(rate, inputs.at(1, 0), inputs.at(2, 0));
    let mut low = [0i32; BLOCK_FRAMES];
    let mut band = [0i32; BLOCK_FRAMES];
    let mut high = [0i32; BLOCK_FRAMES];
    let state = run_frames(tuning, begin, inputs, &mut low, &mut band, &mut high);
    outputs.clear();
    outputs.push(&low);
    outputs.push(&band);
    outputs.push(&high);
    state.store(&mut words);
    store_words(port, at, &words);
}
