//! Powers of two and logarithms, by polynomials.
ghost use Rattle.std.specs.Prelude.{◌≡◌, ◌<◌, ◌≤◌, ◌≤ℤ◌, ◌+◌, ◌-◌, ◌/◌, ◌^◌, ℤ, pos, negsuc, ◌+ℤ◌, ◌-ℤ◌, ◌*ℤ◌, unsigned_abs, ◌++◌, ◌∷◌, [], length};
ghost use Rattle.sn_ports.specs.Limits.{block_frames, most_wires};
ghost use Rattle.sn_fixed.specs.Fixed.{floor};
ghost use Rattle.sn_mem.specs.Blocks.{table};
ghost use Rattle.sn_filt.specs.Powers.{mantissa, power, power_of, slope, highest, logarithm, logarithm_of, log2};

use crate::frames::{Framewise, push_moving_frames};
use sn_fixed::ONE;
use sn_mem::Blocks;

/// A step of Horner's rule: `c` more than the part `f` of `h`.
#[tactic(auto, using(crate::proofs::Parts::part_fits, crate::proofs::Parts::part_below))]
fn more(f: u32, h: u64, c: u64) -> u64
    requires f { f < 2 ^ 24 }
    requires some { 0 < h }
    requires h { h ≤ 2 ^ 38 }
    requires c { c ≤ 2 ^ 38 }
    ensures value { pos result ≡ pos c +ℤ floor (pos f *ℤ pos h) 16777216 }
    ensures low { c ≤ result }
    ensures high { result < c + h }
{
    c + u64::from(f) * h / 16_777_216
}

/// 2^f, of which 2^38 is 1.0.
fn mantissa(f: u32) -> u64
    requires { f < 2 ^ 24 }
    ensures value { pos result ≡ mantissa (pos f) }
    ensures bound { result < 2 ^ 39 }
{
    let h = more(f, 59_689_807, 341_972_226);
    let h = more(f, h, 2_660_285_941);
    let h = more(f, h, 15_251_367_701);
    let h = more(f, h, 66_033_785_798);
    let h = more(f, h, 190_530_805_471);
    more(f, h, 274_877_906_944)
}

/// How far a number of which 2^38 is 1.0 is shifted to be 2^n of a sample.
fn places(n: i32) -> u32
    requires low { negsuc 23 ≤ℤ n }
    requires high { n ≤ℤ pos 6 }
    ensures value { result ≡ unsigned_abs (pos 14 -ℤ n) }
    ensures low { 8 ≤ result }
    ensures high { result ≤ 38 }
{
    (14 - n) as u32
}

/// The number without its lowest binary digits.
#[tactic(auto, using(crate::proofs::Parts::shift_small))]
fn shifted(number: u64, places: u32) -> i32
    requires number { number < 2 ^ 39 }
    requires low { 8 ≤ places }
    requires high { places ≤ 38 }
    ensures { result ≡ pos (number / 2 ^ places) }
{
    (number >> places) as i32
}

/// 2^(n + f) as a sample.
fn power(n: i32, f: u32) -> i32
    requires low { negsuc 23 ≤ℤ n }
    requires high { n ≤ℤ pos 6 }
    requires f { f < 2 ^ 24 }
    ensures { result ≡ power n (pos f) }
{
    shifted(mantissa(f), places(n))
}

/// The whole number of samples 1.0 up to `x`.
fn whole(x: i32) -> i32
    ensures { result ≡ floor x 16777216 }
{
    x.div_euclid(ONE)
}

/// What `x` is above that number.
fn part(x: i32) -> u32
    ensures value { pos result ≡ x -ℤ floor x 16777216 *ℤ pos 16777216 }
    ensures bound { result < 2 ^ 24 }
{
    x.rem_euclid(ONE) as u32
}

/// 2^x: the greatest sample from 7.0 on, and 0 below -24.0.
fn power_of(x: i32) -> i32
    ensures { result ≡ power_of x }
{
    let n = whole(x);
    if n >= 7 {
        i32::MAX
    } else if n <= -25 {
        0
    } else {
        power(n, part(x))
    }
}

/// A step of Horner's rule: `c` less than the part `u` of `h`.
#[tactic(auto, using(crate::proofs::Parts::portion_fits, crate::proofs::Parts::portion_small))]
fn less(u: u32, h: u64, c: u64) -> u64
    requires u { u < 2 ^ 30 }
    requires h { h ≤ c }
    requires c { c < 2 ^ 33 }
    ensures value { pos result ≡ pos c -ℤ floor (pos u *ℤ pos h) 1073741824 }
    ensures bound { result ≤ c }
{
    c - u64::from(u) * h / 1_073_741_824
}

/// The logarithm of 1.0 + u over u, of which 2^32 is 1.0.
fn slope(u: u32) -> u64
    requires { u < 2 ^ 30 }
    ensures value { pos result ≡ slope (pos u) }
    ensures bound { result < 2 ^ 33 }
{
    let h = less(u, 23_944_225, 146_096_444);
    let h = less(u, h, 418_890_942);
    let h = less(u, h, 783_600_322);
    let h = less(u, h, 1_149_166_213);
    let h = less(u, h, 1_528_342_713);
    let h = less(u, h, 2_062_659_376);
    let h = less(u, h, 3_097_977_664);
    less(u, h, 6_196_323_683)
}

/// The logarithm of 1.0 + u as a sample.
#[tactic(auto, using(crate::proofs::Parts::portion_fits, crate::proofs::Parts::rise_small))]
fn rise(u: u32) -> u32
    requires { u < 2 ^ 30 }
    ensures value { pos result ≡ floor (pos u *ℤ slope (pos u)) 274877906944 }
    ensures bound { result ≤ 2 ^ 25 }
{
    (u64::from(u) * slope(u) / 274_877_906_944) as u32
}

/// The logarithm of 2^e (1.0 + u).
fn logarithm(e: u32, u: u32) -> i32
    requires e { e ≤ 30 }
    requires u { u < 2 ^ 30 }
    ensures { result ≡ logarithm e (pos u) }
{
    (e as i32 - 24) * ONE + rise(u) as i32
}

/// The place of the highest binary digit.
#[tactic(auto, using(crate::proofs::Parts::leading_small, crate::proofs::Parts::highest_small, crate::proofs::Parts::highest_low, crate::proofs::Parts::highest_high))]
fn highest(n: u32) -> u32
    requires some { 0 < n }
    requires n { n < 2 ^ 31 }
    ensures value { result ≡ highest n }
    ensures bound { result ≤ 30 }
    ensures low { 2 ^ result ≤ n }
    ensures high { n < 2 ^ (result + 1) }
{
    31 - n.leading_zeros()
}

/// What is left of a number whose highest digit has this place when that digit, shifted to 2^30, is taken away.
#[tactic(auto, using(crate::proofs::Parts::shifted_low, crate::proofs::Parts::shifted_high))]
fn rest(n: u32, place: u32) -> u32
    requires place { place ≤ 30 }
    requires low { 2 ^ place ≤ n }
    requires high { n < 2 ^ (place + 1) }
    ensures value { pos result ≡ pos n *ℤ pos (2 ^ (30 - place)) -ℤ pos 1073741824 }
    ensures bound { result < 2 ^ 30 }
{
    (n << (30 - place)) - 1_073_741_824
}

/// The logarithm of `x` above 0, and the least sample for others.
fn logarithm_of(x: i32) -> i32
    ensures { result ≡ logarithm_of x }
{
    if x <= 0 {
        i32::MIN
    } else {
        let n = x.unsigned_abs();
        let e = highest(n);
        logarithm(e, rest(n, e))
    }
}

/// Exp2 x
#[derive(Clone, Copy)]
pub(crate) struct Exp2;

impl Framewise for Exp2 {
    ghost use Rattle.sn_filt.specs.Powers.{power_of, exp2};
    ghost use Rattle.sn_filt.specs.Frames.{of_one};

    ghost arity = { λ _. 1 };

    ghost value = { λ _. exp2 };

    fn sample(&self, inputs: &Blocks, frame: usize) -> i32 {
        power_of(inputs.at(0, frame))
    }

    ghost steady = { λ _. of_one power_of };
}

/// Log2 x
#[derive(Clone, Copy)]
struct Log2;

impl Framewise for Log2 {
    ghost use Rattle.sn_filt.specs.Powers.{logarithm_of, log2};
    ghost use Rattle.sn_filt.specs.Frames.{of_one};

    ghost arity = { λ _. 1 };

    ghost value = { λ _. log2 };

    fn sample(&self, inputs: &Blocks, frame: usize) -> i32 {
        logarithm_of(inputs.at(0, frame))
    }

    ghost steady = { λ _. of_one logarithm_of };
}

/// Appends the logarithms of a block's samples. Whether they stay the same is asked of the input alone.
pub(crate) fn push_logarithms(inputs: &Blocks, outputs: &mut Blocks)
    requires inputs { 1 ≤ length inputs.now }
    requires outputs { length outputs.old < most_wires }
    ensures { outputs.new ≡ outputs.old ++ table (log2 inputs.now) block_frames ∷ [] }
{
    match inputs.same(0) {
        Some(x) => outputs.push_equal(logarithm_of(x)),
        None => push_moving_frames(&Log2, inputs, outputs),
    }
}
