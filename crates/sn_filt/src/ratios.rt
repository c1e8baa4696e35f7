//! Quotients and remainders.
ghost use Rattle.std.specs.Prelude.{◌≡◌, ◌<◌, ◌≤◌, ◌^◌, pos, ◌*ℤ◌, ◌≤ℤ◌, unsigned_abs};
ghost use Rattle.std.specs.Int.{int_rem_euclid};
ghost use Rattle.sn_fixed.specs.Fixed.{floor};
ghost use Rattle.sn_filt.specs.Ratios.{turned, end_of, ratio, modulo};

use crate::frames::Framewise;
use sn_fixed::{ONE, sat};
use sn_mem::Blocks;

/// `a`, or `-a` where `b` is negative.
fn turned(a: i32, b: i32) -> i64
    ensures value { result ≡ turned a b }
    ensures bound { unsigned_abs result ≤ 2 ^ 31 }
{
    if b < 0 { -i64::from(a) } else { i64::from(a) }
}

/// The end of the samples on the side of `a`, and 0 for 0.
fn end_of(a: i32) -> i32
    ensures { result ≡ end_of a }
{
    if 0 < a {
        i32::MAX
    } else if a < 0 {
        i32::MIN
    } else {
        0
    }
}

/// The quotient in the scale of samples, rounded down.
fn quotient(a: i64, n: u32) -> i64
    requires a { unsigned_abs a ≤ 2 ^ 31 }
    requires some { 0 < n }
    ensures { result ≡ floor (a *ℤ pos 16777216) n }
{
    (a * i64::from(ONE)).div_euclid(i64::from(n))
}

/// `a` over `b` as a sample, rounded down.
fn ratio(a: i32, b: i32) -> i32
    ensures { result ≡ ratio a b }
{
    if b == 0 {
        end_of(a)
    } else {
        sat(quotient(turned(a, b), b.unsigned_abs()))
    }
}

/// The remainder by `n`, from 0 to below it.
fn rest(a: i64, n: u32) -> i32
    requires a { unsigned_abs a ≤ 2 ^ 31 }
    requires some { 0 < n }
    requires n { n ≤ 2 ^ 31 }
    ensures value { result ≡ int_rem_euclid a (pos n) }
    ensures low { pos 0 ≤ℤ result }
{
    a.rem_euclid(i64::from(n)) as i32
}

/// `x`, or `-x` where `b` is negative.
fn towards(x: i32, b: i32) -> i32
    requires { pos 0 ≤ℤ x }
    ensures { result ≡ turned x b }
{
    if b < 0 { -x } else { x }
}

/// `a` less a whole number of `b`: from 0 up to `b`, or down to it, without `b` itself.
fn modulo(a: i32, b: i32) -> i32
    ensures { result ≡ modulo a b }
{
    if b == 0 {
        0
    } else {
        towards(rest(turned(a, b), b.unsigned_abs()), b)
    }
}

/// Div a b
#[derive(Clone, Copy)]
pub(crate) struct Div;

impl Framewise for Div {
    ghost use Rattle.sn_filt.specs.Ratios.{ratio, div};
    ghost use Rattle.sn_filt.specs.Frames.{of_two};

    ghost arity = { λ _. 2 };

    ghost value = { λ _. div };

    fn sample(&self, inputs: &Blocks, frame: usize) -> i32 {
        ratio(inputs.at(0, frame), inputs.at(1, frame))
    }

    ghost steady = { λ _. of_two ratio };
}

/// Mod a b
#[derive(Clone, Copy)]
pub(crate) struct Mod;

impl Framewise for Mod {
    ghost use Rattle.sn_filt.specs.Ratios.{modulo, mod_of};
    ghost use Rattle.sn_filt.specs.Frames.{of_two};

    ghost arity = { λ _. 2 };

    ghost value = { λ _. mod_of };

    fn sample(&self, inputs: &Blocks, frame: usize) -> i32 {
        modulo(inputs.at(0, frame), inputs.at(1, frame))
    }

    ghost steady = { λ _. of_two modulo };
}
