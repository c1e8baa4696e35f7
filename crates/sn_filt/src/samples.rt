//! Functions of samples, without a branch in what a compiler makes of them.
ghost use Rattle.std.specs.Prelude.{◌≡◌, ◌-ℤ◌, ◌≤ℤ◌, pos, cond, int_lt};
ghost use Rattle.sn_fixed.specs.Fixed.{mul};
ghost use Rattle.sn_filt.specs.Arithmetic.{rightness};

use crate::poles::clipped;
use crate::steady::scaled_down;
use sn_fixed::{ONE, times};

/// 1.0 if the first sample is less than the other, else 0.
pub(crate) fn one_if_less(a: i32, b: i32) -> i32
    ensures { result ≡ cond (int_lt a b) (pos 16777216) (pos 0) }
{
    if a < b { ONE } else { 0 }
}

/// The sample nearest to the product of two samples, which is brought to their scale and rounded down. The exact
/// product is clamped first, since that takes no branch.
pub(crate) fn limited_product(a: i32, b: i32) -> i32
    ensures { result ≡ mul a b }
{
    scaled_down(times(a, b).clamp(-36_028_797_018_963_968, 36_028_797_018_963_967))
}

/// The part of a sample that a gain from 0 to 1.0 leaves, which needs no limit.
pub(crate) fn part(x: i32, gain: i32) -> i32
    requires low { pos 0 ≤ℤ gain }
    requires high { gain ≤ℤ pos 16777216 }
    ensures { result ≡ mul x gain }
{
    scaled_down(times(x, gain))
}

/// How far to the right a position is: 0 is left, and 1.0 right.
pub(crate) fn rightness(position: i32) -> i32
    ensures value { result ≡ rightness position }
    ensures low { pos 0 ≤ℤ result }
    ensures high { result ≤ℤ pos 16777216 }
{
    (clipped(position) + ONE) >> 1
}

/// How far to the left a position is: 1.0 is left, and 0 right.
pub(crate) fn leftness(position: i32) -> i32
    ensures value { result ≡ pos 16777216 -ℤ rightness position }
    ensures low { pos 0 ≤ℤ result }
    ensures high { result ≤ℤ pos 16777216 }
{
    ONE - rightness(position)
}
