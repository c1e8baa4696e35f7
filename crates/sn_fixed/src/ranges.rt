//! Ranges of samples.
ghost use Rattle.std.specs.Prelude.{◌≡◌, ◌≤◌, ◌^◌, pos, ◌+ℤ◌, ◌-ℤ◌, ◌<ℤ◌, ◌≤ℤ◌, unsigned_abs};
ghost use Rattle.std.specs.Int.{int_rem_euclid};
ghost use Rattle.sn_fixed.specs.Ranges.{into_range};

use crate::lines::moved;

/// The remainder of `x` by the range. Within the range, and one range above it, that takes no division.
#[tactic(auto, using(crate::proofs::Remainders::within, crate::proofs::Remainders::above))]
fn remainder(x: i64, range: i64) -> i64
    requires { pos 0 <ℤ range }
    ensures value { result ≡ int_rem_euclid x range }
    ensures low { pos 0 ≤ℤ result }
    ensures high { result <ℤ range }
{
    if x < 0 {
        x.rem_euclid(range)
    } else if x < range {
        x
    } else if x - range < range {
        x - range
    } else {
        x.rem_euclid(range)
    }
}

fn above(low: i32, x: i64) -> i64
    requires { unsigned_abs x ≤ 2 ^ 40 }
    ensures { result ≡ x -ℤ low }
{
    x - i64::from(low)
}

/// The sample from `low` on, below `low + range`, that is a whole number of ranges from `x`.
pub fn into_range(low: i32, range: i64, x: i64) -> i32
    requires some { pos 0 <ℤ range }
    requires fits { (low +ℤ range) ≤ℤ pos 2147483648 }
    requires bound { unsigned_abs x ≤ 2 ^ 40 }
    ensures { result ≡ into_range low range x }
{
    moved(low, remainder(above(low, x), range))
}
