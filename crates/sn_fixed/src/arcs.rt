//! Arcs: the sine by a polynomial. 2^31 is a quarter turn, and 2^62 is 1.0.
ghost use Rattle.std.specs.Prelude.{◌≡◌, ◌<◌, ◌≤◌, ◌-◌, ◌*◌, ◌/◌, ◌^◌, unsigned_abs};
ghost use Rattle.sn_fixed.specs.Arcs.{square, polynomial, arc, wave};

/// Half of a turn.
const HALF: u64 = 4_294_967_296;

/// The square of an angle up to a quarter turn: 2^30 is that of a quarter turn.
#[tactic(auto, using(crate::proofs::ArcBounds::square_small))]
fn square(u: u64) -> u64
    requires { u ≤ 2147483648 }
    ensures value { result ≡ square u }
    ensures bound { result ≤ 1073741824 }
{
    u * u / HALF
}

/// A step of Horner's rule: the coefficient less `t` times `h`. 2^30 is 1.0.
#[tactic(auto, using(crate::proofs::ArcBounds::product_small))]
fn less(coefficient: u64, t: u64, h: u64) -> u64
    requires t { t ≤ 1073741824 }
    requires h { h ≤ coefficient }
    requires coefficient { coefficient < 2 ^ 32 }
    ensures value { result ≡ coefficient - t * h / 1073741824 }
    ensures bound { result ≤ coefficient }
{
    coefficient - t * h / 1_073_741_824
}

/// The polynomial at the square of an angle.
fn polynomial(t: u64) -> u64
    requires { t ≤ 1073741824 }
    ensures value { result ≡ polynomial t }
    ensures bound { result < 2 ^ 32 }
{
    let h = less(10_036_036, t, 324_873);
    let h = less(171_131_830, t, h);
    let h = less(1_387_196_425, t, h);
    less(3_373_259_406, t, h)
}

/// The sine of an angle up to a quarter turn.
#[tactic(auto, unfolding(crate::specs::Arcs::arc))]
pub fn arc(u: u64) -> u64
    requires { u ≤ 2147483648 }
    ensures value { result ≡ arc u }
    ensures bound { result ≤ 2 ^ 62 }
{
    (u * polynomial(square(u))).min(4_611_686_018_427_387_904)
}

/// The sine of any angle.
#[tactic(auto, unfolding(crate::specs::Arcs::wave))]
pub fn wave(m: u64) -> i64
    ensures value { result ≡ wave m }
    ensures bound { unsigned_abs result ≤ 2 ^ 62 }
{
    let r = m % (2 * HALF);
    let h = r % HALF;
    let height = arc(h.min(HALF - h)) as i64;
    if r < HALF { height } else { -height }
}
