//! Portions of a number, and points of a straight line.
ghost use Rattle.std.specs.Prelude.{◌≡◌, ◌<◌, ◌≤◌, ◌^◌, pos, ◌*ℤ◌, ◌+ℤ◌, ◌-ℤ◌, unsigned_abs, FitsSigned};
ghost use Rattle.std.specs.Int.{w32, w64};
ghost use Rattle.sn_fixed.specs.Fixed.{floor};
ghost use Rattle.sn_fixed.specs.Lines.{IsBetween, line_at};

pub(crate) fn multiple(whole: i64, k: u32) -> i128
    requires { unsigned_abs whole ≤ 2 ^ 33 }
    ensures { result ≡ whole *ℤ pos k }
{
    i128::from(whole) * i128::from(k)
}

fn quotient(product: i128, n: u32) -> i128
    requires { 0 < n }
    ensures { result ≡ floor product n }
{
    product.div_euclid(i128::from(n))
}

fn wide_portion(whole: i64, k: u32, n: u32) -> i128
    requires whole { unsigned_abs whole ≤ 2 ^ 33 }
    requires part { k ≤ n }
    requires some { 0 < n }
    ensures value { result ≡ floor (whole *ℤ pos k) n }
    ensures between { IsBetween result whole }
{
    quotient(multiple(whole, k), n)
}

fn narrow(x: i128) -> i64
    requires { FitsSigned w64 x }
    ensures { result ≡ x }
{
    x as i64
}

/// `k` of `n` equal parts of the whole, rounded down.
pub fn portion(whole: i64, k: u32, n: u32) -> i64
    requires whole { unsigned_abs whole ≤ 2 ^ 33 }
    requires part { k ≤ n }
    requires some { 0 < n }
    ensures value { result ≡ floor (whole *ℤ pos k) n }
    ensures between { IsBetween result whole }
{
    narrow(wide_portion(whole, k, n))
}

/// The exact difference of two samples.
pub fn distance(start: i32, end: i32) -> i64
    ensures value { result ≡ end -ℤ start }
    ensures bound { unsigned_abs result ≤ 2 ^ 33 }
{
    i64::from(end) - i64::from(start)
}

/// One of `n` equal parts of the whole, rounded down.
#[tactic(auto, using(crate::proofs::Portions::part_between))]
pub(crate) fn part(whole: i64, n: u32) -> i64
    requires whole { unsigned_abs whole ≤ 2 ^ 33 }
    requires some { 0 < n }
    ensures value { result ≡ floor whole n }
    ensures between { IsBetween result whole }
{
    whole.div_euclid(i64::from(n))
}

/// The start, moved by `by`.
pub fn moved(start: i32, by: i64) -> i32
    requires { FitsSigned w32 (start +ℤ by) }
    ensures { result ≡ start +ℤ by }
{
    (i64::from(start) + by) as i32
}

/// The sample at frame `k` of a straight line of `n` frames from `start` to `end`, rounded down.
#[tactic(auto, unfolding(crate::specs::Lines::line_at))]
pub fn line_at(start: i32, end: i32, k: u32, n: u32) -> i32
    requires part { k ≤ n }
    requires some { 0 < n }
    ensures { result ≡ line_at start end k n }
{
    moved(start, portion(distance(start, end), k, n))
}

/// The sample at the end of the first of `n` equal parts of the way from `start` to `end`, rounded down.
pub fn nearer(start: i32, end: i32, n: u32) -> i32
    requires { 0 < n }
    ensures { result ≡ start +ℤ floor (end -ℤ start) n }
{
    moved(start, part(distance(start, end), n))
}
