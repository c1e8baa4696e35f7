//! Divisions with remainder.
ghost use Rattle.std.specs.Prelude.{◌≡◌, ◌<◌, ◌≤◌, ◌+◌, ◌-◌, ◌^◌, pos, ◌*ℤ◌, ◌+ℤ◌, ◌-ℤ◌, unsigned_abs};
ghost use Rattle.std.specs.Int.{int_rem_euclid};
ghost use Rattle.sn_fixed.specs.Divisions.{IsDivided};

use crate::lines::{multiple, part, portion};

fn remainder(whole: i64, n: u32) -> u32
    requires { 0 < n }
    ensures { result ≡ unsigned_abs (int_rem_euclid whole (pos n)) }
{
    whole.rem_euclid(i64::from(n)) as u32
}

fn wide_remainder(product: i128, n: u32) -> u32
    requires { 0 < n }
    ensures { result ≡ unsigned_abs (int_rem_euclid product (pos n)) }
{
    product.rem_euclid(i128::from(n)) as u32
}

/// A quotient, rounded down, and its remainder.
#[derive(Clone, Copy)]
pub struct Division {
    pub quotient: i64,
    pub remainder: u32,
}

impl Division {
    /// The whole, divided by `n`.
    pub fn new(whole: i64, n: u32) -> Division
        requires whole { unsigned_abs whole ≤ 2 ^ 33 }
        requires some { 0 < n }
        ensures { IsDivided whole n result.quotient result.remainder }
    {
        Division {
            quotient: part(whole, n),
            remainder: remainder(whole, n),
        }
    }

    /// `k` times the whole, divided by `n`.
    pub fn of_multiple(whole: i64, k: u32, n: u32) -> Division
        requires whole { unsigned_abs whole ≤ 2 ^ 33 }
        requires part { k ≤ n }
        requires some { 0 < n }
        ensures { IsDivided (whole *ℤ pos k) n result.quotient result.remainder }
    {
        Division {
            quotient: portion(whole, k, n),
            remainder: wide_remainder(multiple(whole, k), n),
        }
    }

    /// The division by `n` of the sum of two numbers, from their divisions.
    pub fn plus(self, other: Division, n: u32) -> Division
        requires first { unsigned_abs self.quotient ≤ 2 ^ 33 }
        requires second { unsigned_abs other.quotient ≤ 2 ^ 33 }
        requires few { self.remainder < n }
        requires small { other.remainder < n }
        ensures under { self.remainder + other.remainder < n → (result.quotient ≡ self.quotient +ℤ other.quotient) × (result.remainder ≡ self.remainder + other.remainder) }
        ensures over { n ≤ self.remainder + other.remainder → (result.quotient ≡ self.quotient +ℤ other.quotient +ℤ pos 1) × (result.remainder ≡ self.remainder + other.remainder - n) }
    {
        let remainder = u64::from(self.remainder) + u64::from(other.remainder);
        if remainder < u64::from(n) {
            Division {
                quotient: self.quotient + other.quotient,
                remainder: remainder as u32,
            }
        } else {
            Division {
                quotient: self.quotient + other.quotient + 1,
                remainder: (remainder - u64::from(n)) as u32,
            }
        }
    }

    /// The division by `n` of the difference of two numbers, from their divisions.
    pub fn minus(self, other: Division, n: u32) -> Division
        requires first { unsigned_abs self.quotient ≤ 2 ^ 33 }
        requires second { unsigned_abs other.quotient ≤ 2 ^ 33 }
        requires few { self.remainder < n }
        requires small { other.remainder < n }
        ensures over { other.remainder ≤ self.remainder → (result.quotient ≡ self.quotient -ℤ other.quotient) × (result.remainder ≡ self.remainder - other.remainder) }
        ensures under { self.remainder < other.remainder → (result.quotient ≡ self.quotient -ℤ other.quotient -ℤ pos 1) × (result.remainder ≡ self.remainder + n - other.remainder) }
    {
        if other.remainder <= self.remainder {
            Division {
                quotient: self.quotient - other.quotient,
                remainder: self.remainder - other.remainder,
            }
        } else {
            let remainder = u64::from(self.remainder) + u64::from(n) - u64::from(other.remainder);
            Division {
                quotient: self.quotient - other.quotient - 1,
                remainder: remainder as u32,
            }
        }
    }
}
