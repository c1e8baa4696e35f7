//! Rows of formulas on samples.
ghost use Rattle.sn_calls.specs.Ready.{Always};

use crate::line::{Answer, Line, Rows, Unanswered, int_if_any, natural_if_any, number, truth};
use sn_fixed::{
    add, added, distance, frames_of, into_range, line_at, literal, mul, mul_add, natural, portion,
    products, rises, sat, sat_wide, scaled, scaled_sample, sine, step_of, sub, times, total,
    weighted,
};
use std::alloc::Global;

/// Formulas, which keep nothing.
#[derive(Drop)]
pub struct FixedRows {
    pub alloc: Global,
}

/// A formula of two samples.
fn of_two(verb: &str, a: i32, b: i32) -> Result<i128, Unanswered> {
    match verb {
        "add" => Ok(i128::from(add(a, b))),
        "sub" => Ok(i128::from(sub(a, b))),
        "mul" => Ok(i128::from(mul(a, b))),
        "times" => Ok(i128::from(times(a, b))),
        "distance" => Ok(i128::from(distance(a, b))),
        _ => Err(Unanswered::NoRow),
    }
}

fn frequency(freq: i32, rate: u32) -> Result<i128, Unanswered> {
    if rate == 0 {
        return Err(Unanswered::NoRow);
    }
    Ok(i128::from(step_of(freq, rate)))
}

fn sum_of_three(a: i128, b: i128, c: i64) -> Result<i128, Unanswered> {
    if a.unsigned_abs() > 1 << 64 || b.unsigned_abs() > 1 << 64 {
        return Err(Unanswered::NoRow);
    }
    Ok(total(a, b, c))
}

fn part_of(whole: i64, k: u32, n: u32) -> Result<i128, Unanswered> {
    if whole.unsigned_abs() > 1 << 33 || k > n || n == 0 {
        return Err(Unanswered::NoRow);
    }
    Ok(i128::from(portion(whole, k, n)))
}

fn point_of(start: i32, end: i32, k: u32, n: u32) -> Result<i128, Unanswered> {
    if k > n || n == 0 {
        return Err(Unanswered::NoRow);
    }
    Ok(i128::from(line_at(start, end, k, n)))
}

fn ranged(low: i32, range: i64, x: i64) -> Result<i128, Unanswered> {
    if range <= 0 || range > 2_147_483_648 - i64::from(low) || x.unsigned_abs() > 1 << 40 {
        return Err(Unanswered::NoRow);
    }
    Ok(i128::from(into_range(low, range, x)))
}

/// A formula of one number, or of several that are no two samples.
fn of_others(verb: &str, line: &mut Line<'_>) -> Result<i128, Unanswered> {
    match verb {
        "sat" => Ok(i128::from(sat(line.wide()?))),
        "sat_wide" => Ok(i128::from(sat_wide(line.widest()?))),
        "scaled" => Ok(i128::from(scaled(line.wide()?))),
        "scaled_sample" => Ok(i128::from(scaled_sample(line.widest()?))),
        "added" => Ok(added(line.wide()?, line.wide()?)),
        "total" => sum_of_three(line.widest()?, line.widest()?, line.wide()?),
        "mul_add" => Ok(i128::from(mul_add(line.int()?, line.int()?, line.int()?))),
        "portion" => part_of(line.wide()?, line.natural()?, line.natural()?),
        "into_range" => ranged(line.int()?, line.wide()?, line.wide()?),
        "sine" => Ok(i128::from(sine(line.natural()?))),
        "step_of" => frequency(line.int()?, line.natural()?),
        "frames_of" => Ok(i128::from(frames_of(line.int()?, line.natural()?))),
        _ => of_two(verb, line.int()?, line.int()?),
    }
}

/// A formula of four numbers or another one.
fn formula(verb: &str, line: &mut Line<'_>) -> Result<i128, Unanswered> {
    match verb {
        "products" => Ok(products(line.int()?, line.int()?, line.int()?, line.int()?)),
        "weighted" => {
            let sum = weighted(line.int()?, line.int()?, line.int()?, line.int()?);
            Ok(i128::from(sum))
        }
        "line_at" => point_of(line.int()?, line.int()?, line.natural()?, line.natural()?),
        _ => of_others(verb, line),
    }
}

impl Rows for FixedRows {
    ghost ready = { λ _. Always };

    fn answer(&mut self, line: &mut Line<'_>) -> Answer {
        let alloc = self.alloc;
        match line.word() {
            "literal" => int_if_any(alloc, literal(line.word().as_bytes())),
            "natural" => natural_if_any(alloc, natural(line.word().as_bytes())),
            "rises" => truth(alloc, rises(line.int()?, line.int()?)),
            verb => number(alloc, formula(verb, line)?),
        }
    }
}
