//! Fills that are put in order.
ghost use Rattle.std.specs.Prelude.{◌≡◌, ◌<◌, ◌≤◌, ◌+◌, ◌^◌, ℕ, ◌∷◌, [], IfOk, drop};
ghost use Rattle.std.specs.List.{All};
ghost use Rattle.sn_fills.specs.Fills.{last_at};
ghost use Rattle.sn_fills.specs.Rows.{LieInOrder, ArePut, IsInOrder, IsOverlaid};

use crate::fill::Fill;
use crate::row::Row;
use sn_ports::NoMemory;
use std::alloc::Global;

/// Puts what lies after the row and before `until` of the fills from `index` on, and returns the index of the first one
/// that may go on there.
fn put_before(row: &mut Row, fills: &[Fill], index: usize, until: u32) -> Result<usize, NoMemory>
    requires row { LieInOrder 0 row.old.end row.old.fills.items }
    requires fills { LieInOrder 0 4294967295 fills.now }
    requires index { (n : ℕ) → row.old.end ≤ n → last_at n (drop index fills.now) ≡ last_at n fills.now }
    requires until { row.old.end ≤ until }
    ensures { IfOk result (λ next. ArePut fills.now until next row.old.end row.old.fills.items row.new.end row.new.fills.items) }
{
    for next in index..fills.len() {
        let fill = fills[next];
        row.put(&fill, until)?;
        if fill.end() > until {
            return Ok(next);
        }
    }
    Ok(fills.len())
}

/// What is set if the later fills come after the earlier ones.
fn overlaid(alloc: Global, earlier: &[Fill], later: &[Fill]) -> Result<Vec<Fill>, NoMemory>
    requires earlier { LieInOrder 0 4294967295 earlier.now }
    requires later { LieInOrder 0 4294967295 later.now }
    ensures { IfOk result (λ all. IsOverlaid earlier.now later.now all.items) }
{
    let mut row = Row::new(alloc);
    let mut index = 0;
    for fill in later {
        index = put_before(&mut row, earlier, index, fill.first)?;
        row.put(fill, u32::MAX)?;
    }
    put_before(&mut row, earlier, index, u32::MAX)?;
    Ok(row.fills)
}

/// One fill, if it is not empty.
fn alone(alloc: Global, fill: &Fill) -> Result<Vec<Fill>, NoMemory>
    requires { fill.now.first + fill.now.count < 2 ^ 32 }
    ensures { IfOk result (λ all. IsInOrder (fill.now ∷ []) all.items) }
{
    let mut row = Row::new(alloc);
    row.put(fill, u32::MAX)?;
    Ok(row.fills)
}

/// What fills set, in order: each half is put in order, and the later half goes over the earlier one.
pub fn in_order(alloc: Global, fills: &[Fill]) -> Result<Vec<Fill>, NoMemory>
    requires { All (λ f. f.first + f.count < 2 ^ 32) fills.now }
    ensures { IfOk result (λ all. IsInOrder fills.now all.items) }
{
    if fills.is_empty() {
        return Ok(Vec::new(alloc));
    }
    if fills.len() == 1 {
        return alone(alloc, &fills[0]);
    }
    let (earlier, later) = fills.split_at(fills.len() / 2);
    let earlier = in_order(alloc, earlier)?;
    let later = in_order(alloc, later)?;
    overlaid(alloc, &earlier, &later)
}
