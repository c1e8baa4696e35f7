//! Fills that lie in order.
ghost use Rattle.std.specs.Prelude.{◌≡◌, ◌<◌, ◌≤◌, ◌+◌, ◌^◌, [], ℕ, OnOk, length};
ghost use Rattle.sn_fills.specs.Fills.{last_at};
ghost use Rattle.sn_fills.specs.Rows.{LieInOrder, IsPut};

use crate::fill::Fill;
use sn_ports::NoMemory;
use std::alloc::Global;

/// Fills in order, and the place after them.
#[derive(Drop)]
pub struct Row {
    pub fills: Vec<Fill>,
    pub end: u32,
}

impl Row {
    /// No fills.
    pub fn new(alloc: Global) -> Row
        ensures fills { result.fills.items ≡ [] }
        ensures end { result.end ≡ 0 }
    {
        Row {
            fills: Vec::new(alloc),
            end: 0,
        }
    }

    /// Puts the part of a fill that lies after the row and before `until`.
    pub fn put(&mut self, fill: &Fill, until: u32) -> Result<(), NoMemory>
        requires order { LieInOrder 0 self.old.end self.old.fills.items }
        requires fill { fill.now.first + fill.now.count < 2 ^ 32 }
        ensures { OnOk result (IsPut fill.now until self.old.end self.old.fills.items self.new.end self.new.fills.items) }
    {
        let first = fill.first.max(self.end);
        let end = fill.end().min(until);
        if first < end {
            self.fills.push(Fill {
                first,
                count: end - first,
                value: fill.value,
            })?;
            self.end = end;
        }
        Ok(())
    }
}
