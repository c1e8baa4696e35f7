//! Extents in one order.
ghost use Rattle.std.specs.Prelude.{◌≡◌, ◌<◌, ◌≤◌, ◌+◌, true, false, [], OnOk, length};
ghost use Rattle.std.specs.List.Sorted.{IsPartitionPoint};
ghost use Rattle.sn_pool.specs.Sorting.{before, AreInOrder, IsOneMore};
ghost use Rattle.sn_pool.specs.Pools.{times};

use sn_mem::Extent;
use sn_ports::NoMemory;
use std::alloc::Global;
use std::marker::Model;

/// How extents are ordered.
#[derive(Clone, Copy)]
pub enum Order {
    /// By their places, and at one place by their lengths.
    Place,
    /// By their lengths, and of one length by their places.
    Size,
}

/// Whether the first comes before the second.
fn is_before(order: Order, one: &Extent, other: &Extent) -> bool
    ensures { result ≡ before order one.now other.now }
{
    match order {
        Order::Place => one.at < other.at || one.at == other.at && one.len < other.len,
        Order::Size => one.len < other.len || one.len == other.len && one.at < other.at,
    }
}

/// How many of the extents come before this one.
fn number_before(order: Order, extents: &[Extent], extent: Extent) -> usize
    requires { AreInOrder order extents.now }
    ensures within { result ≤ length extents.now }
    ensures parted { IsPartitionPoint (λ e. before order e extent ≡ true) (λ e. before order e extent ≡ false) extents.now result }
{
    extents.partition_point(|other| is_before(order, other, &extent))
}

/// Extents in one order, with room for more.
#[derive(Drop)]
pub struct Sorted {
    order: Order,
    items: Vec<Extent>,
}

impl Model for Sorted {
    ghost use Rattle.std.specs.Prelude.{vec_capacity};
    ghost use Rattle.sn_pool.specs.Sorting.{Row, AreInOrder};

    ghost Value = { Row };

    ghost view = { λ s. record { order = s.order; items = s.items.items; room = vec_capacity s.items } };

    ghost invariant = { λ s. AreInOrder s.order s.items.items };
}

impl Sorted {
    /// No extents.
    pub fn new(alloc: Global, order: Order) -> Sorted
        ensures order { result.order ≡ order }
        ensures items { result.items ≡ [] }
    {
        Sorted {
            order,
            items: Vec::new(alloc),
        }
    }

    /// Makes room for `total` extents in all. No room is lost.
    pub fn reserve(&mut self, total: usize) -> Result<(), NoMemory>
        ensures order { self.new.order ≡ self.old.order }
        ensures items { self.new.items ≡ self.old.items }
        ensures room { OnOk result (total ≤ self.new.room) }
        ensures grows { self.old.room ≤ self.new.room }
    {
        let more = total.saturating_sub(self.items.len());
        self.items.reserve(more)?;
        Ok(())
    }

    /// Puts an extent in its place, for which there is room.
    pub fn insert(&mut self, extent: Extent)
        requires { length self.old.items < self.old.room }
        ensures added { IsOneMore extent self.old.items self.new.items }
        ensures sorted { AreInOrder self.new.order self.new.items }
        ensures len { length self.new.items ≡ length self.old.items + 1 }
        ensures order { self.new.order ≡ self.old.order }
        ensures room { self.new.room ≡ self.old.room }
    {
        let index = number_before(self.order, &self.items, extent);
        match self.items.insert(index, extent) {
            Ok(()) => {}
            Err(_) => unreachable!(),
        }
    }

    /// Takes an extent out.
    pub fn remove(&mut self, extent: Extent)
        requires { 0 < times extent self.old.items }
        ensures removed { IsOneMore extent self.new.items self.old.items }
        ensures sorted { AreInOrder self.new.order self.new.items }
        ensures len { length self.new.items + 1 ≡ length self.old.items }
        ensures order { self.new.order ≡ self.old.order }
        ensures room { self.new.room ≡ self.old.room }
    {
        let index = number_before(self.order, &self.items, extent);
        self.items.remove(index);
    }

    /// The extents, in order.
    pub fn as_slice(&self) -> &[Extent]
        ensures items { result.now ≡ self.now.items }
        ensures sorted { AreInOrder self.now.order result.now }
    {
        &self.items
    }
}
