//! Audio buses that are moved onto lanes.
ghost use Rattle.std.specs.Prelude.{◌≡◌, ◌++◌, ◌∷◌, [], IfOk, OnErr, OnOk, slice_index_or};

use crate::extents::Extent;
use sn_ports::NoMemory;
use std::alloc::Global;
use std::marker::Model;

/// An audio bus, and the lane on which what a synth adds to it is kept.
#[derive(Clone, Copy)]
pub struct Moved {
    /// The 65 words of the bus.
    pub bus: Extent,
    /// The 65 words of the lane: the number of the last block that wrote it plus 1, or 0, and then 64 samples.
    pub lane: Extent,
}

/// A list of them.
#[derive(Drop)]
pub struct Moves {
    items: Vec<Moved>,
}

impl Model for Moves {
    ghost use Rattle.std.specs.Prelude.{List};
    ghost use Rattle.sn_mem.specs.declared.moves.Moved.{Moved};

    ghost Value = { List Moved };

    ghost view = { λ s. s.items.items };
}

impl Moves {
    /// None.
    pub fn new(alloc: Global) -> Moves
        ensures { result ≡ [] }
    {
        Moves {
            items: Vec::new(alloc),
        }
    }

    /// Appends one. An `Err` changes nothing.
    pub fn push(&mut self, moved: Moved) -> Result<(), NoMemory>
        ensures ok { OnOk result (self.new ≡ self.old ++ moved ∷ []) }
        ensures err { OnErr result (self.new ≡ self.old) }
    {
        self.items.push(moved)?;
        Ok(())
    }

    /// A copy.
    pub fn copied(&self, alloc: Global) -> Result<Moves, NoMemory>
        ensures { IfOk result (λ copy. copy ≡ self.now) }
    {
        let mut items = Vec::new(alloc);
        items.extend_from_slice(&self.items)?;
        Ok(Moves { items })
    }

    /// All, in order.
    pub fn as_slice(&self) -> &[Moved]
        ensures { result.now ≡ self.now }
    {
        &self.items
    }
}

fn copied_lists(alloc: Global, lists: &[Moves]) -> Result<Vec<Moves>, NoMemory>
    ensures { IfOk result (λ copy. copy.items ≡ lists.now) }
{
    let mut copy = Vec::new(alloc);
    for list in lists {
        copy.push(list.copied(alloc)?)?;
    }
    Ok(copy)
}

/// Lists of them, each by its number.
#[derive(Drop)]
pub struct AllMoves {
    items: Vec<Moves>,
}

impl Model for AllMoves {
    ghost use Rattle.std.specs.Prelude.{List};
    ghost use Rattle.sn_mem.specs.declared.moves.Moved.{Moved};

    ghost Value = { List (List Moved) };

    ghost view = { λ s. s.items.items };
}

impl AllMoves {
    /// No lists.
    pub fn new(alloc: Global) -> AllMoves
        ensures { result ≡ [] }
    {
        AllMoves {
            items: Vec::new(alloc),
        }
    }

    /// Appends a list. An `Err` changes nothing.
    pub fn push(&mut self, moves: Moves) -> Result<(), NoMemory>
        ensures ok { OnOk result (self.new ≡ self.old ++ moves ∷ []) }
        ensures err { OnErr result (self.new ≡ self.old) }
    {
        self.items.push(moves)?;
        Ok(())
    }

    /// A copy.
    pub fn copied(&self, alloc: Global) -> Result<AllMoves, NoMemory>
        ensures { IfOk result (λ copy. copy ≡ self.now) }
    {
        let items = copied_lists(alloc, &self.items)?;
        Ok(AllMoves { items })
    }

    /// The list of a number, which is empty past the end.
    pub fn of(&self, number: usize) -> &[Moved]
        ensures { result.now ≡ slice_index_or self.now number [] }
    {
        match self.items.get(number) {
            Some(moves) => moves.as_slice(),
            None => &[],
        }
    }
}
