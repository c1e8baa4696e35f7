//! Blocks of samples.
ghost use Rattle.std.specs.Prelude.{◌≡◌, ◌<◌, ◌≤◌, ◌+◌, ◌++◌, ◌∷◌, [], true, IfOk, IfSome, length, replicate};
ghost use Rattle.sn_ports.specs.Limits.{block_frames, most_wires};
ghost use Rattle.sn_mem.specs.Blocks.{sample, block, AreSteady};

use sn_ports::NoMemory;
use sn_ports::limits::{BLOCK_FRAMES, MOST_WIRES};
use std::alloc::Global;
use std::marker::Model;

/// The samples of a block in Q8.24, one a frame.
pub type Block = [i32; BLOCK_FRAMES];

/// A list of blocks, no more than a definition has wires.
#[derive(Drop)]
pub struct Blocks {
    items: Vec<Block>,
    // Whether the block of the same number is known to be of equal samples.
    marks: Vec<bool>,
    used: usize,
    // Whether each block is known to be of equal samples. It holds nothing that a clause sees.
    steady: bool,
}

impl Model for Blocks {
    ghost use Rattle.std.specs.Prelude.{List, ℤ, take, true, ◌≡◌, ◌≤◌, vec_len};
    ghost use Rattle.sn_ports.specs.Limits.{most_wires};
    ghost use Rattle.sn_mem.specs.Blocks.{AreSteady, AreMarked};

    ghost Value = { List (List ℤ) };

    ghost view = { λ b. take b.used b.items.items };

    ghost invariant = { λ b. (vec_len b.items ≡ most_wires) × (vec_len b.marks ≡ most_wires) × (b.used ≤ most_wires) × (b.steady ≡ true → AreSteady (take b.used b.items.items)) × AreMarked b.marks.items b.items.items };
}

impl Blocks {
    /// No blocks, with room for as many as there may be.
    pub fn new(alloc: Global) -> Result<Blocks, NoMemory>
        ensures { IfOk result (λ b. b ≡ []) }
    {
        let items = vec![in alloc; [0i32; BLOCK_FRAMES]; MOST_WIRES]?;
        let marks = vec![in alloc; false; MOST_WIRES]?;
        Ok(Blocks {
            items,
            marks,
            used: 0,
            steady: true,
        })
    }

    /// How many blocks there are.
    pub fn len(&self) -> usize
        ensures value { result ≡ length self.now }
        ensures bound { result ≤ most_wires }
    {
        self.used
    }

    /// Removes all blocks.
    pub fn clear(&mut self)
        ensures { self.new ≡ [] }
    {
        self.used = 0;
        self.steady = true;
    }

    /// Appends a block.
    pub fn push(&mut self, samples: &Block)
        requires { length self.old < most_wires }
        ensures { self.new ≡ self.old ++ samples.now ∷ [] }
    {
        self.steady = false;
        self.marks[self.used] = false;
        self.items[self.used] = *samples;
        self.used += 1;
    }

    /// Appends a block of equal samples.
    pub fn push_equal(&mut self, value: i32)
        requires { length self.old < most_wires }
        ensures { self.new ≡ self.old ++ replicate block_frames value ∷ [] }
    {
        self.marks[self.used] = true;
        self.items[self.used] = [value; BLOCK_FRAMES];
        self.used += 1;
    }

    /// Appends a block of another list.
    pub fn push_from(&mut self, other: &Blocks, number: usize)
        requires number { number < length other.now }
        requires room { length self.old < most_wires }
        ensures { self.new ≡ self.old ++ block other.now number ∷ [] }
    {
        match other.same(number) {
            Some(value) => self.push_equal(value),
            None => self.push(other.block(number)),
        }
    }

    /// Appends the blocks of another list.
    pub fn append(&mut self, other: &Blocks)
        requires { length self.old + length other.now ≤ most_wires }
        ensures { self.new ≡ self.old ++ other.now }
    {
        for number in 0..other.len() {
            self.push_from(other, number);
        }
    }

    /// Resizes the list to `count` blocks. What they hold is not specified.
    pub fn resize(&mut self, count: usize)
        requires { count ≤ most_wires }
        ensures { length self.new ≡ count }
    {
        self.steady = false;
        self.used = count;
    }

    /// A block, by its number.
    pub fn block(&self, number: usize) -> &Block
        requires { number < length self.now }
        ensures { result.now ≡ block self.now number }
    {
        &self.items[number]
    }

    /// The value of a block that is known to have equal samples. `None` says nothing.
    #[tactic(auto, using(crate::proofs::Steadies::equal_block))]
    pub fn same(&self, number: usize) -> Option<i32>
        requires { number < length self.now }
        ensures { IfSome result (λ x. block self.now number ≡ replicate block_frames x) }
    {
        if self.marks[number] {
            Some(self.items[number][0])
        } else {
            None
        }
    }

    /// Whether each block is known to be of equal samples. `false` says nothing.
    pub fn is_steady(&self) -> bool
        ensures { result ≡ true → AreSteady self.now }
    {
        self.steady
    }

    /// The sample of a block at a frame. If all blocks are known to have equal samples, it is read at the first frame,
    /// so that a loop over frames reads it once.
    pub fn at(&self, number: usize, frame: usize) -> i32
        requires number { number < length self.now }
        requires frame { frame < block_frames }
        ensures { result ≡ sample self.now number frame }
    {
        if self.steady {
            self.items[number][0]
        } else {
            self.items[number][frame]
        }
    }
}
