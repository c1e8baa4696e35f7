//! What a synth needs besides its port while it runs.
ghost use Rattle.std.specs.Prelude.{◌≡◌, ◌<◌, ◌≤◌, ◌++◌, ◌∷◌, [], IfOk, length, pos, slice_index_or};
ghost use Rattle.sn_ports.specs.Limits.{most_wires};

use crate::blocks::Blocks;
use crate::places::BUS_WORDS;
use sn_fixed::Heights;
use sn_ports::NoMemory;
use sn_ports::limits::MOST_WIRES;
use std::alloc::Global;
use std::marker::Model;
use std::sync::Arc;

/// A list of values in Q8.24, no more than a definition has controls.
#[derive(Drop)]
pub struct Values {
    items: Vec<i32>,
    used: usize,
}

impl Model for Values {
    ghost use Rattle.std.specs.Prelude.{List, ℤ, take, ◌≡◌, ◌≤◌, vec_len};
    ghost use Rattle.sn_ports.specs.Limits.{most_wires};

    ghost Value = { List ℤ };

    ghost view = { λ v. take v.used v.items.items };

    ghost invariant = { λ v. (vec_len v.items ≡ most_wires) × (v.used ≤ most_wires) };
}

impl Values {
    /// No values, with room for as many as there may be.
    pub fn new(alloc: Global) -> Result<Values, NoMemory>
        ensures { IfOk result (λ v. v ≡ []) }
    {
        let items = vec![in alloc; 0i32; MOST_WIRES]?;
        Ok(Values { items, used: 0 })
    }

    /// Removes all values.
    pub fn clear(&mut self)
        ensures { self.new ≡ [] }
    {
        self.used = 0;
    }

    /// Appends a value.
    pub fn push(&mut self, value: i32)
        requires { length self.old < most_wires }
        ensures { self.new ≡ self.old ++ value ∷ [] }
    {
        self.items[self.used] = value;
        self.used += 1;
    }

    /// A value, by its number.
    pub fn at(&self, number: usize) -> i32
        requires { number < length self.now }
        ensures { result ≡ slice_index_or self.now number (pos 0) }
    {
        self.items[number]
    }
}

/// What a synth needs besides its port while it runs. What it holds between two runs means nothing, except for the
/// heights, which never change.
#[derive(Drop)]
pub struct Scratch {
    /// The outputs of the units so far.
    pub wires: Blocks,
    /// One unit's inputs.
    pub inputs: Blocks,
    /// One unit's outputs.
    pub outputs: Blocks,
    /// The values of the controls.
    pub values: Values,
    /// The table from which sines are taken. Several scratches may share it.
    pub heights: Arc<Heights, Global>,
    /// Room for a copy of the words of the buses.
    pub buses: Vec<u64>,
    /// Where the next node is looked for first.
    pub near: usize,
}

/// This many words.
fn some_words(alloc: Global, count: usize) -> Result<Vec<u64>, NoMemory> {
    Ok(vec![in alloc; 0u64; count]?)
}

impl Scratch {
    /// Room for all that a synth may need.
    pub fn new(alloc: Global) -> Result<Scratch, NoMemory> {
        let heights = Heights::new(alloc)?;
        Scratch::with_heights(alloc, Arc::new(alloc, heights)?)
    }

    /// Room for all that another synth may need at the same time, with the same heights. No clause says
    /// what it holds, since no definition sees a scratch: whichever one a synth runs with, it does the same.
    pub fn beside(&self, alloc: Global) -> Result<Scratch, NoMemory> {
        Scratch::with_heights(alloc, Arc::try_clone(&self.heights)?)
    }

    fn with_heights(alloc: Global, heights: Arc<Heights, Global>) -> Result<Scratch, NoMemory> {
        Ok(Scratch {
            wires: Blocks::new(alloc)?,
            inputs: Blocks::new(alloc)?,
            outputs: Blocks::new(alloc)?,
            values: Values::new(alloc)?,
            heights,
            buses: some_words(alloc, BUS_WORDS)?,
            near: 0,
        })
    }
}
