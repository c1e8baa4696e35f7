//! What the server holds besides its words: the nodes, the definitions, and the pool.
ghost use Rattle.std.specs.Prelude.{◌≡◌, ◌≤◌, IfOk};
ghost use Rattle.sn_ports.specs.Limits.{most_memory, most_clients};
ghost use Rattle.sn_world.specs.Opening.{IsOpening};
ghost use Rattle.sn_world.specs.Pictures.{has_synth, units_of};

use crate::defs::Defs;
use crate::flags::Flags;
use sn_def::{Controls, Def};
use sn_mem::{Buffers, Extent};
use sn_pool::{POOL_BASE, Pool};
use sn_ports::NoMemory;
use sn_tree::Tree;
use std::alloc::Global;
use std::sync::Arc;

/// What a node holds.
#[derive(Drop)]
pub enum Held {
    /// A group, parallel or not.
    Group,
    /// A synth, and where the words of its units' states are. There are none if its definition has none.
    Synth {
        def: Arc<Def, Global>,
        controls: Controls,
        state: Extent,
    },
}

impl Held {
    /// Whether it is a synth.
    pub fn is_synth(&self) -> bool
        ensures { result ≡ has_synth self.now }
    {
        match self {
            Held::Group => false,
            Held::Synth { .. } => true,
        }
    }

    /// How many units it has, none if it is a group.
    pub fn units(&self) -> usize
        ensures { result ≡ units_of self.now }
    {
        match self {
            Held::Group => 0,
            Held::Synth { def, .. } => def.units.as_slice().len(),
        }
    }
}

/// The nodes, the definitions, the pool from which the words of synths and buffers come, the buffers, and what the
/// server keeps of its clients.
#[derive(Drop)]
pub struct Stage {
    /// The nodes.
    pub tree: Tree<Held>,
    /// The definitions that were received.
    pub defs: Defs,
    /// The pool from which the words of synths and buffers come.
    pub pool: Pool,
    /// Where the buffers are.
    pub buffers: Buffers,
    /// Which clients are notified of what happens to nodes.
    pub notify: Flags,
    /// The id that is chosen next, from -2 downwards, or `None` after -2147483648 was chosen.
    pub next_id: Option<i32>,
    /// Frames a second.
    pub rate: u32,
}

impl Stage {
    /// The root group alone, no definitions, no buffers, a pool of `memory` words after those of the buses, and
    /// `clients` clients, none of them notified.
    pub fn new(alloc: Global, rate: u32, memory: u32, clients: u32) -> Result<Stage, NoMemory>
        requires memory { memory ≤ most_memory }
        requires clients { clients ≤ most_clients }
        ensures { IfOk result (IsOpening rate memory clients) }
    {
        Ok(Stage {
            tree: Tree::new(alloc, Held::Group)?,
            defs: Defs::new(alloc),
            pool: Pool::new(alloc, POOL_BASE, memory)?,
            buffers: Buffers::new(alloc)?,
            notify: Flags::new(alloc, clients)?,
            next_id: Some(-2),
            rate,
        })
    }
}
