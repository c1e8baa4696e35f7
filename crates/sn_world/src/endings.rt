//! What is to be done with synths after a block.
ghost use Rattle.std.specs.Prelude.{◌≡◌, ◌≤◌, ◌<◌, ◌+◌, ◌++◌, ◌∷◌, [], OnOk, vec_len, vec_capacity};
ghost use Rattle.sn_world.specs.Settling.{frees, pauses};

use sn_ports::NoMemory;
use std::alloc::Global;
use std::marker::Model;

const PAUSES: i32 = 1;

const FREES: i32 = 2;

/// Whether a unit with this done action pauses its synth when it ends.
pub fn pauses(action: i32) -> bool
    ensures { result ≡ pauses action }
{
    action == PAUSES
}

/// Whether a unit with this done action frees its synth when it ends.
pub fn frees(action: i32) -> bool
    ensures { result ≡ frees action }
{
    action == FREES
}

/// A synth, and the done action of a unit of it that ended.
#[derive(Clone, Copy, Debug, PartialEq, Eq)]
pub struct Ending {
    pub node: i32,
    pub action: i32,
}

/// Endings in order, in room that was taken before they come.
#[derive(Debug, Drop)]
pub struct Endings {
    items: Vec<Ending>,
}

impl Model for Endings {
    ghost use Rattle.std.specs.Prelude.{◌-◌, vec_len, vec_capacity};
    ghost use Rattle.sn_world.specs.Noted.{Noted};

    ghost Value = { Noted };

    ghost view = { λ e. record { items = e.items.items; spare = vec_capacity e.items - vec_len e.items } };
}

impl Endings {
    /// No endings.
    pub fn new(alloc: Global) -> Self
        ensures { result.items ≡ [] }
    {
        Endings {
            items: Vec::new(alloc),
        }
    }

    /// Forgets them. The room stays.
    pub fn clear(&mut self)
        ensures items { self.new.items ≡ [] }
        ensures room { self.old.spare ≤ self.new.spare }
    {
        self.items.clear();
    }

    /// Makes room for `more` endings past those that are there. No room is lost, even at an `Err`.
    pub fn reserve(&mut self, more: usize) -> Result<(), NoMemory>
        ensures items { self.new.items ≡ self.old.items }
        ensures room { OnOk result (more ≤ self.new.spare) }
        ensures kept { self.old.spare ≤ self.new.spare }
    {
        self.items.reserve(more)?;
        Ok(())
    }

    /// Appends an ending. There must be room for it.
    pub fn push_within(&mut self, ending: Ending)
        requires { 0 < self.old.spare }
        ensures items { self.new.items ≡ self.old.items ++ ending ∷ [] }
        ensures room { self.old.spare ≤ self.new.spare + 1 }
    {
        match self.items.push(ending) {
            Ok(()) => {}
            Err(_) => unreachable!(),
        }
    }

    /// The endings, in order.
    pub fn as_slice(&self) -> &[Ending]
        ensures { result.now ≡ self.now.items }
    {
        &self.items
    }
}
