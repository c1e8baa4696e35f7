//! Sets of names.
ghost use Rattle.std.specs.Prelude.{◌≡◌, not, is_some, IfOk, OnOk, OnErr};
ghost use Rattle.std.specs.FinMap as finite;
ghost use Rattle.sn_world.specs.Names.{names_in};

use sn_ports::NoMemory;
use std::alloc::Global;
use std::collections::BTreeMap;

/// A set of names.
#[derive(Drop)]
pub struct Names {
    items: BTreeMap<Vec<u8>, ()>,
    alloc: Global,
}

impl Names {
    /// No names.
    pub fn new(alloc: Global) -> Names
        ensures { names_in result ≡ finite.empty }
    {
        Names {
            items: BTreeMap::new(alloc),
            alloc,
        }
    }

    /// Adds a name, and returns whether it is new. An `Err` changes nothing.
    pub fn insert(&mut self, name: &[u8]) -> Result<bool, NoMemory>
        ensures new { IfOk result (λ new. new ≡ not (is_some (finite.get (names_in self.old) name.now))) }
        ensures put { OnOk result (names_in self.new ≡ finite.insert (names_in self.old) name.now tt) }
        ensures err { OnErr result (names_in self.new ≡ names_in self.old) }
    {
        let mut key = Vec::new(self.alloc);
        key.extend_from_slice(name)?;
        let old = self.items.insert(key, ())?;
        Ok(old.is_none())
    }
}
