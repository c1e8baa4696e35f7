//! Definitions by their names.
ghost use Rattle.std.specs.Prelude.{◌≡◌, OnOk, OnErr};
ghost use Rattle.std.specs.Option.{option_map};
ghost use Rattle.std.specs.FinMap as finite;
ghost use Rattle.sn_def.specs.Defs.{definition_of};
ghost use Rattle.sn_world.specs.Definitions.{definitions_of};

use sn_def::Def;
use sn_ports::NoMemory;
use std::alloc::Global;
use std::collections::BTreeMap;
use std::sync::Arc;

/// A map from names to definitions.
#[derive(Drop)]
pub struct Defs {
    items: BTreeMap<Vec<u8>, Arc<Def, Global>>,
    alloc: Global,
}

impl Defs {
    /// No definitions.
    pub fn new(alloc: Global) -> Defs
        ensures { definitions_of result ≡ finite.empty }
    {
        Defs {
            items: BTreeMap::new(alloc),
            alloc,
        }
    }

    /// The definition of this name, if there is one.
    pub fn named(&self, name: &[u8]) -> Option<&Arc<Def, Global>>
        ensures { option_map (λ a. definition_of a.now.value) result ≡ finite.get (definitions_of self.now) name.now }
    {
        self.items.get(name)
    }

    /// Adds a definition, in the place of one of its name. An `Err` changes nothing.
    pub fn insert(&mut self, def: Arc<Def, Global>) -> Result<(), NoMemory>
        ensures ok { OnOk result (definitions_of self.new ≡ finite.insert (definitions_of self.old) def.value.name.bytes (definition_of def.value)) }
        ensures err { OnErr result (definitions_of self.new ≡ definitions_of self.old) }
    {
        let mut name = Vec::new(self.alloc);
        name.extend_from_slice(def.name.as_slice())?;
        self.items.insert(name, def)?;
        Ok(())
    }

    /// How many definitions there are.
    pub fn len(&self) -> usize
        ensures { result ≡ finite.len (definitions_of self.now) }
    {
        self.items.len()
    }

    /// Forgets the definition of this name, if there is one.
    pub fn remove(&mut self, name: &[u8])
        ensures { definitions_of self.new ≡ finite.remove (definitions_of self.old) name.now }
    {
        // A hint for the proof alone: no name is there twice.
        let _ = self.items.len();
        self.items.remove(name);
    }
}
