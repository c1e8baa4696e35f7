//! Names, and what they stand for.
ghost use Rattle.std.specs.Prelude.{◌≡◌, ℕ, List, Option, Some, None, OnOk, if◌then◌else◌};
ghost use Rattle.std.specs.Str.{bytes_eq};
ghost use Rattle.sn_def.specs.Known.{value_at};

use crate::unit::Input;
use sn_ports::NoMemory;
use std::alloc::Global;
use std::collections::BTreeMap;

/// The names given so far, each with what it stands for.
#[derive(Drop)]
pub struct Known<'a> {
    /// What each name stands for.
    pub map: BTreeMap<&'a [u8], Input>,
}

impl<'a> Known<'a> {
    /// No names.
    pub fn new(alloc: Global) -> Self
        ensures { (q : List ℕ) → value_at result.map q ≡ None }
    {
        Known {
            map: BTreeMap::new(alloc),
        }
    }

    /// What a name stands for, if it is known.
    pub fn find(&self, name: &'a [u8]) -> Option<Input>
        ensures { result ≡ value_at self.now.map name.now }
    {
        self.map.get(&name).copied()
    }

    /// Makes a name known, in place of what it stood for.
    pub fn add(&mut self, name: &'a [u8], input: Input) -> Result<(), NoMemory>
        ensures { OnOk result ((q : List ℕ) → value_at self.new.map q ≡ (if bytes_eq name.now q then Some input else value_at self.old.map q)) }
    {
        self.map.insert(name, input)?;
        Ok(())
    }
}
