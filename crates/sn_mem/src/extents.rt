//! Runs of words, and the words that a job may read and write.
ghost use Rattle.std.specs.Prelude.{◌≡◌, ◌++◌, ◌∷◌, [], OnOk, OnErr};
ghost use Rattle.std.specs.List.{list_any};
ghost use Rattle.sn_mem.specs.Words.{covers, has};

use sn_ports::NoMemory;
use std::alloc::Global;
use std::marker::Model;

/// The `len` words from word `at` on.
#[derive(Clone, Copy)]
pub struct Extent {
    /// The number of its first word, from 0.
    pub at: u32,
    /// How many words it has.
    pub len: u32,
}

impl Extent {
    /// Whether a word, by its number, lies in the extent.
    pub fn covers(self, word: u64) -> bool
        ensures { result ≡ covers self word }
    {
        let begin = self.at as u64;
        begin <= word && word < begin + self.len as u64
    }
}

fn any_covers(extents: &[Extent], word: u64) -> bool
    ensures { result ≡ list_any (λ e. covers e word) extents.now }
{
    extents.iter().any(|extent| extent.covers(word))
}

/// A list of extents.
#[derive(Drop)]
pub struct Extents {
    items: Vec<Extent>,
}

impl Model for Extents {
    ghost use Rattle.std.specs.Prelude.{List};
    ghost use Rattle.sn_mem.specs.declared.extents.Extent.{Extent};

    ghost Value = { List Extent };

    ghost view = { λ s. s.items.items };
}

impl Extents {
    /// No extents.
    pub fn new(alloc: Global) -> Extents
        ensures { result ≡ [] }
    {
        Extents {
            items: Vec::new(alloc),
        }
    }

    /// Appends an extent. An `Err` changes nothing.
    pub fn push(&mut self, extent: Extent) -> Result<(), NoMemory>
        ensures ok { OnOk result (self.new ≡ self.old ++ extent ∷ []) }
        ensures err { OnErr result (self.new ≡ self.old) }
    {
        self.items.push(extent)?;
        Ok(())
    }

    /// The extents, in order.
    pub fn as_slice(&self) -> &[Extent]
        ensures { result.now ≡ self.now }
    {
        &self.items
    }

    /// Whether a word, by its number, lies in one of the extents.
    pub fn has(&self, word: u64) -> bool
        ensures { result ≡ has self.now word }
    {
        any_covers(self.as_slice(), word)
    }
}

/// The words that a job may read, and those that it may write.
///
/// A word that may be written may be read too.
#[derive(Drop)]
pub struct Foot {
    /// What it may read.
    pub reads: Extents,
    /// What it may write.
    pub writes: Extents,
}
