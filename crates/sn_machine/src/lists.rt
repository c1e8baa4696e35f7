//! Lists of words, of such lists, of debts and of rounds.
ghost use Rattle.std.specs.Prelude.{◌≡◌, ◌<◌, ◌+◌, ◌-◌, ◌++◌, ◌∷◌, [], take, drop, IfOk, OnOk, length, slice_index, slice_set};
ghost use Rattle.sn_round.specs.Scripts.{list_at};

use crate::views::Rested;
use sn_ports::NoMemory;
use std::alloc::Global;
use std::marker::Model;

/// A list of words.
#[derive(Drop)]
pub struct Words {
    items: Vec<u64>,
}

impl Model for Words {
    ghost use Rattle.std.specs.Prelude.{List, ℕ};

    ghost Value = { List ℕ };

    ghost view = { λ s. s.items.items };
}

impl Words {
    /// These words.
    pub fn of(items: Vec<u64>) -> Words
        ensures { result ≡ items.items }
    {
        Words { items }
    }

    /// The words, in their order.
    pub fn as_slice(&self) -> &[u64]
        ensures { result.now ≡ self.now }
    {
        &self.items
    }

    /// The word with this number, or 0 if there is none.
    #[tactic(auto, using(std::proofs::lemmas::List::get_or_past))]
    pub fn word(&self, number: usize) -> u64
        ensures { result ≡ slice_index self.now number }
    {
        if number < self.items.len() {
            self.items[number]
        } else {
            0
        }
    }

    /// One less than the word with this number, or 0.
    pub fn less(&self, number: usize) -> u64
        ensures { result ≡ slice_index self.now number - 1 }
    {
        self.word(number).saturating_sub(1)
    }

    /// Sets the word with this number. If there is none, nothing changes.
    #[tactic(auto, using(std::proofs::lemmas::List::set_past))]
    pub fn set(&mut self, number: usize, word: u64)
        ensures { self.new ≡ slice_set self.old number word }
    {
        if number < self.items.len() {
            self.items[number] = word;
        }
    }

    /// A copy.
    pub fn copied(&self, alloc: Global) -> Result<Words, NoMemory>
        ensures { IfOk result (λ copy. copy ≡ self.now) }
    {
        words_of(alloc, &self.items)
    }
}

/// The words of a slice.
pub fn words_of(alloc: Global, words: &[u64]) -> Result<Words, NoMemory>
    ensures { IfOk result (λ copy. copy ≡ words.now) }
{
    let mut items = Vec::new(alloc);
    items.extend_from_slice(words)?;
    Ok(Words { items })
}

/// The lists of a script.
#[derive(Drop)]
pub struct Script {
    lists: Vec<Words>,
}

impl Model for Script {
    ghost use Rattle.std.specs.Prelude.{List, ℕ};

    ghost Value = { List (List ℕ) };

    ghost view = { λ s. s.lists.items };
}

impl Script {
    /// These lists.
    pub fn of(lists: Vec<Words>) -> Script
        ensures { result ≡ lists.items }
    {
        Script { lists }
    }

    /// The list with this number, or no words if there is none.
    #[tactic(auto, using(std::proofs::lemmas::List::get_or_past))]
    pub fn list(&self, number: usize) -> &[u64]
        ensures { result.now ≡ list_at self.now number }
    {
        if number < self.lists.len() {
            let list = &self.lists[number];
            list.as_slice()
        } else {
            &[]
        }
    }

    /// How many lists there are.
    pub fn len(&self) -> usize
        ensures { result ≡ length self.now }
    {
        self.lists.len()
    }

    /// A copy.
    pub fn copied(&self, alloc: Global) -> Result<Script, NoMemory>
        ensures { IfOk result (λ copy. copy ≡ self.now) }
    {
        Ok(Script {
            lists: copied_lists(alloc, &self.lists)?,
        })
    }
}

fn copied_lists(alloc: Global, lists: &[Words]) -> Result<Vec<Words>, NoMemory>
    ensures { IfOk result (λ copy. copy.items ≡ lists.now) }
{
    let mut copy = Vec::new(alloc);
    for list in lists {
        copy.push(list.copied(alloc)?)?;
    }
    Ok(copy)
}

/// A list of debts: each is a job that has ended, and a successor that is to be told.
#[derive(Drop)]
pub struct Debts {
    items: Vec<(u32, u32)>,
}

impl Model for Debts {
    ghost use Rattle.std.specs.Prelude.{List, ℕ};

    ghost Value = { List (ℕ × ℕ) };

    ghost view = { λ s. s.items.items };
}

impl Debts {
    /// No debts.
    pub fn new(alloc: Global) -> Debts
        ensures { result ≡ [] }
    {
        Debts {
            items: Vec::new(alloc),
        }
    }

    /// The debts, in their order.
    pub fn as_slice(&self) -> &[(u32, u32)]
        ensures { result.now ≡ self.now }
    {
        &self.items
    }

    /// Appends a debt.
    pub fn push(&mut self, job: u32, successor: u32) -> Result<(), NoMemory>
        ensures { OnOk result (self.new ≡ self.old ++ (job, successor) ∷ []) }
    {
        self.items.push((job, successor))?;
        Ok(())
    }

    /// Removes the debt with this number.
    pub fn remove(&mut self, number: usize)
        requires { number < length self.old }
        ensures { self.new ≡ take number self.old ++ drop (number + 1) self.old }
    {
        self.items.remove(number);
    }
}

/// A list of rounds that were rested.
#[derive(Drop)]
pub struct RestedRounds {
    items: Vec<Rested>,
}

impl Model for RestedRounds {
    ghost use Rattle.std.specs.Prelude.{List};
    ghost use Rattle.sn_machine.specs.declared.views.Rested.{Rested};

    ghost Value = { List Rested };

    ghost view = { λ s. s.items.items };
}

impl RestedRounds {
    /// No rounds.
    pub fn new(alloc: Global) -> RestedRounds
        ensures { result ≡ [] }
    {
        RestedRounds {
            items: Vec::new(alloc),
        }
    }

    /// The rounds, in their order.
    pub fn as_slice(&self) -> &[Rested]
        ensures { result.now ≡ self.now }
    {
        &self.items
    }

    /// Appends a round.
    pub fn push(&mut self, round: Rested) -> Result<(), NoMemory>
        ensures { OnOk result (self.new ≡ self.old ++ round ∷ []) }
    {
        self.items.push(round)?;
        Ok(())
    }
}
