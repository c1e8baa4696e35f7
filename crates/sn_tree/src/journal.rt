//! What an open journal keeps.
ghost use Rattle.std.specs.Prelude.{◌≡◌, ◌<◌, ◌-◌, [], ◌∷◌, reverse, IfOk, OnOk, OnErr};
ghost use Rattle.sn_tree.specs.Journals.{HasSpare, followed, noted_new};

use crate::undo::Undo;
use sn_ports::NoMemory;
use std::alloc::Global;
use std::marker::Model;

/// How each step since the journal was opened is undone, for how many more there is room, and the keys of the payloads
/// that were put in since.
#[derive(Drop)]
pub struct Journal {
    steps: Vec<Undo>,
    room: u32,
    made: Vec<usize>,
}

impl Model for Journal {
    ghost use Rattle.std.specs.Prelude.{◌≤◌, ◌+◌, length, reverse, vec_capacity};
    ghost use Rattle.sn_tree.specs.Journals.{Steps, steps_code};

    ghost Value = { Steps };

    ghost coded = { steps_code };

    ghost view = { λ j. record { steps = reverse j.steps.items; room = j.room; made = reverse j.made.items } };

    ghost invariant = { λ j. length j.steps.items + j.room ≤ vec_capacity j.steps };
}

impl Journal {
    /// No steps, and room for `room`, in the memory of an earlier journal, if there is one.
    pub fn new(alloc: Global, earlier: Option<Journal>, room: u32) -> Result<Journal, NoMemory>
        ensures { IfOk result (λ j. j ≡ record { steps = []; room = room; made = [] }) }
    {
        let (mut steps, mut made) = match earlier {
            Some(journal) => journal.into_parts(),
            None => (Vec::new(alloc), Vec::new(alloc)),
        };
        steps.clear();
        made.clear();
        steps.reserve(room as usize)?;
        Ok(Journal { steps, room, made })
    }

    /// The steps, and the keys of the payloads that were put in.
    pub fn into_parts(self) -> (Vec<Undo>, Vec<usize>)
        ensures steps { reverse result.0.items ≡ self.steps }
        ensures made { reverse result.1.items ≡ self.made }
    {
        let Journal {
            steps,
            room: _,
            made,
        } = self;
        (steps, made)
    }

    fn push(&mut self, step: Undo)
        requires { 0 < self.old.room }
        ensures { self.new ≡ record { steps = step ∷ self.old.steps; room = self.old.room - 1; made = self.old.made } }
    {
        self.room -= 1;
        match self.steps.push(step) {
            Ok(()) => {}
            Err(_) => unreachable!(),
        }
    }

    fn push_new(&mut self, step: Undo, key: usize) -> Result<(), NoMemory>
        ensures ok { OnOk result (self.new ≡ record { steps = step ∷ self.old.steps; room = self.old.room; made = key ∷ self.old.made }) }
        ensures err { OnErr result (self.new ≡ self.old) }
    {
        self.steps.reserve(self.room as usize + 1)?;
        self.made.push(key)?;
        match self.steps.push(step) {
            Ok(()) => {}
            Err(_) => unreachable!(),
        }
        Ok(())
    }
}

/// An open journal follows a step, for which it has room.
pub fn follow(journal: &mut Option<Journal>, step: Undo)
    requires { HasSpare journal.old }
    ensures { journal.new ≡ followed step journal.old }
{
    match journal {
        Some(journal) => journal.push(step),
        None => {}
    }
}

/// An open journal follows a step that puts in a payload under a key. It takes room for itself.
pub fn follow_new(journal: &mut Option<Journal>, step: Undo, key: usize) -> Result<(), NoMemory>
    ensures ok { OnOk result (journal.new ≡ noted_new step key journal.old) }
    ensures err { OnErr result (journal.new ≡ journal.old) }
{
    match journal {
        Some(journal) => journal.push_new(step, key),
        None => Ok(()),
    }
}
