//! The jobs of a round.
ghost use Rattle.std.specs.Prelude.{◌≡◌, ◌++◌, ◌∷◌, [], IfOk, OnOk, OnErr};

use crate::shared_foot::SharedFoot;
use sn_mem::{AllMoves, Moves};
use sn_ports::NoMemory;
use std::alloc::Global;
use std::marker::Model;

/// A list of ids of nodes.
#[derive(Drop)]
pub struct Ids {
    items: Vec<i32>,
}

impl Model for Ids {
    ghost use Rattle.std.specs.Prelude.{List, ℤ};

    ghost Value = { List ℤ };

    ghost view = { λ s. s.items.items };
}

impl Ids {
    /// No ids.
    pub fn new(alloc: Global) -> Ids
        ensures { result ≡ [] }
    {
        Ids {
            items: Vec::new(alloc),
        }
    }

    /// Appends an id. An `Err` changes nothing.
    pub fn push(&mut self, id: i32) -> Result<(), NoMemory>
        ensures ok { OnOk result (self.new ≡ self.old ++ id ∷ []) }
        ensures err { OnErr result (self.new ≡ self.old) }
    {
        self.items.push(id)?;
        Ok(())
    }

    /// Appends ids. An `Err` changes nothing.
    pub fn extend(&mut self, ids: &[i32]) -> Result<(), NoMemory>
        ensures ok { OnOk result (self.new ≡ self.old ++ ids.now) }
        ensures err { OnErr result (self.new ≡ self.old) }
    {
        self.items.extend_from_slice(ids)?;
        Ok(())
    }

    /// A copy.
    pub fn copied(&self, alloc: Global) -> Result<Ids, NoMemory>
        ensures { IfOk result (λ copy. copy ≡ self.now) }
    {
        let mut items = Vec::new(alloc);
        items.extend_from_slice(&self.items)?;
        Ok(Ids { items })
    }

    /// The ids, in their order.
    pub fn as_slice(&self) -> &[i32]
        ensures { result.now ≡ self.now }
    {
        &self.items
    }
}

/// A list of jobs, by their positions.
#[derive(Drop)]
pub struct Jobs {
    items: Vec<u32>,
}

impl Model for Jobs {
    ghost use Rattle.std.specs.Prelude.{List, ℕ};

    ghost Value = { List ℕ };

    ghost view = { λ s. s.items.items };
}

impl Jobs {
    /// No jobs.
    pub fn new(alloc: Global) -> Jobs
        ensures { result ≡ [] }
    {
        Jobs {
            items: Vec::new(alloc),
        }
    }

    /// Appends a job. An `Err` changes nothing.
    pub fn push(&mut self, job: u32) -> Result<(), NoMemory>
        ensures ok { OnOk result (self.new ≡ self.old ++ job ∷ []) }
        ensures err { OnErr result (self.new ≡ self.old) }
    {
        self.items.push(job)?;
        Ok(())
    }

    /// Appends jobs. An `Err` changes nothing.
    pub fn extend(&mut self, jobs: &[u32]) -> Result<(), NoMemory>
        ensures ok { OnOk result (self.new ≡ self.old ++ jobs.now) }
        ensures err { OnErr result (self.new ≡ self.old) }
    {
        self.items.extend_from_slice(jobs)?;
        Ok(())
    }

    /// A copy.
    pub fn copied(&self, alloc: Global) -> Result<Jobs, NoMemory>
        ensures { IfOk result (λ copy. copy ≡ self.now) }
    {
        let mut items = Vec::new(alloc);
        items.extend_from_slice(&self.items)?;
        Ok(Jobs { items })
    }

    /// The jobs, in their order.
    pub fn as_slice(&self) -> &[u32]
        ensures { result.now ≡ self.now }
    {
        &self.items
    }
}

/// A job of a round: the synths that it renders in order, each with some of its buses moved onto lanes; the lanes that
/// it adds to their buses after them; the words that it may touch; and the jobs that end before it begins.
///
/// A joint is a job that has no synths.
#[derive(Drop)]
pub struct Job {
    /// The synths that it renders.
    pub synths: Ids,
    /// The buses that each of them mixes onto lanes.
    pub moves: AllMoves,
    /// The lanes that it adds.
    pub lanes: Moves,
    /// The words that it may touch.
    pub foot: SharedFoot,
    /// Its predecessors.
    pub before: Jobs,
}

impl Job {
    /// A copy, which shares the foot.
    pub fn copied(&self, alloc: Global) -> Result<Job, NoMemory>
        ensures { IfOk result (λ copy. copy ≡ self.now) }
    {
        Ok(Job {
            synths: self.synths.copied(alloc)?,
            moves: self.moves.copied(alloc)?,
            lanes: self.lanes.copied(alloc)?,
            foot: self.foot.again()?,
            before: self.before.copied(alloc)?,
        })
    }
}
