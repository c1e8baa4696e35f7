//! The memory between rounds and in them.
ghost use Rattle.std.specs.Prelude.{◌≡◌, ◌≤◌, ◌<◌, ◌+◌, ◌^◌, ◌++◌, ◌∷◌, [], ℕ, IfOk, length, replicate, slice_index};
ghost use Rattle.sn_ports.specs.Limits.{most_jobs};
ghost use Rattle.sn_mem.specs.Blocks.{table};
ghost use Rattle.sn_mem.specs.Layout.{audio_place};
ghost use Rattle.sn_world.specs.Pictures.{Pictures};
ghost use Rattle.sn_world.specs.Walk.{walk};
ghost use Rattle.sn_world.specs.World.{world_of};
ghost use Rattle.sn_round.specs.Jobs.{IsRaceFree};
ghost use Rattle.sn_play.specs.Spans.{ArePlayed};
ghost use Rattle.sn_engine.specs.Planning.{HasLanes, IsPlanOf, IsRowReady, LanesRest};

use sn_crew::Crew;
use sn_machine::RestedRounds;
use sn_mem::Port;
use sn_play::{BlockJobs, Span, block_is_the_walk, span_is_the_walks};
use sn_ports::limits::MOST_JOBS;
use sn_ports::{Gate, NoMemory};
use sn_table::{MainSeat, Shared};
use std::alloc::Global;
use std::marker::Model;
use std::thread::Threads;

/// The words of the buses and of the pool, of the copies of a span and of the lanes. The workers of a crew share them
/// while a round runs; between rounds they are a port.
#[derive(Drop)]
pub struct Memory {
    shared: Shared,
    main: MainSeat,
}

impl Model for Memory {
    ghost use Rattle.std.specs.Prelude.{◌≡◌};
    ghost use Rattle.sn_ports.specs.Limits.{most_jobs};
    ghost use Rattle.sn_machine.specs.States.{IsIdle, memory_in};
    ghost use Rattle.sn_table.specs.Answers.{main_view, IsMainOf};
    ghost use Rattle.sn_engine.specs.Remembered.{Remembered};

    ghost Value = { Remembered };

    ghost view = { λ m. record { words = memory_in (main_view m.main).main.phase; rounds = (main_view m.main).main.rested; stores = (main_view m.main).main.stores } };

    ghost invariant = { λ m. IsMainOf m.shared m.main × IsIdle (main_view m.main) × (m.shared.jobs ≡ most_jobs) };
}

impl Memory {
    /// So many words, all 0.
    pub fn open(alloc: Global, words: u32) -> Result<Memory, NoMemory>
        requires { (1 ≤ words) × (words < 2 ^ 31) }
        ensures { IfOk result (λ m. m ≡ record { words = replicate words 0; rounds = []; stores = 0 }) }
    {
        Memory::with_jobs(alloc, words, MOST_JOBS)
    }

    /// The same, for rounds of so many jobs.
    fn with_jobs(alloc: Global, words: u32, jobs: u32) -> Result<Memory, NoMemory>
        requires words { (1 ≤ words) × (words < 2 ^ 31) }
        requires jobs { jobs ≡ most_jobs }
        ensures { IfOk result (λ m. m ≡ record { words = replicate words 0; rounds = []; stores = 0 }) }
    {
        let (shared, main) = Shared::open(alloc, words, jobs)?;
        Ok(Memory { shared, main })
    }

    /// The word at a place. Nothing is stored.
    pub fn word(&mut self, at: u32) -> u64
        requires { at < length self.old.words }
        ensures word { result ≡ slice_index self.old.words at }
        ensures same { self.new ≡ self.old }
    {
        self.shared.load(&mut self.main, at)
    }

    /// A round of the jobs of a block: after it the words stand for the world after the walk. If no lane counts as
    /// written in the block, none does in the next one.
    pub fn round<H: Threads + Sync, G: Gate>(
        &mut self,
        rt: &H,
        crew: &mut Crew,
        block: &BlockJobs<'_>,
        gate: &G,
    )
        requires pictures { Pictures block.now.stage.now self.old.words }
        requires planned { IsPlanOf block.now.stage.now block.now.plan.now }
        requires early { block.now.block < 2 ^ 63 }
        requires lanes { HasLanes block.now.stage.now self.old.words }
        requires resting { LanesRest block.now.stage.now block.now.block self.old.words }
        ensures world { world_of block.now.stage.now self.new.words ≡ walk block.now.block (world_of block.now.stage.now self.old.words) }
        ensures pictures { Pictures block.now.stage.now self.new.words }
        ensures resting { LanesRest block.now.stage.now (block.now.block + 1) self.new.words }
        ensures length { length self.new.words ≡ length self.old.words }
        ensures rounds { self.new.rounds ≡ self.old.rounds ++ record { jobs = block.now.plan.now; crew = length crew.old.hands.items } ∷ [] }
        ensures stores { self.new.stores ≡ self.old.stores }
        ensures crew { length crew.new.hands.items ≡ length crew.old.hands.items }
    {
        block_is_the_walk(block);
        crew.round(rt, &self.shared, &mut self.main, block, block.plan, gate);
    }

    /// A round of the jobs of several blocks: after it the words stand for the world after the walks of the blocks, and
    /// the copies hold the sound of each. If no lane counts as written in the first block, none does in the block after
    /// them.
    pub fn span<H: Threads + Sync, G: Gate>(
        &mut self,
        rt: &H,
        crew: &mut Crew,
        span: &Span<'_>,
        gate: &G,
    )
        requires pictures { Pictures span.now.first.stage.now self.old.words }
        requires ready { IsRowReady span.now }
        requires free { IsRaceFree span.now.all.now }
        requires few { length span.now.all.now ≤ most_jobs }
        requires lanes { HasLanes span.now.first.stage.now self.old.words }
        requires resting { LanesRest span.now.first.stage.now span.now.first.block self.old.words }
        ensures played { (channels : ℕ) → span.now.outputs.now ≡ table audio_place channels → ArePlayed span.now.first.stage.now span.now.first.block span.now.blocks span.now.copies channels self.old.words self.new.words }
        ensures resting { LanesRest span.now.first.stage.now (span.now.first.block + span.now.blocks) self.new.words }
        ensures length { length self.new.words ≡ length self.old.words }
        ensures rounds { self.new.rounds ≡ self.old.rounds ++ record { jobs = span.now.all.now; crew = length crew.old.hands.items } ∷ [] }
        ensures stores { self.new.stores ≡ self.old.stores }
        ensures crew { length crew.new.hands.items ≡ length crew.old.hands.items }
    {
        span_is_the_walks(span);
        span.all.is_well_formed();
        crew.round(rt, &self.shared, &mut self.main, span, span.all, gate);
    }
}

impl Port for Memory {
    ghost use Rattle.std.specs.Prelude.{length};
    ghost use Rattle.sn_mem.specs.Words.{everything, everything_is};

    type Rest = RestedRounds;

    ghost words = { λ p. p.words };

    ghost foot = { λ p. everything (length p.words) };

    ghost rest = { λ p. p.rounds };

    fn load(&mut self, at: u32) -> u64 {
        self.shared.load(&mut self.main, at)
    }

    fn store(&mut self, at: u32, value: u64) {
        self.shared.store(&mut self.main, at, value);
    }

    ghost inside = { λ p x t. everything_is (length p.words) x t };
}
