//! The jobs of several blocks, as the work of one round.
ghost use Rattle.std.specs.Prelude.{◌≡◌, ◌<◌, ◌≤◌, ◌+◌, ◌*◌, length};
ghost use Rattle.sn_span.specs.Unrolling.{start, unrolled};

use crate::block::BlockJobs;
use sn_mem::{Extents, Foot, Port, Scratch};
use sn_round::{Plan, Work};
use sn_span::{COPY_WORDS, capture};

/// The jobs of a plan of a stage in several blocks, with a job after each block that copies its sound.
#[derive(Clone, Copy)]
pub struct Span<'a> {
    /// The first block, with the plan of each block.
    pub first: BlockJobs<'a>,
    /// The jobs of all blocks.
    pub all: &'a Plan,
    /// How many blocks there are.
    pub blocks: u32,
    /// The audio buses whose sound is copied.
    pub outputs: &'a Extents,
    /// Where the copies begin, one for each block.
    pub copies: u32,
}

/// The place of a job: its block, and its number among the jobs of the block, from 0.
#[derive(Clone, Copy)]
struct JobPlace {
    block: u32,
    number: u32,
}

/// Where a job of an unrolled plan stands, if each block has so many jobs and a capture.
fn place_of(jobs: u32, job: u32) -> JobPlace
    requires { jobs + 1 < 4294967296 }
    ensures place { job ≡ start jobs result.block + result.number }
    ensures number { result.number ≤ jobs }
{
    JobPlace {
        block: job / (jobs + 1),
        number: job % (jobs + 1),
    }
}

impl Work for Span<'_> {
    ghost use Rattle.std.specs.Prelude.{length};
    ghost use Rattle.sn_mem.proofs.Masks.{touched};
    ghost use Rattle.sn_io.proofs.ByFoot.{kept_is_by_foot};
    ghost use Rattle.sn_round.specs.Jobs.{foot_at};
    ghost use Rattle.sn_play.specs.Spans.{IsSpanReady, made_in, outcome_in};

    ghost jobs = { λ w. length w.all.now };

    ghost foot_of = { λ w j. foot_at w.all.now j };

    ghost outcome = { outcome_in };

    ghost ready = { IsSpanReady };

    fn foot(&self, job: u32) -> &Foot {
        self.all.foot(job)
    }

    fn run<P: Port>(&self, job: u32, port: &mut P, scratch: &mut Scratch) {
        self.first.stage.tree.root_holds_all();
        self.first.stage.tree.ids_are_distinct();
        self.all.is_well_formed();
        let jobs = self.first.plan.jobs();
        let place = place_of(jobs, job);
        let block = self.first.block + u64::from(place.block);
        if place.number == jobs {
            let at = self.copies + COPY_WORDS * place.block;
            capture(port, self.outputs.as_slice(), at, block);
        } else {
            let played = BlockJobs {
                stage: self.first.stage,
                plan: self.first.plan,
                block,
            };
            played.run(place.number, port, scratch);
        }
    }

    ghost as_long = { λ w j ws h. (kept_is_by_foot (foot_at w.all.now j) (made_in w j)).long ws };

    ghost only_writes = { λ w j x ws h off. (kept_is_by_foot (foot_at w.all.now j) (made_in w j)).keeps ws x off };

    ghost by_foot = { λ w j us ws h long same x on. ((kept_is_by_foot (foot_at w.all.now j) (made_in w j)).agree us ws (record { long = long; same = same })).same x (touched (foot_at w.all.now j) x on) };
}
