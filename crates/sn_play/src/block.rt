//! The jobs of a block, as the work of a round.
ghost use Rattle.std.specs.Prelude.{◌≡◌};

use crate::joining::join_lanes;
use crate::playing::run_job;
use sn_mem::{Foot, Port, Scratch};
use sn_round::{Plan, Work};
use sn_world::Stage;

/// The jobs of a plan of a stage, in a block.
#[derive(Clone, Copy)]
pub struct BlockJobs<'a> {
    /// The nodes, and where the buffers are.
    pub stage: &'a Stage,
    /// The jobs.
    pub plan: &'a Plan,
    /// The block's number, from 0.
    pub block: u64,
}

impl Work for BlockJobs<'_> {
    ghost use Rattle.std.specs.Prelude.{length};
    ghost use Rattle.sn_mem.proofs.Masks.{touched};
    ghost use Rattle.sn_round.specs.Jobs.{foot_at};
    ghost use Rattle.sn_play.specs.Blocks.{IsReady, outcome_of, outcome_by_foot};

    ghost jobs = { λ w. length w.plan.now };

    ghost foot_of = { λ w j. foot_at w.plan.now j };

    ghost outcome = { outcome_of };

    ghost ready = { IsReady };

    fn foot(&self, job: u32) -> &Foot {
        self.plan.foot(job)
    }

    fn run<P: Port>(&self, job: u32, port: &mut P, scratch: &mut Scratch) {
        self.stage.tree.root_holds_all();
        self.stage.tree.ids_are_distinct();
        let foot = self.plan.foot(job);
        let synths = self.plan.synths(job);
        let moves = self.plan.all_moves(job);
        let lanes = self.plan.lanes(job);
        run_job(
            port,
            foot,
            self.stage,
            self.block,
            synths.as_slice(),
            moves,
            scratch,
        );
        join_lanes(port, foot, self.block, lanes.as_slice(), scratch);
    }

    ghost as_long = { λ w j ws h. (outcome_by_foot w j).long ws };

    ghost only_writes = { λ w j x ws h off. (outcome_by_foot w j).keeps ws x off };

    ghost by_foot = { λ w j us ws h long same x on. ((outcome_by_foot w j).agree us ws (record { long = long; same = same })).same x (touched (foot_at w.plan.now j) x on) };
}
