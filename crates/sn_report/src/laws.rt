//! Laws of certificates and of reports.
ghost use Rattle.std.specs.Prelude.{◌≡◌, ◌≤◌, ℕ, ℤ, List, true};
ghost use Rattle.sn_round.specs.declared.jobs.Job.{Job};
ghost use Rattle.sn_world.specs.World.{world_of};
ghost use Rattle.sn_report.specs.Certificates.{certifies, chain_cost, is_chain};
ghost use Rattle.sn_report.specs.Reports.{report_in, report_of, stage_weight, world_weight};

use sn_world::Stage;

/// A law: no chain costs more than a certified one.
pub fn certified_chain_is_longest()
    ensures { (units : ℤ → ℕ) (jobs : List Job) (chain levels other : List ℕ) → certifies units jobs chain levels ≡ true → is_chain jobs other ≡ true → chain_cost units jobs other ≤ chain_cost units jobs chain }
{}

/// A law: the report of a stage, and its weight, are those of each world that it stands for.
pub fn world_has_the_report(stage: &Stage)
    ensures report { (words : List ℕ) → report_of (world_of stage.now words) ≡ report_in stage.now }
    ensures weight { (words : List ℕ) → world_weight (world_of stage.now words) ≡ stage_weight stage.now }
{
    let _ = stage;
}
