//! The longest chain of a plan.
ghost use Rattle.std.specs.Prelude.{◌≡◌, true, IfOk};
ghost use Rattle.sn_report.specs.Costs.{units_in};
ghost use Rattle.sn_report.specs.Certificates.{certifies};
ghost use Rattle.sn_report.specs.Tracing.{IsTraced};

use crate::certificate::Certificate;
use crate::chains::traced;
use crate::levels::least_levels;
use sn_ports::NoMemory;
use sn_round::{Jobs, Plan};
use sn_world::Stage;
use std::alloc::Global;

/// The longest chain of a plan, and levels that show that no chain costs more. Of chains that cost the same, it is the
/// one that ends last, and that comes by the first of the predecessors.
///
/// # Errors
///
/// Memory runs out. A sum of 2^64 units or more counts as this too, since no memory holds so many.
pub fn longest(alloc: Global, plan: &Plan, stage: &Stage) -> Result<Certificate, NoMemory>
    ensures traced { IfOk result (λ c. IsTraced (units_in stage.now) plan.now c.chain c.levels.items) }
    ensures certified { IfOk result (λ c. certifies (units_in stage.now) plan.now c.chain c.levels.items ≡ true) }
{
    // A hint for the proof alone: the predecessors of a job stand before it.
    plan.is_well_formed();
    let levels = least_levels(alloc, plan, stage)?;
    let jobs = traced(alloc, plan, &levels)?;
    let mut chain = Jobs::new(alloc);
    chain.extend(&jobs)?;
    Ok(Certificate { chain, levels })
}
