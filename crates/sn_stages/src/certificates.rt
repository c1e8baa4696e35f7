//! Certificates of longest chains.
use crate::plans::{THREE, staged, tree_of};
use sn_mem::MOST_LANES;
use sn_ports::NoMemory;
use sn_report::{Certificate, check, longest};
use sn_round::{Jobs, Plan};
use sn_world::Stage;
use std::alloc::Global;
use std::test::Fail;

/// Three synths of two units each that may run beside each other, a job without a synth after them, and such a synth.
fn three(alloc: Global) -> Result<Option<(Stage, Plan)>, NoMemory> {
    let case = THREE;
    match tree_of(alloc, &case.shape)? {
        Some(tree) => staged(alloc, tree, MOST_LANES),
        None => Ok(None),
    }
}

/// Whether a chain and levels are a certificate of the plan of [`three`].
fn is_certified(alloc: Global, chain: &[u32], levels: &[u64]) -> Result<Option<bool>, NoMemory> {
    let Some((stage, plan)) = three(alloc)? else {
        return Ok(None);
    };
    let mut jobs = Jobs::new(alloc);
    jobs.extend(chain)?;
    let certificate = Certificate {
        chain: jobs,
        levels: Vec::from_slice(alloc, levels)?,
    };
    Ok(Some(check(&plan, &stage, &certificate)))
}

#[test]
fn of_members_that_cost_the_same_the_first_is_in_the_chain(rt: HostRuntime) -> Result<(), Fail> {
    let Some((stage, plan)) = three(rt.alloc())? else {
        assert!(rt; false);
        return Ok(());
    };
    let certificate = longest(rt.alloc(), &plan, &stage)?;
    assert_eq!(rt; certificate.chain.as_slice(), [0, 3, 4].as_slice());
    assert_eq!(rt; certificate.levels.as_slice(), [2, 2, 2, 2, 4].as_slice());
    assert!(rt; check(&plan, &stage, &certificate));
    Ok(())
}

#[test]
fn a_chain_is_certified_by_levels(rt: HostRuntime) -> Result<(), Fail> {
    let rows: [(&[u32], &[u64], bool); 10] = [
        (&[0, 3, 4], &[2, 2, 2, 2, 4], true),
        (&[2, 3, 4], &[2, 2, 2, 2, 4], true),
        // The greatest level is more than the chain costs.
        (&[0, 3, 4], &[2, 2, 2, 2, 5], false),
        // A level is less than a job costs after its predecessor, or than it costs itself.
        (&[0, 3, 4], &[2, 2, 2, 2, 3], false),
        (&[0, 3, 4], &[2, 1, 2, 2, 4], false),
        // A level is missing.
        (&[0, 3, 4], &[2, 2, 2, 2], false),
        // A job is no predecessor of the next, or none of the plan.
        (&[0, 4], &[2, 2, 2, 2, 4], false),
        (&[0, 3, 4, 5], &[2, 2, 2, 2, 4], false),
        // Another chain costs more.
        (&[0, 3], &[2, 2, 2, 2, 4], false),
        (&[], &[2, 2, 2, 2, 4], false),
    ];
    for (chain, levels, certified) in rows {
        assert_eq!(rt; is_certified(rt.alloc(), chain, levels)?, Some(certified));
    }
    Ok(())
}
