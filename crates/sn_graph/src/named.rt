//! The groups that clashes name.
ghost use Rattle.std.specs.Prelude.{◌≡◌, IfOk, IsPermutation, IsSorted, map};
ghost use Rattle.std.specs.Ordering.{int_cmp};
ghost use Rattle.sn_graph.specs.Plans.{is_listed};

use sn_clash::Clash;
use sn_ports::NoMemory;
use std::alloc::Global;
use std::marker::Model;

/// The ids of the groups that clashes name.
fn groups_of(alloc: Global, clashes: &[Clash]) -> Result<Vec<i32>, NoMemory>
    ensures { IfOk result (λ groups. groups.items ≡ map (λ c. c.group) clashes.now) }
{
    let mut groups = Vec::new(alloc);
    for clash in clashes {
        groups.push(clash.group)?;
    }
    Ok(groups)
}

/// These ids, sorted.
fn sorted_groups(alloc: Global, clashes: &[Clash]) -> Result<Vec<i32>, NoMemory>
    ensures sorted { IfOk result (λ groups. IsSorted int_cmp groups.items) }
    ensures same { IfOk result (λ groups. IsPermutation (map (λ c. c.group) clashes.now) groups.items) }
{
    let mut groups = groups_of(alloc, clashes)?;
    groups.sort_unstable();
    Ok(groups)
}

/// Whether an id is among sorted ones.
fn is_among(sorted: &[i32], id: &i32) -> bool
    requires { IsSorted int_cmp sorted.now }
    ensures { result ≡ is_listed sorted.now id.now }
{
    sorted.binary_search(id).is_ok()
}

/// The groups that clashes name. Whether a group is one of them is found in time in the logarithm of their number.
#[derive(Drop)]
pub struct NamedGroups<'a> {
    clashes: &'a [Clash],
    // The ids of the groups, sorted.
    sorted: Vec<i32>,
}

impl<'a> Model for NamedGroups<'a> {
    ghost use Rattle.std.specs.Prelude.{List, ℤ, IsPermutation, IsSorted, map};
    ghost use Rattle.std.specs.Ordering.{int_cmp};
    ghost use Rattle.sn_clash.specs.declared.clash.Clash.{Clash};

    ghost Value = { List ℤ };

    ghost view = { λ n. map (λ (c : Clash). c.group) n.clashes.now };

    ghost invariant = { λ n. IsSorted int_cmp n.sorted.items × IsPermutation (map (λ (c : Clash). c.group) n.clashes.now) n.sorted.items };
}

impl<'a> NamedGroups<'a> {
    /// The groups that these clashes name.
    pub fn new(alloc: Global, clashes: &'a [Clash]) -> Result<NamedGroups<'a>, NoMemory>
        ensures { IfOk result (λ named. named ≡ map (λ c. c.group) clashes.now) }
    {
        let sorted = sorted_groups(alloc, clashes)?;
        Ok(NamedGroups { clashes, sorted })
    }

    /// Whether a group is one of them.
    pub fn has(&self, id: &i32) -> bool
        ensures { result ≡ is_listed self.now id.now }
    {
        is_among(self.sorted.as_slice(), id)
    }
}
