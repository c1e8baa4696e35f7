//! Mappings that decide what a message of mappings does.
ghost use Rattle.std.specs.Prelude.{◌≡◌, Some, not, map, IfOk};
ghost use Rattle.std.specs.List.{position};
ghost use Rattle.sn_world.specs.Mappings.{is_followable};
ghost use Rattle.sn_nodecmd.specs.Mapped.{mapping_of, AreNeeded};

use crate::latest::{Covering, is_same, latest};
use crate::mappings::{Mapping, is_followable};
use crate::names::NamedControl;
use sn_ports::NoMemory;
use std::alloc::Global;

impl Covering for Mapping<'_> {
    ghost use Rattle.std.specs.Prelude.{◌≡◌};
    ghost use Rattle.sn_nodecmd.specs.Runs.{name_of};

    ghost covered = { λ m later. name_of later.control ≡ name_of m.control };

    fn control(&self) -> NamedControl<'_> {
        self.control
    }

    fn is_covered_by(&self, later: &Self) -> bool {
        is_same(self.control, later.control)
    }
}

/// Whether the bus of a mapping can't be followed.
fn is_bad(mapping: &Mapping<'_>) -> bool
    ensures { result ≡ not (is_followable mapping.now.bus) }
{
    !is_followable(mapping.bus)
}

/// The place of the first mapping whose bus can't be followed.
pub fn first_bad(mappings: &[Mapping<'_>]) -> Option<usize>
    ensures { result ≡ position (λ m. not (is_followable m.bus)) mappings.now }
{
    mappings.iter().position(|mapping| is_bad(mapping))
}

/// The mapping at a place and what is needed of those before it. That one is the first whose bus can't be followed, so
/// none after it is looked at.
fn needed_to<'a>(
    alloc: Global,
    mappings: Vec<Mapping<'a>>,
    place: usize,
) -> Result<Vec<Mapping<'a>>, NoMemory>
    requires { position (λ m. not (is_followable m.bus)) mappings.items ≡ Some place }
    ensures { IfOk result (λ v. AreNeeded (map mapping_of mappings.entry.items) (map mapping_of v.items)) }
{
    let mut mappings = mappings;
    let bad = mappings[place];
    mappings.truncate(place);
    let mut left = latest(alloc, mappings)?;
    left.push(bad)?;
    Ok(left)
}

/// Mappings that are refused for the same reason as these, or else do the same. Of many mappings of one control only
/// the last is needed.
pub fn needed<'a>(alloc: Global, mappings: Vec<Mapping<'a>>) -> Result<Vec<Mapping<'a>>, NoMemory>
    ensures { IfOk result (λ v. AreNeeded (map mapping_of mappings.entry.items) (map mapping_of v.items)) }
{
    match first_bad(&mappings) {
        Some(place) => needed_to(alloc, mappings, place),
        None => latest(alloc, mappings),
    }
}
