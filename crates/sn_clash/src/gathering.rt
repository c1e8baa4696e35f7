//! What nodes use together.
ghost use Rattle.std.specs.Prelude.{◌≡◌, ◌++◌, Bool, take, drop, IfOk, OnOk};
ghost use Rattle.sn_foot.specs.declared.resource.Resource as resource;
ghost use Rattle.sn_foot.specs.Uses.{footprint_in};
ghost use Rattle.sn_clash.specs.Passing.{either, gathered, members_of};

use crate::subtree::Subtree;
use crate::thinning::thinned;
use sn_foot::Use;
use sn_ports::NoMemory;
use std::alloc::Global;

/// Appends uses to others.
fn appended(uses: Vec<Use>, more: &[Use]) -> Result<Vec<Use>, NoMemory>
    ensures { IfOk result (λ u. u.items ≡ uses.items ++ more.now) }
{
    let mut uses = uses;
    uses.extend_from_slice(more)?;
    Ok(uses)
}

/// Both lists as one. The shorter one is appended to the longer, so a use is copied only into a list at least twice as
/// long as its own.
fn together(first: Vec<Use>, second: Vec<Use>) -> Result<Vec<Use>, NoMemory>
    ensures { IfOk result (λ u. (there : resource.Resource → Bool) → footprint_in there u.items ≡ either (footprint_in there first.items) (footprint_in there second.items)) }
{
    if first.len() < second.len() {
        return appended(second, &first);
    }
    appended(first, &second)
}

/// Other uses, with what nodes use appended: the nodes after the first `kept`, which are removed.
pub fn gather(
    alloc: Global,
    uses: Vec<Use>,
    passed: &mut Vec<Subtree>,
    kept: usize,
) -> Result<Vec<Use>, NoMemory>
    ensures uses { IfOk result (λ u. (there : resource.Resource → Bool) → footprint_in there u.items ≡ gathered (footprint_in there uses.items) (members_of there (drop kept passed.old.items))) }
    ensures left { OnOk result (passed.new.items ≡ take kept passed.old.items) }
{
    let mut uses = uses;
    while passed.len() > kept {
        match passed.pop() {
            Some(subtree) => uses = together(uses, subtree.uses)?,
            None => return Ok(uses),
        }
    }
    let all = thinned(alloc, uses)?;
    Ok(all)
}
