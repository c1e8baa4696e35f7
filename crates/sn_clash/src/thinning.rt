//! Lists of uses without repeats.
ghost use Rattle.std.specs.Prelude.{◌≡◌, ◌<◌, ◌++◌, ◌∷◌, [], length, slice_index_or, Bool, List, IfOk, OnOk};
ghost use Rattle.sn_foot.specs.declared.resource.Resource as resource;
ghost use Rattle.sn_foot.specs.declared.uses.Use as used_so;
ghost use Rattle.sn_foot.specs.Uses.{footprint_in};
ghost use Rattle.sn_clash.specs.Marking.{IsThinned};

use crate::marks::Marks;
use sn_foot::Use;
use sn_ports::NoMemory;
use std::alloc::Global;

/// How long a list of uses may grow. There are 3,072 places, each read or written, and a third of them, the audio
/// buses, may be mixed too. That makes 7,168 uses in all, so a longer list has repeats.
const MOST_USES: usize = 8192;

/// Appends a use and marks it, unless it is marked.
fn put_new(marks: &mut Marks, kept: &mut Vec<Use>, used: &Use) -> Result<(), NoMemory>
    ensures { OnOk result ((uses : List used_so.Use) → IsThinned marks.old kept.old.items uses → IsThinned marks.new kept.new.items (uses ++ used.now ∷ [])) }
{
    if marks.has(used) {
        return Ok(());
    }
    marks.mark(used);
    kept.push(*used)?;
    Ok(())
}

fn use_at(uses: &[Use], index: usize) -> Use
    requires { index < length uses.now }
    ensures { result ≡ slice_index_or uses.now index result }
{
    uses[index]
}

/// Uses without repeats.
fn without_repeats(alloc: Global, uses: &[Use]) -> Result<Vec<Use>, NoMemory>
    ensures { IfOk result (λ u. (there : resource.Resource → Bool) → footprint_in there u.items ≡ footprint_in there uses.now) }
{
    let mut marks = Marks::new(alloc)?;
    let mut kept = Vec::new(alloc);
    for index in 0..uses.len() {
        let used = use_at(uses, index);
        put_new(&mut marks, &mut kept, &used)?;
    }
    Ok(kept)
}

/// Uses, without repeats if the list is long.
pub fn thinned(alloc: Global, uses: Vec<Use>) -> Result<Vec<Use>, NoMemory>
    ensures { IfOk result (λ u. (there : resource.Resource → Bool) → footprint_in there u.items ≡ footprint_in there uses.items) }
{
    if uses.len() <= MOST_USES {
        return Ok(uses);
    }
    without_repeats(alloc, &uses)
}
