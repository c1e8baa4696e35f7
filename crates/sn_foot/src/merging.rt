//! The canonical list of the words of extents.
ghost use Rattle.std.specs.Prelude.{◌≡◌, ◌≤◌, ◌+◌, ◌++◌, ◌∷◌, ℕ, List, IfOk, OnOk};
ghost use Rattle.std.specs.List.{All};
ghost use Rattle.sn_mem.specs.declared.extents.Extent.{Extent};
ghost use Rattle.sn_mem.specs.Words.{has};
ghost use Rattle.sn_foot.specs.Canonical.{AreRising, IsCanonical, Ends, both, canonical, merged, nothing, where_some};

use sn_mem::{Extent, Extents};
use sn_ports::NoMemory;
use std::alloc::Global;

fn end(extent: Extent) -> u64
    ensures { result ≡ extent.at + extent.len }
{
    extent.at as u64 + extent.len as u64
}

/// Two extents as one, if the second begins in the first or right after it.
fn both(first: Extent, second: Extent) -> Extent
    requires order { first.at ≤ second.at }
    requires first { Ends first }
    requires second { Ends second }
    ensures both { result ≡ both first second }
    ensures ends { Ends result }
{
    let reach = second.at - first.at + second.len;
    Extent {
        at: first.at,
        len: first.len.max(reach),
    }
}

/// Appends an extent, if it has a word.
fn push_some(extents: &mut Extents, extent: Extent) -> Result<(), NoMemory>
    ensures { OnOk result (extents.new ≡ extents.old ++ where_some extent) }
{
    if extent.len > 0 {
        extents.push(extent)?;
    }
    Ok(())
}

/// Puts the next extent after one that is still open. If they touch, they become one; else the first is done. Returns
/// the one that is then open.
fn absorb(found: &mut Extents, last: Extent, next: Extent) -> Result<Extent, NoMemory>
    requires order { last.at ≤ next.at }
    requires first { Ends last }
    requires second { Ends next }
    ensures ends { IfOk result Ends }
    ensures order { IfOk result (λ left. left.at ≤ next.at) }
    ensures merged { IfOk result (λ left. (rest : List Extent) → found.new ++ merged left rest ≡ found.old ++ merged last (next ∷ rest)) }
{
    if next.at as u64 <= end(last) {
        return Ok(both(last, next));
    }
    push_some(found, last)?;
    Ok(next)
}

/// Extents in the order of their places, those that touch as one.
fn merge(alloc: Global, extents: &[Extent]) -> Result<Extents, NoMemory>
    requires order { AreRising 0 extents.now }
    requires ends { All Ends extents.now }
    ensures { IfOk result (λ found. found ≡ merged nothing extents.now) }
{
    let mut found = Extents::new(alloc);
    let mut last = Extent { at: 0, len: 0 };
    for extent in extents {
        last = absorb(&mut found, last, *extent)?;
    }
    push_some(&mut found, last)?;
    Ok(found)
}

/// The words of all extents, as the one list of extents in the order of their places of which each
/// has a word and no two touch.
pub fn canonical(alloc: Global, extents: Vec<Extent>) -> Result<Extents, NoMemory>
    requires { All Ends extents.items }
    ensures list { IfOk result (λ found. found ≡ canonical extents.items) }
    ensures words { IfOk result (λ found. (x : ℕ) → has found x ≡ has extents.items x) }
    ensures canonical { IfOk result IsCanonical }
{
    let mut extents = extents;
    extents.sort_by_key(|extent| extent.at)?;
    merge(alloc, &extents)
}
