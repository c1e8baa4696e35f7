//! The clashes of the boundary before, in which those of a boundary are looked up.
ghost use Rattle.std.specs.Prelude.{◌≡◌, IfOk};
ghost use Rattle.std.specs.List.{list_any};
ghost use Rattle.sn_foot.specs.Footprints.{number_of};
ghost use Rattle.sn_engine.specs.Clashing.{sort_of, same_clash};
ghost use Rattle.sn_engine.specs.Seeking.{key_of, AreKeysOf};

use sn_clash::Clash;
use sn_foot::Resource;
use sn_ports::NoMemory;
use std::alloc::Global;
use std::collections::BTreeSet;
use std::marker::Model;

/// By what a clash is found.
#[derive(Clone, Copy, PartialEq, Eq, PartialOrd, Ord)]
pub(crate) struct Key {
    pub(crate) group: i32,
    pub(crate) first: i32,
    pub(crate) second: i32,
    // The sort of the resource, and its number.
    pub(crate) sort: u32,
    pub(crate) number: u32,
}

fn sort_of(resource: &Resource) -> u32
    ensures { result ≡ sort_of resource.now }
{
    match resource {
        Resource::Audio(_) => 0,
        Resource::Control(_) => 1,
        Resource::Buffer(_) => 2,
    }
}

fn number_of(resource: &Resource) -> u32
    ensures { result ≡ number_of resource.now }
{
    match resource {
        Resource::Audio(number) | Resource::Control(number) | Resource::Buffer(number) => *number,
    }
}

fn key_of(clash: &Clash) -> Key
    ensures { result ≡ key_of clash.now }
{
    Key {
        group: clash.group,
        first: clash.first,
        second: clash.second,
        sort: sort_of(&clash.resource),
        number: number_of(&clash.resource),
    }
}

/// The keys of clashes, in order.
fn keys_of(alloc: Global, clashes: &[Clash]) -> Result<BTreeSet<Key>, NoMemory>
    ensures { IfOk result (λ keys. AreKeysOf keys clashes.now) }
{
    let mut keys = BTreeSet::new(alloc);
    for clash in clashes {
        keys.insert(key_of(clash))?;
    }
    Ok(keys)
}

/// The clashes of the boundary before. To find one takes the logarithm of how many there are.
#[derive(Drop)]
pub(crate) struct Before<'a> {
    clashes: &'a [Clash],
    keys: BTreeSet<Key>,
}

impl<'a> Model for Before<'a> {
    ghost use Rattle.std.specs.Prelude.{List};
    ghost use Rattle.sn_clash.specs.declared.clash.Clash.{Clash};
    ghost use Rattle.sn_engine.specs.Seeking.{AreKeysOf};

    ghost Value = { List Clash };

    ghost view = { λ b. b.clashes.now };

    ghost invariant = { λ b. AreKeysOf b.keys b.clashes.now };
}

impl<'a> Before<'a> {
    pub(crate) fn new(alloc: Global, clashes: &'a [Clash]) -> Result<Before<'a>, NoMemory>
        ensures { IfOk result (λ before. before ≡ clashes.now) }
    {
        Ok(Before {
            clashes,
            keys: keys_of(alloc, clashes)?,
        })
    }

    /// Whether the same clash was there.
    pub(crate) fn has(&self, clash: &Clash) -> bool
        ensures { result ≡ list_any (λ b. same_clash b clash.now) self.now }
    {
        self.keys.contains(&key_of(clash))
    }
}
