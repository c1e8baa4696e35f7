//! Payloads by their keys, and changes of them.
ghost use Rattle.std.specs.Prelude.{◌≡◌, ◌≢◌, ℕ, option_copied};
ghost use Rattle.std.specs.Option.{option_map};
ghost use Rattle.slab.specs.Slab.{get};
ghost use Rattle.sn_tree.specs.Reworking.{IsChangedAt};
ghost use Rattle.sn_tree.specs.Walking.{payload_at};
ghost use Rattle.sn_tree.specs.Reading.{AreChangedBy};

use crate::rows::Rows;
use slab::Slab;

/// A change of one payload.
pub trait ChangePayload<P> {
    /// What becomes of a payload.
    ghost changed: { Self → P → P };

    /// Changes a payload.
    fn change(&self, payload: &mut P)
        ensures { payload.new ≡ changed self.now payload.old };
}

/// The payload under a key. No key means the root's.
pub fn payload_at<'a, P>(root: &'a P, payloads: &'a Slab<P>, key: Option<usize>) -> Option<&'a P>
    ensures { option_copied result ≡ payload_at root.now payloads.now.slots key }
{
    match key {
        None => Some(root),
        Some(key) => payloads.get(key),
    }
}

fn change_slot<P, C: ChangePayload<P>>(payloads: &mut Slab<P>, key: usize, change: &C)
    ensures this { get payloads.new key ≡ option_map (C.changed change.now) (get payloads.old key) }
    ensures others { (other : ℕ) → other ≢ key → get payloads.new other ≡ get payloads.old other }
{
    if let Some(payload) = payloads.get_mut(key) {
        change.change(payload);
    }
}

/// Changes the payload under a key. No key means the root's.
fn change_at<P, C: ChangePayload<P>>(
    root: &mut P,
    payloads: &mut Slab<P>,
    key: Option<usize>,
    change: &C,
)
    ensures { IsChangedAt (C.changed change.now) root.old payloads.old.slots root.new payloads.new.slots key }
{
    match key {
        None => change.change(root),
        Some(key) => change_slot(payloads, key, change),
    }
}

/// Changes the payload of each of these nodes.
pub fn change_rows<P, C: ChangePayload<P>>(
    root: &mut P,
    payloads: &mut Slab<P>,
    rows: Rows<'_>,
    change: &C,
)
    ensures { AreChangedBy (C.changed change.now) root.old payloads.old.slots root.new payloads.new.slots rows.entry }
{
    for row in rows {
        change_at(root, payloads, row.item.key, change);
    }
}
