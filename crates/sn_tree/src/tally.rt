//! Going over all payloads.
ghost use Rattle.std.specs.Prelude.{◌≡◌};
ghost use Rattle.sn_tree.specs.Tallies.{gathered};
ghost use Rattle.sn_tree.specs.Reading.{held_by};

use crate::payloads::payload_at;
use crate::rows::Rows;
use slab::Slab;

/// What is gathered from payloads, one after the other.
pub trait Tally<P> {
    ghost use Rattle.std.specs.Prelude.{◌≡◌};

    ghost with_one: { Self → P → Self };

    /// Takes one more payload into account.
    fn add(&mut self, payload: &P)
        ensures { self.new ≡ with_one self.old payload.now };
}

/// Goes over the payloads of nodes.
pub fn tally_rows<P, T: Tally<P>>(root: &P, payloads: &Slab<P>, rows: Rows<'_>, tally: &mut T)
    ensures { tally.new ≡ gathered T.with_one tally.old (held_by root.now payloads.now.slots rows.entry) }
{
    for row in rows {
        match payload_at(root, payloads, row.item.key) {
            Some(payload) => tally.add(payload),
            None => {}
        }
    }
}
