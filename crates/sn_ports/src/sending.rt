ghost use Rattle.std.specs.Prelude.{◌≡◌, OnOk, length};
ghost use Rattle.sn_ports.specs.Causes.{HasCause};
ghost use Rattle.sn_ports.specs.Links.{KeepsEvents};
ghost use Rattle.sn_ports.specs.Transfer.{TakesAll};

use crate::failed::Failed;
use crate::links::Link;

/// Sends the whole piece. After a fault a prefix of it was sent.
pub fn send_all<L: Link>(link: &mut L, piece: &[u8]) -> Result<(), Failed>
    ensures bytes { TakesAll (L.sent link.old) (L.sent link.new) result piece.now }
    ensures events { KeepsEvents (L.left link.old) (L.left link.new) }
    ensures cause { HasCause (L.faults link.old) (L.faults link.new) result }
    ensures unfailed { OnOk result (L.faults link.new ≡ L.faults link.old) }
    // If there is nothing to do, nothing is called.
    ensures unasked { length piece.now ≡ 0 → link.new ≡ link.old }
{
    let mut rest = piece;
    while !rest.is_empty() {
        let count = link.send(rest)?;
        rest = &rest[count..];
    }
    Ok(())
}
