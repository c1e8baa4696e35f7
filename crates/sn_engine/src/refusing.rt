//! What a client is told whose bytes are no packet.
ghost use Rattle.std.specs.Prelude.{◌≡◌, ◌∷◌, [], IfOk};
ghost use Rattle.sn_engine.specs.Refusing.{bad_packet};

use sn_osc::Address;
use sn_ports::NoMemory;
use sn_reply::{Reason, Replies, To, fail};
use std::alloc::Global;

/// `/fail` for bytes that are no packet.
pub fn bad_packet(alloc: Global, from: u32) -> Result<Replies, NoMemory>
    ensures { IfOk result (λ said. said ≡ bad_packet from ∷ []) }
{
    let mut said = Replies::new(alloc);
    let message = fail(
        alloc,
        &Address::from_slice(alloc, b"packet")?,
        Reason::BadPacket,
    )?;
    said.push(To::Client(from), message)?;
    Ok(said)
}
