//! Events that clients are told of, without taking memory.
ghost use Rattle.std.specs.Prelude.{◌≡◌, ◌≤◌, ◌+◌, ◌++◌, ◌∷◌, [], length, if◌then◌else◌};
ghost use Rattle.sn_ports.specs.Limits.{most_clients};
ghost use Rattle.sn_osc.specs.Bytes.{message_bytes, frame_bytes};
ghost use Rattle.sn_reply.specs.Events.{notice_message};
ghost use Rattle.sn_settle.specs.Telling.{HaveRoom, AreTold};

use sn_ports::Text;
use sn_reply::{Notice, event_frame};
use sn_world::Flags;

/// Tells one client of an event, if its flag is on.
fn tell_client(on: bool, event: &Notice, out: &mut Text)
    requires room { 48 ≤ out.old.spare }
    ensures frame { out.new.bytes ≡ out.old.bytes ++ (if on then frame_bytes (message_bytes (notice_message event.now)) else []) }
    ensures room { out.old.spare ≤ out.new.spare + 48 }
{
    if on {
        event_frame(event, out);
    }
}

/// Tells each client whose flag is on of an event. The clients' bytes stand by their numbers, with room for 48 more
/// each.
pub fn tell(flags: &Flags, event: &Notice, outs: &mut [Text])
    requires clients { length outs.old ≤ most_clients }
    requires room { HaveRoom 48 outs.old }
    ensures { AreTold flags.now (event.now ∷ []) outs.old outs.new }
{
    for client in 0..outs.len() {
        tell_client(flags.is_on(client as u32), event, &mut outs[client]);
    }
}
