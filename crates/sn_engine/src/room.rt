//! Room for what the settling of a block may tell.
ghost use Rattle.std.specs.Prelude.{◌≡◌, ◌≤◌, ◌<◌, ◌*◌, ◌^◌, map, length, IfOk, OnOk};
ghost use Rattle.sn_ports.specs.Octets.{bytes_of};
ghost use Rattle.sn_reply.specs.Frames.{EachHasRoom};
ghost use Rattle.sn_engine.specs.Keeping.{CanSettle};

use sn_ports::{NoMemory, Text};
use sn_world::Endings;

/// The most bytes of an event's frame.
const EVENT_BYTES: u32 = 48;

/// Makes room for so many bytes after each text.
fn reserve_each(texts: &mut [Text], room: u32) -> Result<(), NoMemory>
    ensures len { length texts.new ≡ length texts.old }
    ensures bytes { map bytes_of texts.new ≡ map bytes_of texts.old }
    ensures room { OnOk result (EachHasRoom room texts.new) }
{
    let Some((first, rest)) = texts.split_first_mut() else {
        return Ok(());
    };
    first.reserve(room)?;
    reserve_each(rest, room)
}

/// Makes room for so many triggers and ends, which may come of the next block. Returns how many bytes each client may
/// be sent of it.
pub fn reserve_settling(
    most: u32,
    endings: &mut Endings,
    replies: &mut [Text],
) -> Result<u32, NoMemory>
    requires few { most ≤ 2097152 }
    ensures len { length replies.new ≡ length replies.old }
    ensures bytes { map bytes_of replies.new ≡ map bytes_of replies.old }
    ensures room { IfOk result (λ room. room ≡ 48 * most) }
    ensures few { IfOk result (λ room. room < 2 ^ 30) }
    ensures settles { OnOk result (CanSettle most endings.new.spare replies.new) }
{
    endings.reserve(most as usize)?;
    reserve_each(replies, EVENT_BYTES * most)?;
    Ok(EVENT_BYTES * most)
}
