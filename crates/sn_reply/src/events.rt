//! What clients are told when a block is settled.
ghost use Rattle.std.specs.Prelude.{◌≡◌, ◌≤◌, ◌+◌, ◌++◌, length};
ghost use Rattle.sn_osc.specs.Bytes.{int_bytes, arguments_bytes, message_bytes, frame_bytes};
ghost use Rattle.sn_reply.specs.Events.{neighbours_arguments, trigger_arguments, notice_message};

use sn_ports::Text;

/// A synth and the nodes around it in the tree, by their ids, with -1 for none.
#[derive(Clone, Copy, Debug, PartialEq, Eq)]
pub struct Neighbours {
    /// The synth's node id.
    pub id: i32,
    /// The id of its group, or -1.
    pub parent: i32,
    /// The id of the node before it in its group, or -1.
    pub previous: i32,
    /// The id of the node after it in its group, or -1.
    pub next: i32,
}

/// What happened to a synth in a block.
#[derive(Clone, Copy, Debug, PartialEq, Eq)]
pub enum Notice {
    /// `/tr`: a trigger rose.
    Tr { node: i32, id: i32, value: i32 },
    /// `/n_end`: the synth was freed. It stood here.
    End(Neighbours),
    /// `/n_off`: the synth was paused.
    Off(Neighbours),
}

fn put_int(value: i32, out: &mut Text)
    requires room { 4 ≤ out.old.spare }
    ensures bytes { out.new.bytes ≡ out.old.bytes ++ int_bytes value }
    ensures room { out.old.spare ≤ out.new.spare + 4 }
{
    out.append_within(&value.to_be_bytes());
}

/// Appends the arguments of a trigger to what stands before them in its frame.
fn put_trigger(head: &[u8], node: i32, id: i32, value: i32, out: &mut Text)
    requires room { length head.now + 12 ≤ out.old.spare }
    ensures bytes { out.new.bytes ≡ out.old.bytes ++ (head.now ++ arguments_bytes (trigger_arguments node id value)) }
    ensures room { out.old.spare ≤ out.new.spare + (length head.now + 12) }
{
    out.append_within(head);
    put_int(node, out);
    put_int(id, out);
    put_int(value, out);
}

/// Appends the ids of a synth and of its neighbours to what stands before them in its frame.
fn put_neighbours(head: &[u8], neighbours: &Neighbours, out: &mut Text)
    requires room { length head.now + 20 ≤ out.old.spare }
    ensures bytes { out.new.bytes ≡ out.old.bytes ++ (head.now ++ arguments_bytes (neighbours_arguments neighbours.now)) }
    ensures room { out.old.spare ≤ out.new.spare + (length head.now + 20) }
{
    out.append_within(head);
    put_int(neighbours.id, out);
    put_int(neighbours.parent, out);
    put_int(neighbours.previous, out);
    put_int(neighbours.next, out);
    put_int(0, out);
}

/// Appends the frame of an event's message. It takes no memory.
pub fn event_frame(event: &Notice, out: &mut Text)
    requires room { 48 ≤ out.old.spare }
    ensures frame { out.new.bytes ≡ out.old.bytes ++ frame_bytes (message_bytes (notice_message event.now)) }
    ensures room { out.old.spare ≤ out.new.spare + 48 }
{
    match event {
        Notice::Tr { node, id, value } => {
            put_trigger(b"\0\0\0\x18/tr\0,iii\0\0\0\0", *node, *id, *value, out);
        }
        Notice::End(neighbours) => put_neighbours(
            b"\0\0\0\x24/n_end\0\0,iiiii\0\0",
            neighbours,
            out,
        ),
        Notice::Off(neighbours) => put_neighbours(
            b"\0\0\0\x24/n_off\0\0,iiiii\0\0",
            neighbours,
            out,
        ),
    }
}
