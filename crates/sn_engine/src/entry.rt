//! The entries that a packet or a bundle gives to the queue.
ghost use Rattle.std.specs.Prelude.{◌≡◌, ◌++◌, ◌+◌, map, IfOk, OnOk};
ghost use Rattle.sn_osc.specs.Shape.{shape, shapes, message_of};
ghost use Rattle.sn_engine.specs.Entries.{entries_of, messages_in, enclosed_entries, bundle_entries};
ghost use Rattle.sn_engine.specs.Stacks.{timed_of, entries_left, entries_ahead, bundles_in, bundles_left};

use sn_osc::{Bundle, Elements, Message, Packet, counts_as};
use sn_ports::NoMemory;
use std::alloc::Global;

/// Messages that act together, and the time tag at which they act. A tag of 1 is the time of their arrival.
#[derive(Debug, Drop)]
pub struct Entry {
    pub tag: u64,
    pub messages: Vec<Message>,
}

/// A bundle inside another, and the tag that the other counts as.
#[derive(Debug, Drop)]
struct Enclosed {
    around: u64,
    bundle: Bundle,
}

/// What stands in a bundle: its own messages and the bundles that it encloses, each in reading order.
#[derive(Debug, Drop)]
struct Parts {
    messages: Vec<Message>,
    enclosed: Vec<Enclosed>,
}

fn is_message(packet: &Packet) -> bool {
    match packet {
        Packet::Message(_) => true,
        Packet::Bundle(_) => false,
    }
}

/// Sorts out the elements of a bundle that counts as `tag`. Room for its messages is taken once.
fn sort_out(alloc: Global, tag: u64, elements: Elements) -> Result<Parts, NoMemory>
    ensures messages { IfOk result (λ p. map message_of p.messages.items ≡ messages_in (shapes elements.items)) }
    ensures enclosed { IfOk result (λ p. entries_ahead p.enclosed.items ≡ enclosed_entries tag (shapes elements.items)) }
    ensures fewer { IfOk result (λ p. bundles_left p.enclosed.items ≡ bundles_in (shapes elements.items)) }
{
    let count = elements.iter().filter(|packet| is_message(packet)).count();
    let mut messages = Vec::with_capacity(alloc, count)?;
    let mut enclosed = Vec::new(alloc);
    for packet in elements {
        match packet {
            Packet::Message(message) => messages.push(message)?,
            Packet::Bundle(bundle) => enclosed.push(Enclosed {
                around: tag,
                bundle,
            })?,
        }
    }
    Ok(Parts { messages, enclosed })
}

/// Puts bundles in reading order onto those that are left, so that the first of them is the next.
fn put(left: &mut Vec<Enclosed>, mut ahead: Vec<Enclosed>) -> Result<(), NoMemory>
    ensures entries { OnOk result (entries_left left.new.items ≡ entries_ahead ahead.items ++ entries_left left.old.items) }
    ensures count { OnOk result (bundles_left left.new.items ≡ bundles_left ahead.items + bundles_left left.old.items) }
{
    while let Some(last) = ahead.pop() {
        left.push(last)?;
    }
    Ok(())
}

/// The entries of a bundle: its own messages, and after them those of each bundle in it, in reading order.
fn bundle_entries(alloc: Global, bundle: Bundle) -> Result<Vec<Entry>, NoMemory>
    ensures { IfOk result (λ v. map timed_of v.items ≡ entries_of (shape (Packet.Bundle bundle))) }
{
    let mut entries = Vec::new(alloc);
    let mut left = Vec::new(alloc);
    left.push(Enclosed { around: 1, bundle })?;
    while let Some(next) = left.pop() {
        let tag = counts_as(next.around, next.bundle.tag);
        let parts = sort_out(alloc, tag, next.bundle.elements)?;
        entries.push(Entry {
            tag,
            messages: parts.messages,
        })?;
        put(&mut left, parts.enclosed)?;
    }
    Ok(entries)
}

/// The entries of a packet, in the order of their numbers.
pub fn entries(alloc: Global, packet: Packet) -> Result<Vec<Entry>, NoMemory>
    ensures { IfOk result (λ v. map timed_of v.items ≡ entries_of (shape packet)) }
{
    match packet {
        Packet::Message(message) => {
            let messages = vec![in alloc; message]?;
            Ok(vec![in alloc; Entry { tag: 1, messages }]?)
        }
        Packet::Bundle(bundle) => bundle_entries(alloc, bundle),
    }
}
