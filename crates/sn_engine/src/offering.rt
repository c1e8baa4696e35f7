//! Entries that arrive: they are put, or refused if as many wait as may.
ghost use Rattle.std.specs.Prelude.{◌≡◌, ◌≤◌, ◌<◌, ◌+◌, ◌^◌, ℕ, map, length, IfOk, OnOk, OnErr};
ghost use Rattle.std.specs.List.{AllByRecursion};
ghost use Rattle.sn_ports.specs.Limits.{most_count};
ghost use Rattle.sn_osc.specs.Shape.{message_of};
ghost use Rattle.sn_queue.specs.Steps.{put};
ghost use Rattle.sn_reply.specs.Failing.{fail_message};
ghost use Rattle.sn_reply.specs.Sending.{IsAnswerable, IsSendable};
ghost use Rattle.sn_reply.specs.declared.reason.Reason.TheVariants.{QueueFull};
ghost use Rattle.sn_reply.specs.declared.replies.To.TheVariants.{Client};
ghost use Rattle.sn_engine.specs.Answerable.{AllAnswerable, AreAnswerable};
ghost use Rattle.sn_engine.specs.Arriving.{address_of, is_full, offer_entry, offer_entries, IsPartlyOffered};
ghost use Rattle.sn_engine.specs.Stacks.{timed_of};

use crate::entry::Entry;
use sn_osc::{Address, Message};
use sn_ports::NoMemory;
use sn_queue::{Messages, Queue};
use sn_reply::{Reason, Replies, To, fail};
use std::alloc::Global;

/// `/fail` for a refused entry, by the address of its first message, or as a bundle if it has none.
fn refusal(alloc: Global, messages: &[Message]) -> Result<Message, NoMemory>
    requires { AllByRecursion IsAnswerable (map message_of messages.now) }
    ensures message { IfOk result (λ m. message_of m ≡ fail_message (address_of (map message_of messages.now)) QueueFull) }
    ensures sendable { IfOk result (λ m. IsSendable (message_of m)) }
{
    match messages.first() {
        Some(message) => fail(alloc, &message.address, Reason::QueueFull),
        None => fail(
            alloc,
            &Address::from_slice(alloc, b"#bundle")?,
            Reason::QueueFull,
        ),
    }
}

/// Puts an entry that arrives at a boundary from a client.
#[tactic(auto, using(crate::proofs::PutLemmas::put_answerable))]
fn put_entry(queue: &mut Queue, boundary: u64, from: u32, entry: Entry) -> Result<(), NoMemory>
    requires boundary { boundary < most_count }
    requires puts { queue.old.puts < most_count }
    requires messages { AllByRecursion IsAnswerable (map message_of entry.messages.items) }
    requires waiting { AllAnswerable queue.old.waiting }
    ensures put { OnOk result (queue.new ≡ put queue.old (timed_of entry).tag boundary from (timed_of entry).messages) }
    ensures refused { OnErr result (queue.new ≡ queue.old) }
    ensures waiting { AllAnswerable queue.new.waiting }
{
    match queue.put(
        entry.tag,
        boundary,
        from,
        Messages::from_vec(entry.messages),
    ) {
        Ok(()) => Ok(()),
        Err(_) => Err(NoMemory),
    }
}

/// Puts an entry that arrives at a boundary from a client, or refuses it if as many wait as may. Returns how many were
/// refused.
fn offer_entry(
    alloc: Global,
    queue: &mut Queue,
    boundary: u64,
    from: u32,
    entry: Entry,
    replies: &mut Replies,
) -> Result<u32, NoMemory>
    requires boundary { boundary < most_count }
    requires puts { queue.old.puts < most_count }
    requires messages { AllByRecursion IsAnswerable (map message_of entry.messages.items) }
    requires waiting { AllAnswerable queue.old.waiting }
    ensures offered { IfOk result (λ k. (n : ℕ) → offer_entry boundary from (timed_of entry) (record { waiting = queue.old; replies = replies.old; refused = n })
        ≡ record { waiting = queue.new; replies = replies.new; refused = n + k }) }
    ensures refused { OnErr result (queue.new ≡ queue.old) }
    ensures few { IfOk result (λ k. k ≤ 1) }
    ensures puts { OnOk result (queue.new.puts ≤ queue.old.puts + 1) }
    ensures waiting { AllAnswerable queue.new.waiting }
{
    if queue.is_full() {
        let refusal = refusal(alloc, &entry.messages)?;
        replies.push(To::Client(from), refusal)?;
        return Ok(1);
    }
    put_entry(queue, boundary, from, entry)?;
    Ok(0)
}

/// Offers entries that arrive at a boundary from a client, in the order of their numbers. Returns how many were
/// refused.
pub fn offer_entries(
    alloc: Global,
    queue: &mut Queue,
    boundary: u64,
    from: u32,
    entries: Vec<Entry>,
    replies: &mut Replies,
) -> Result<u32, NoMemory>
    requires boundary { boundary < most_count }
    requires puts { queue.old.puts + length entries.items ≤ most_count }
    requires few { length entries.items < 2 ^ 32 }
    requires entries { AreAnswerable (map timed_of entries.items) }
    requires waiting { AllAnswerable queue.old.waiting }
    ensures offered { IfOk result (λ k. offer_entries boundary from (map timed_of entries.items) (record { waiting = queue.old; replies = replies.old; refused = 0 })
        ≡ record { waiting = queue.new; replies = replies.new; refused = k }) }
    ensures part { OnErr result (IsPartlyOffered boundary from (map timed_of entries.items) queue.old queue.new) }
    ensures waiting { AllAnswerable queue.new.waiting }
{
    let mut refused = 0;
    for entry in entries {
        refused += offer_entry(alloc, queue, boundary, from, entry, replies)?;
    }
    Ok(refused)
}
