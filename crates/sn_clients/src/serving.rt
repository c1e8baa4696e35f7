//! A session of several clients: a reader for each of them, and one engine for all.
ghost use Rattle.std.specs.Prelude.{◌≡◌, ◌⊎◌, ◌≤◌, ◌<◌, ◌+◌, ℕ, [], false, Ok, Err, length, slice_index_or, IfOk};
ghost use Rattle.std.specs.Thread.{IsSend, IsSync};
ghost use Rattle.sn_ports.specs.Causes.{Rose};
ghost use Rattle.sn_ports.specs.Limits.{most_clients};
ghost use Rattle.sn_clients.specs.declared.clients.Client.{Client};
ghost use Rattle.sn_clients.specs.declared.ends.Sender.{Sender};
ghost use Rattle.sn_clients.specs.declared.playing.Halt.TheVariants as halts;
ghost use Rattle.sn_clients.specs.declared.seats.Relay.{Relay};
ghost use Rattle.sn_clients.specs.declared.turns.How.TheVariants as hows;
ghost use Rattle.sn_clients.specs.Answers.{AreNewInlets, IsOutletOf, end_of, has_stopped};
ghost use Rattle.sn_clients.specs.Clients.{HasInlet, IsRead};
ghost use Rattle.sn_clients.specs.Delivery.{AreFronts};
ghost use Rattle.sn_clients.specs.Ends.{clients_in, gathered_in, taken_in, with_gathered};
ghost use Rattle.sn_clients.specs.Looping.{HasPlayed, IsSteady};
ghost use Rattle.sn_clients.specs.Seating.{IsBegun, IsGathered, IsSeatOf, IsSeated, IsStopped, told};
ghost use Rattle.sn_clients.specs.Serving.{IsServed, how_of};

use crate::clients::{Client, ClientEnd, Clients};
use crate::desk::Desk;
use crate::playing::Halt;
use crate::presence::Presence;
use crate::pulse::Pulse;
use crate::readers::read_clients;
use crate::seats::{Inlets, Outlet, Relay};
use crate::turns::{How, Session, Turns};
use crate::watching::Watcher;
use sn_engine::Engine;
use sn_pcm::Settings;
use sn_ports::limits::{MOST_ENTRIES, MOST_RELAYED};
use sn_ports::{Gate, NoMemory, Sink, Source};
use std::alloc::Global;
use std::sync::Wait;
use std::thread::{Threads, join_mut};

/// Sinks for replies, client 0's first.
pub type Sinks<R> = Vec<R>;

/// How a session ended.
fn how_of(end: Result<(), Halt>) -> How
    ensures { result ≡ how_of end }
{
    match end {
        Ok(()) => How::Over,
        Err(Halt::Quit) => How::Quit,
        Err(Halt::NoMemory) => How::NoMemory,
        Err(Halt::SoundFault) => How::SoundFault,
        Err(Halt::TurnsFull) => How::TurnsFull,
    }
}

/// A relay with an inlet for each client, and a desk at which nothing was done.
fn begin(
    alloc: Global,
    settings: &Settings,
    base: u64,
    clients: u32,
) -> Result<(Relay, Inlets, Desk), NoMemory>
    requires { (1 ≤ clients) × (clients ≤ most_clients) }
    ensures inlets { IfOk result (λ r. (length r.1.items ≡ clients) × AreNewInlets r.0 r.1.items) }
    ensures desk { IfOk result (λ r. IsBegun r.0 settings.now base clients r.2) }
{
    let failed = vec![in alloc; false; clients as usize]?;
    let (relay, inlets, outlet) = Relay::open(alloc, clients, MOST_RELAYED)?;
    let engine = Engine::open(alloc, settings, base, Some(MOST_ENTRIES), clients)?;
    let desk = Desk {
        engine,
        outlet,
        turns: Vec::new(alloc),
        failed,
    };
    Ok((relay, inlets, desk))
}

/// Gives each client its inlet.
fn seat_all<S: Source>(clients: &mut [Client<S>], inlets: Inlets)
    requires { length inlets.items ≡ length clients.old }
    ensures seated { (relay : Relay) → AreNewInlets relay inlets.items → (c : ℕ) (d : Client S) → c < length clients.old → IsSeated relay c (slice_index_or clients.old c d) (slice_index_or clients.new c d) }
    ensures count { length clients.new ≡ length clients.old }
{
    let mut at = 0;
    for inlet in inlets {
        clients[at].seat(inlet);
        at += 1;
    }
}

/// Gathers the inlet of a client.
fn gather<S: Source>(relay: &Relay, outlet: &mut Outlet, client: &mut Client<S>, _number: usize)
    requires outlet { IsOutletOf relay.now outlet.old }
    requires inlet { IsSeatOf relay.now _number client.old }
    ensures outlet { IsOutletOf relay.now outlet.new }
    ensures gathered { (sender : Sender) × IsGathered (has_stopped outlet.old) _number client.old client.new sender × (end_of outlet.new ≡ with_gathered (end_of outlet.old) sender) }
    ensures fronts { AreFronts (end_of outlet.old) → AreFronts (end_of outlet.new) }
    ensures stopped { has_stopped outlet.new ≡ has_stopped outlet.old }
{
    let Some(inlet) = client.leave() else {
        unreachable!()
    };
    relay.gather(outlet, inlet);
}

/// Gathers the inlets of all clients.
fn gather_all<S: Source>(relay: &Relay, outlet: &mut Outlet, clients: &mut [Client<S>])
    requires outlet { IsOutletOf relay.now outlet.old }
    requires none { gathered_in (end_of outlet.old) ≡ [] }
    requires inlets { (c : ℕ) (d : Client S) → c < length clients.old → IsSeatOf relay.now c (slice_index_or clients.old c d) }
    ensures outlet { IsOutletOf relay.now outlet.new }
    ensures gathered { (c : ℕ) (d : Client S) (s : Sender) → c < length clients.old
        → IsGathered (has_stopped outlet.new) c (slice_index_or clients.old c d) (slice_index_or clients.new c d) (slice_index_or (gathered_in (end_of outlet.new)) c s) }
    ensures fronts { AreFronts (end_of outlet.new) }
    ensures senders { length (gathered_in (end_of outlet.new)) ≡ length clients.old }
    ensures taken { taken_in (end_of outlet.new) ≡ taken_in (end_of outlet.old) }
    ensures clients { clients_in (end_of outlet.new) ≡ clients_in (end_of outlet.old) }
    ensures stopped { has_stopped outlet.new ≡ has_stopped outlet.old }
    ensures count { length clients.new ≡ length clients.old }
{
    for at in 0..clients.len() {
        gather(relay, outlet, &mut clients[at], at);
    }
}

/// Tells a client that its sink has failed, if it has.
fn tell_fault<S: Source>(client: &mut Client<S>, failed: bool)
    ensures { client.new ≡ told failed client.old }
{
    if failed {
        client.end = ClientEnd::SendFault;
    }
}

/// A flag, which is off if there is none.
fn is_set(flags: &[bool], at: usize) -> bool
    ensures { result ≡ slice_index_or flags.now at false }
{
    match flags.get(at) {
        Some(flag) => *flag,
        None => false,
    }
}

/// Tells each client whose sink has failed that this is its end.
fn tell_faults<S: Source>(clients: &mut [Client<S>], failed: &[bool])
    ensures told { (c : ℕ) (d : Client S) → c < length clients.old → slice_index_or clients.new c d ≡ told (slice_index_or failed.now c false) (slice_index_or clients.old c d) }
    ensures count { length clients.new ≡ length clients.old }
{
    for at in 0..clients.len() {
        tell_fault(&mut clients[at], is_set(failed, at));
    }
}

/// Reads the sources of all clients.
fn read_each<H: Threads + Wait + Sync, S: Source + Send, U: Watcher>(
    rt: &H,
    alloc: Global,
    relay: &Relay,
    clients: &mut Clients<S>,
    readers: &Presence,
    watcher: &U,
)
    requires some { 0 < length clients.old.items }
    requires inlets { (k : ℕ) (d : Client S) → k < length clients.old.items → HasInlet relay.now k (slice_index_or clients.old.items k d) }
    ensures read { (k : ℕ) (d : Client S) → k < length clients.old.items → IsRead relay.now S.left S.faults k (slice_index_or clients.old.items k d) (slice_index_or clients.new.items k d) }
    ensures count { length clients.new.items ≡ length clients.old.items }
{
    read_clients(rt, alloc, relay, clients.as_mut_slice(), readers, watcher);
}

/// Plays turns until the loop ends.
fn play_each<H: Threads + Wait + Sync, R: Sink, O: Sink, T: Pulse, G: Gate, U: Watcher>(
    rt: &H,
    alloc: Global,
    relay: &Relay,
    desk: &mut Desk,
    sinks: &mut Sinks<R>,
    pulse: &mut T,
    most: u32,
    sound: &mut O,
    gate: &G,
    readers: &Presence,
    watcher: &U,
) -> Result<(), Halt>
    requires outlet { IsOutletOf relay.now desk.old.outlet }
    requires steady { IsSteady most (length sinks.old.items) desk.old }
    ensures { HasPlayed R.taken R.faults O.taken O.faults T.left T.zeros relay.now most desk.old desk.new sinks.old.items sinks.new.items sound.old sound.new pulse.old pulse.new result }
{
    desk.play(
        rt,
        alloc,
        relay,
        sinks.as_mut_slice(),
        pulse,
        most,
        sound,
        gate,
        readers,
        watcher,
    )
}

/// Plays turns while the readers read, each in a thread of its own if one can be had.
fn play_and_read<
    H: Threads + Wait + Sync,
    S: Source + Send,
    R: Sink,
    O: Sink,
    T: Pulse,
    G: Gate,
    U: Watcher,
>(
    rt: &H,
    alloc: Global,
    relay: &Relay,
    desk: &mut Desk,
    clients: &mut Clients<S>,
    sinks: &mut Sinks<R>,
    pulse: &mut T,
    most: u32,
    sound: &mut O,
    gate: &G,
    readers: &Presence,
    watcher: &U,
) -> Result<(), Halt>
    requires some { 0 < length clients.old.items }
    requires inlets { (k : ℕ) (d : Client S) → k < length clients.old.items → HasInlet relay.now k (slice_index_or clients.old.items k d) }
    requires outlet { IsOutletOf relay.now desk.old.outlet }
    requires steady { IsSteady most (length sinks.old.items) desk.old }
    ensures read { (k : ℕ) (d : Client S) → k < length clients.old.items → IsRead relay.now S.left S.faults k (slice_index_or clients.old.items k d) (slice_index_or clients.new.items k d) }
    ensures count { length clients.new.items ≡ length clients.old.items }
    ensures played { HasPlayed R.taken R.faults O.taken O.faults T.left T.zeros relay.now most desk.old desk.new sinks.old.items sinks.new.items sound.old sound.new pulse.old pulse.new result }
{
    let ((), end) = join_mut(
        rt,
        &mut ||
            requires { IsSync H.row × IsSync U.row × IsSend S.row × (0 < length clients.now.items) × ((k : ℕ) (d : Client S) → k < length clients.now.items → HasInlet relay.now k (slice_index_or clients.now.items k d)) }
        { read_each(rt, alloc, relay, clients, readers, watcher) },
        &mut ||
            requires { IsSync H.row × IsSync G.row × IsSync U.row × IsOutletOf relay.now desk.now.outlet × IsSteady most (length sinks.now.items) desk.now }
        {
            play_each(
                rt, alloc, relay, desk, sinks, pulse, most, sound, gate, readers, watcher,
            )
        },
    );
    end
}

/// What a desk leaves: its turns, and whose sinks have failed.
fn remains(desk: Desk) -> (Turns, Vec<bool>)
    ensures turns { result.0.items ≡ desk.turns.items }
    ensures failed { result.1.items ≡ desk.failed.items }
{
    (desk.turns, desk.failed)
}

/// A session for which there was no memory.
fn unbegun<S: Source>(alloc: Global, clients: &mut [Client<S>]) -> Session
    ensures stopped { (c : ℕ) (d : Client S) → c < length clients.old → IsStopped (slice_index_or clients.old c d) (slice_index_or clients.new c d) }
    ensures count { length clients.new ≡ length clients.old }
    ensures session { (result.how ≡ hows.NoMemory) × (result.turns.items ≡ []) }
{
    for at in 0..clients.len() {
        clients[at].stop();
    }
    Session {
        how: How::NoMemory,
        turns: Vec::new(alloc),
    }
}

/// Serves 1 to 4 clients at once until the session ends, with block 0 at the time tag `base`, in `most` turns at most,
/// 1 or more.
///
/// `sinks` has one sink for each client, which takes its replies. Each client is read in a thread of its own if one
/// can be had, and the turns are played in this one. A client's `read` is told how its reader ended, and so is its
/// `end`, unless its sink failed. Then it is sent nothing more, and its frames are still played. If the session ends
/// before a reader, `watcher` is told, and the call waits for the reader.
pub fn serve_many<
    H: Threads + Wait + Sync,
    S: Source + Send,
    R: Sink,
    O: Sink,
    T: Pulse,
    G: Gate,
    U: Watcher,
>(
    rt: &H,
    alloc: Global,
    settings: &Settings,
    base: u64,
    clients: &mut Clients<S>,
    sinks: &mut Sinks<R>,
    pulse: &mut T,
    most: u32,
    sound: &mut O,
    gate: &G,
    watcher: &U,
) -> Session
    requires clients { (1 ≤ length clients.old.items) × (length clients.old.items ≤ most_clients) }
    requires sinks { length sinks.old.items ≡ length clients.old.items }
    requires most { 1 ≤ most }
    // What was played over the turns, the frames of each client in them, and why each client's reader ended.
    ensures served { IsServed S.left S.faults R.taken R.faults settings.now base clients.old.items clients.new.items sinks.old.items sinks.new.items (O.taken sound.old) (O.taken sound.new) (T.left pulse.old) (T.left pulse.new) (T.zeros pulse.old) (T.zeros pulse.new) result.how result.turns.items }
    ensures few { length result.turns.items ≤ most }
    ensures full { result.how ≡ hows.TurnsFull → length result.turns.items ≡ most }
    ensures over { result.how ≡ hows.Over → length result.turns.items < most }
    ensures zero { result.how ≡ hows.Over → Rose (T.zeros pulse.old) (T.zeros pulse.new) }
    ensures sound { result.how ≡ hows.SoundFault → Rose (O.faults sound.old) (O.faults sound.new) }
    ensures sound_unfailed { (result.how ≡ hows.SoundFault) ⊎ (O.faults sound.new ≡ O.faults sound.old) }
{
    let count = clients.len() as u32;
    let Ok((relay, inlets, desk)) = begin(alloc, settings, base, count) else {
        return unbegun(alloc, clients.as_mut_slice());
    };
    let mut desk = desk;
    seat_all(clients.as_mut_slice(), inlets);
    let readers = Presence::new(count);
    let played = play_and_read(
        rt, alloc, &relay, &mut desk, clients, sinks, pulse, most, sound, gate, &readers, watcher,
    );
    gather_all(&relay, &mut desk.outlet, clients.as_mut_slice());
    let end = desk.end(rt, alloc, &relay, sinks.as_mut_slice(), most, played);
    let (turns, failed) = remains(desk);
    tell_faults(clients.as_mut_slice(), &failed);
    Session {
        how: how_of(end),
        turns,
    }
}
