//! The readers of all clients, in threads of their own.
ghost use Rattle.std.specs.Prelude.{◌≡◌, ◌≤◌, ◌<◌, ◌+◌, ℕ, length, slice_index_or};
ghost use Rattle.std.specs.Thread.{IsSync};
ghost use Rattle.sn_clients.specs.Clients.{HasInlet, IsRead};
ghost use Rattle.sn_clients.specs.declared.clients.Client.{Client};

use crate::clients::Client;
use crate::presence::Presence;
use crate::reading::read_all;
use crate::seats::Relay;
use crate::watching::Watcher;
use sn_ports::Source;
use std::alloc::Global;
use std::sync::Wait;
use std::thread::{Threads, for_each_mut};

/// Reads one client's source.
fn read_client<H: Wait, S: Source, U: Watcher>(
    rt: &H,
    alloc: Global,
    relay: &Relay,
    client: &mut Client<S>,
    _number: usize,
    readers: &Presence,
    watcher: &U,
)
    requires inlet { HasInlet relay.now _number client.old }
    ensures read { IsRead relay.now S.left S.faults _number client.old client.new }
{
    let Some(mut inlet) = client.inlet.take() else {
        unreachable!()
    };
    client.read = read_all(rt, alloc, relay, &mut inlet, &mut client.source);
    client.end = client.read;
    client.inlet = Some(inlet);
    readers.leave();
    watcher.client_ended();
}

/// Reads the sources of all clients, each in a thread of its own if one can be had.
pub(crate) fn read_clients<H: Threads + Wait + Sync, S: Source + Send, U: Watcher>(
    rt: &H,
    alloc: Global,
    relay: &Relay,
    clients: &mut [Client<S>],
    readers: &Presence,
    watcher: &U,
)
    requires some { 0 < length clients.old }
    requires inlets { (k : ℕ) (d : Client S) → k < length clients.old → HasInlet relay.now k (slice_index_or clients.old k d) }
    ensures read { (k : ℕ) (d : Client S) → k < length clients.old → IsRead relay.now S.left S.faults k (slice_index_or clients.old k d) (slice_index_or clients.new k d) }
    ensures count { length clients.new ≡ length clients.old }
{
    readers.begin();
    let threads = clients.len();
    for_each_mut(
        rt,
        clients,
        threads,
        &|i, client: &mut Client<S>|
            requires { IsSync H.row × IsSync U.row × HasInlet relay.now i client.old }
            ensures { IsRead relay.entry.now S.left S.faults i client.old client.new }
        { read_client(rt, alloc, relay, client, i, readers, watcher) },
    );
}
