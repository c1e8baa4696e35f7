//! Which clients are notified.
ghost use Rattle.std.specs.Prelude.{◌≡◌, ◌<◌, ◌≤◌, false, length, replicate, slice_index_or, slice_set, IfOk};
ghost use Rattle.sn_ports.specs.Limits.{most_clients};

use sn_ports::NoMemory;
use std::alloc::Global;
use std::marker::Model;

/// A flag for each client, by its number. There are at most four clients.
#[derive(Debug, Drop)]
pub struct Flags {
    items: Vec<bool>,
}

impl Model for Flags {
    ghost use Rattle.std.specs.Prelude.{List, Bool, length, ◌≤◌};
    ghost use Rattle.sn_ports.specs.Limits.{most_clients};

    ghost Value = { List Bool };

    ghost view = { λ f. f.items.items };

    ghost invariant = { λ f. length f.items.items ≤ most_clients };
}

impl Flags {
    /// So many flags, all off.
    pub fn new(alloc: Global, clients: u32) -> Result<Flags, NoMemory>
        requires few { clients ≤ most_clients }
        ensures { IfOk result (λ f. f ≡ replicate clients false) }
    {
        Ok(Flags {
            items: vec![in alloc; false; clients as usize]?,
        })
    }

    /// How many clients there are.
    pub fn len(&self) -> usize
        ensures value { result ≡ length self.now }
        ensures bound { result ≤ most_clients }
    {
        self.items.len()
    }

    /// The flags, by the numbers of the clients.
    pub fn as_slice(&self) -> &[bool]
        ensures value { result.now ≡ self.now }
        ensures bound { length result.now ≤ most_clients }
    {
        &self.items
    }

    /// Whether the flag of a client is on; there is none past the last client.
    pub fn is_on(&self, client: u32) -> bool
        ensures { result ≡ slice_index_or self.now client false }
    {
        self.items.get(client as usize).copied().unwrap_or(false)
    }

    /// Sets the flag of a client.
    pub fn set(&mut self, client: u32, on: bool)
        requires client { client < length self.old }
        ensures { self.new ≡ slice_set self.old client on }
    {
        self.items[client as usize] = on;
    }
}
