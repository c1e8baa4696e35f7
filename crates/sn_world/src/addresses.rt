//! The commands by their addresses.
ghost use Rattle.std.specs.Prelude.{◌≡◌, find, map};
ghost use Rattle.sn_world.specs.Addresses.{has_address, called_of, every_command, command_of};

use crate::command::{Command, NodeCommand, ServerCommand};
use sn_tree::AddAction;

/// A command with its address.
#[derive(Clone, Copy, Debug)]
pub struct Addressed {
    /// The address.
    pub address: &'static [u8],
    /// The command.
    pub command: Command,
}

macro_rules! on_nodes {
    ($address:literal $command:ident$(($action:ident))?) => {
        Addressed {
            address: $address,
            command: Command::OnNodes(NodeCommand::$command$((AddAction::$action))?),
        }
    };
}

macro_rules! on_server {
    ($address:literal $command:ident) => {
        Addressed {
            address: $address,
            command: Command::OnServer(ServerCommand::$command),
        }
    };
}

/// All commands.
const COMMANDS: [Addressed; 41] = [
    on_nodes!(b"/s_new" New),
    on_nodes!(b"/notify" Notify),
    on_nodes!(b"/n_run" TurnNodes),
    on_nodes!(b"/n_set" SetControls),
    on_nodes!(b"/n_setn" SetRuns),
    on_nodes!(b"/n_fill" FillRuns),
    on_nodes!(b"/n_map" MapControls),
    on_nodes!(b"/n_query" Query),
    on_nodes!(b"/s_get" GetControls),
    on_nodes!(b"/g_new" NewGroup),
    on_nodes!(b"/p_new" NewParallel),
    on_nodes!(b"/n_free" Free),
    on_nodes!(b"/g_freeAll" FreeAll),
    on_nodes!(b"/g_deepFree" DeepFree),
    on_nodes!(b"/g_queryTree" QueryTree),
    on_nodes!(b"/n_before" Move(Before)),
    on_nodes!(b"/n_after" Move(After)),
    on_nodes!(b"/g_head" Move(Head)),
    on_nodes!(b"/g_tail" Move(Tail)),
    on_nodes!(b"/n_order" Order),
    on_server!(b"/c_set" Set),
    on_server!(b"/c_setn" SetRuns),
    on_server!(b"/c_fill" Fill),
    on_server!(b"/c_get" Get),
    on_server!(b"/c_getn" GetRuns),
    on_server!(b"/b_alloc" AllocBuffer),
    on_server!(b"/b_allocRead" ReadBuffer),
    on_server!(b"/b_free" FreeBuffer),
    on_server!(b"/b_zero" ZeroBuffer),
    on_server!(b"/b_query" QueryBuffers),
    on_server!(b"/b_set" SetSamples),
    on_server!(b"/b_setn" SetSampleRuns),
    on_server!(b"/b_fill" FillSamples),
    on_server!(b"/b_get" GetSamples),
    on_server!(b"/b_getn" GetSampleRuns),
    on_server!(b"/sync" Sync),
    on_server!(b"/d_recv" Receive),
    on_server!(b"/d_free" Free),
    on_server!(b"/status" Status),
    on_server!(b"/clearSched" ClearSched),
    on_server!(b"/quit" Quit),
];

/// All commands with their addresses.
fn every_command() -> &'static [Addressed]
    ensures { map called_of result.now ≡ every_command }
{
    &COMMANDS
}

fn has_address(call: Addressed, address: &[u8]) -> bool
    ensures { result ≡ has_address address.now (called_of call) }
{
    call.address == address
}

/// The first of these with an address.
fn found(commands: &[Addressed], address: &[u8]) -> Option<Addressed>
    ensures { result ≡ find (λ a. has_address address.now (called_of a)) commands.now }
{
    commands
        .iter()
        .copied()
        .find(|call| has_address(*call, address))
}

/// The command that an address calls.
#[tactic(auto, unfolding(crate::specs::Addresses::command_of))]
pub fn command_of(address: &[u8]) -> Option<Command>
    ensures { result ≡ command_of address.now }
{
    found(every_command(), address).map(|call| call.command)
}
