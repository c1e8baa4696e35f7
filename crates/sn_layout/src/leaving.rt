//! Messages that leave the layout.
ghost use Rattle.std.specs.Prelude.{◌≡◌, true, map};
ghost use Rattle.sn_osc.specs.Shape.{argument_of, body_of};
ghost use Rattle.sn_world.specs.Addresses.{command_of};
ghost use Rattle.sn_layout.specs.Leaving.{asked_leaves, command_leaves, holds_laid, node_leaves, server_leaves};

use crate::controls::sets_plain;
use crate::flags::flags_stay;
use sn_nodecmd::RunForm;
use sn_osc::{Arg, Body, Message};
use sn_tree::Tree;
use sn_world::{Command, Held, NodeCommand, ServerCommand, Stage, command_of};

fn node_leaves(tree: &Tree<Held>, command: NodeCommand, arguments: &[Arg], looks: &mut u32) -> bool
    ensures { result ≡ true → node_leaves holds_laid tree.now.attached (map argument_of arguments.now) command ≡ true }
{
    match command {
        NodeCommand::SetControls => sets_plain(tree, RunForm::Value, arguments, looks),
        NodeCommand::SetRuns => sets_plain(tree, RunForm::Values, arguments, looks),
        NodeCommand::FillRuns => sets_plain(tree, RunForm::Fill, arguments, looks),
        NodeCommand::TurnNodes => flags_stay(tree, arguments),
        NodeCommand::Notify
        | NodeCommand::Query
        | NodeCommand::QueryTree
        | NodeCommand::GetControls => true,
        _ => false,
    }
}

/// Whether a command with `arguments` arguments leaves the layout, and carries no completion message.
fn server_leaves(command: ServerCommand, arguments: usize) -> bool
    ensures { result ≡ server_leaves arguments command }
{
    match command {
        ServerCommand::Set
        | ServerCommand::SetRuns
        | ServerCommand::Fill
        | ServerCommand::Get
        | ServerCommand::GetRuns
        | ServerCommand::QueryBuffers
        | ServerCommand::SetSamples
        | ServerCommand::SetSampleRuns
        | ServerCommand::FillSamples
        | ServerCommand::GetSamples
        | ServerCommand::GetSampleRuns
        | ServerCommand::Sync
        | ServerCommand::Free
        | ServerCommand::Status
        | ServerCommand::ClearSched
        | ServerCommand::Quit => true,
        ServerCommand::ZeroBuffer | ServerCommand::Receive => arguments < 2,
        _ => false,
    }
}

fn command_leaves(stage: &Stage, command: Command, arguments: &[Arg], looks: &mut u32) -> bool
    ensures { result ≡ true → command_leaves holds_laid stage.now.tree.attached command (map argument_of arguments.now) ≡ true }
{
    match command {
        Command::OnNodes(command) => node_leaves(&stage.tree, command, arguments, looks),
        Command::OnServer(command) => server_leaves(command, arguments.len()),
    }
}

/// Whether a message surely leaves the layout, and no completion message acts after it. It is judged by the address, and
/// by the nodes as they stand if it sets run flags or, as long as a look at a unit is left, controls.
pub fn leaves_layout(stage: &Stage, message: &Message, looks: &mut u32) -> bool
    ensures { result ≡ true → asked_leaves holds_laid stage.now.tree.attached (command_of message.now.address.bytes) (body_of message.now.body) ≡ true }
{
    let Some(command) = command_of(message.address.as_slice()) else {
        return true;
    };
    match &message.body {
        Body::Bare => command_leaves(stage, command, &[], looks),
        Body::Args(arguments) => command_leaves(stage, command, arguments.as_slice(), looks),
        Body::Foreign { .. } => true,
    }
}
