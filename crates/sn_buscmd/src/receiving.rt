//! `/d_recv`.
ghost use Rattle.std.specs.Prelude.{◌≡◌, ◌++◌, ◌∷◌, [], List, ℕ, map, codes, IfOk, OnOk, OnErr};
ghost use Rattle.std.specs.Option.{option_map};
ghost use Rattle.std.specs.Borrow.{Bor};
ghost use Rattle.std.specs.FinMap as finite;
ghost use Rattle.sn_osc.specs.Shape.{argument_of, message_of};
ghost use Rattle.sn_def.specs.Defs.{definition_of};
ghost use Rattle.sn_reply.specs.declared.replies.To.TheVariants.{Client};
ghost use Rattle.sn_reply.specs.Sending.{IsSendable};
ghost use Rattle.sn_world.specs.Definitions.{definitions_of};
ghost use Rattle.sn_world.specs.World.{turn_of};
ghost use Rattle.sn_world.specs.Recv.{received_text, done, recv_row};
ghost use Rattle.sn_world.specs.Answers.{Follows, UnlessFollowed};
ghost use Rattle.sn_buscmd.specs.Refusing.{IfRefused};

use sn_def::{Def, Unread, read};
use sn_osc::{Address, Arg, Args, Body, Message};
use sn_ports::{NoMemory, Text};
use sn_reply::{Reason, Replies, To};
use sn_world::{Defs, Stage};
use std::alloc::Global;
use std::sync::Arc;

fn received_text(arguments: &[Arg]) -> Option<&[u8]>
    ensures { option_map (λ (text : Bor (List ℕ)). text.now) result ≡ received_text (map argument_of arguments.now) }
{
    match arguments {
        [Arg::Blob(text)] => Some(text.as_slice()),
        _ => None,
    }
}

/// The message `/done /d_recv`.
fn done(alloc: Global) -> Result<Message, NoMemory>
    ensures message { IfOk result (λ m. message_of m ≡ done (codes "/d_recv")) }
    ensures sendable { IfOk result (λ m. IsSendable (message_of m)) }
{
    let mut arguments = Vec::new(alloc);
    arguments.push(Arg::Text(Text::from_slice(alloc, b"/d_recv")?))?;
    Ok(Message {
        address: Address::from_slice(alloc, b"/done")?,
        body: Body::Args(Args::from_vec(arguments)),
    })
}

/// Adds a definition, in the place of one of its name, and answers its sender. An `Err` changes nothing.
fn receive(
    alloc: Global,
    defs: &mut Defs,
    def: Def,
    from: u32,
    replies: &mut Replies,
) -> Result<(), NoMemory>
    ensures put { OnOk result (definitions_of defs.new ≡ finite.insert (definitions_of defs.old) def.name.bytes (definition_of def)) }
    ensures said { OnOk result (replies.new ≡ replies.old ++ (record { to = Client from; message = done (codes "/d_recv") }) ∷ []) }
    ensures kept { OnErr result (definitions_of defs.new ≡ definitions_of defs.old) }
    ensures unsaid { OnErr result (replies.new ≡ replies.old) }
{
    let def = Arc::new(alloc, def)?;
    let message = done(alloc)?;
    let before = replies.len();
    replies.push(To::Client(from), message)?;
    match defs.insert(def) {
        Ok(()) => Ok(()),
        Err(error) => {
            replies.truncate(before);
            Err(error)
        }
    }
}

/// `/d_recv` text
pub fn run_receive(
    alloc: Global,
    stage: &mut Stage,
    arguments: &[Arg],
    from: u32,
    replies: &mut Replies,
) -> Result<Option<Reason>, NoMemory>
    ensures row { (words : List ℕ) → Follows result (recv_row from (map argument_of arguments.now) (turn_of stage.old words replies.old)) (turn_of stage.new words replies.new) }
    ensures unchanged { (words : List ℕ) → UnlessFollowed result (turn_of stage.new words replies.new ≡ turn_of stage.old words replies.old) }
    ensures stage { IfRefused result (stage.new ≡ stage.old) }
    ensures untold { UnlessFollowed result (replies.new ≡ replies.old) }
    ensures others { stage.new ≡ record stage.old { defs = stage.new.defs } }
{
    let Some(text) = received_text(arguments) else {
        return Ok(Some(Reason::Arguments));
    };
    let def = match read(alloc, text) {
        Ok(def) => def,
        Err(Unread::Bad(fault)) => return Ok(Some(Reason::DefinitionLine(fault.line))),
        Err(Unread::NoMemory) => return Err(NoMemory),
    };
    receive(alloc, &mut stage.defs, def, from, replies)?;
    Ok(None)
}
