//! `/d_free`.
ghost use Rattle.std.specs.Prelude.{◌≡◌, ℕ, List, map, IfOk};
ghost use Rattle.std.specs.Option.{option_map};
ghost use Rattle.sn_ports.specs.Octets.{bytes_of};
ghost use Rattle.sn_osc.specs.Shape.{argument_of};
ghost use Rattle.sn_reply.specs.Replies.{ReplyShape};
ghost use Rattle.sn_world.specs.Definitions.{definitions_of};
ghost use Rattle.sn_world.specs.World.{turn_of};
ghost use Rattle.sn_world.specs.Rows.{singles};
ghost use Rattle.sn_world.specs.Forgetting.{name_of, are_known, without_names, forget_row};
ghost use Rattle.sn_world.specs.Answers.{Follows, UnlessFollowed};

use sn_osc::Arg;
use sn_ports::{NoMemory, Text};
use sn_reply::Reason;
use sn_world::{Defs, Names, Stage};
use std::alloc::Global;

fn name_of(argument: &Arg) -> Option<&Text>
    ensures { option_map (λ name. name.now.bytes) result ≡ name_of (argument_of argument.now) }
{
    match argument {
        Arg::Text(name) => Some(name),
        _ => None,
    }
}

/// The names that a message repeats.
fn names(alloc: Global, arguments: &[Arg]) -> Result<Option<Vec<Text>>, NoMemory>
    ensures { IfOk result (λ found. option_map (λ v. map bytes_of v.items) found ≡ singles name_of (map argument_of arguments.now)) }
{
    let mut found = Vec::new(alloc);
    for argument in arguments {
        let Some(name) = name_of(argument) else {
            return Ok(None);
        };
        found.push(Text::from_slice(alloc, name.as_slice())?)?;
    }
    Ok(Some(found))
}

/// Whether each name has a definition, and none comes twice.
fn are_known(alloc: Global, defs: &Defs, names: &[Text]) -> Result<bool, NoMemory>
    ensures { IfOk result (λ known. known ≡ are_known (map bytes_of names.now) (definitions_of defs.now)) }
{
    let mut forgotten = Names::new(alloc);
    for name in names {
        let text = name.as_slice();
        if defs.named(text).is_none() {
            return Ok(false);
        }
        if !forgotten.insert(text)? {
            return Ok(false);
        }
    }
    Ok(true)
}

/// Forgets the definitions of names.
fn forget(defs: &mut Defs, names: &[Text])
    ensures { definitions_of defs.new ≡ without_names (map bytes_of names.now) (definitions_of defs.old) }
{
    for name in names {
        defs.remove(name.as_slice());
    }
}

/// `/d_free` name..
pub fn run_free(
    alloc: Global,
    stage: &mut Stage,
    arguments: &[Arg],
) -> Result<Option<Reason>, NoMemory>
    ensures row { (from : ℕ) (words : List ℕ) (replies : List ReplyShape) → Follows result (forget_row from (map argument_of arguments.now) (turn_of stage.old words replies)) (turn_of stage.new words replies) }
    ensures unchanged { UnlessFollowed result (stage.new ≡ stage.old) }
    ensures others { stage.new ≡ record stage.old { defs = stage.new.defs } }
{
    if arguments.is_empty() {
        return Ok(Some(Reason::Arguments));
    }
    let Some(all) = names(alloc, arguments)? else {
        return Ok(Some(Reason::Arguments));
    };
    if !are_known(alloc, &stage.defs, &all)? {
        return Ok(Some(Reason::NoSuchDefinition));
    }
    forget(&mut stage.defs, &all);
    Ok(None)
}
