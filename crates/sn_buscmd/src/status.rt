//! `/status`.
ghost use Rattle.std.specs.Prelude.{◌≡◌, ◌+◌, pos, List, ℕ, map, IfOk};
ghost use Rattle.std.specs.FinMap as finite;
ghost use Rattle.sn_osc.specs.Shape.{argument_of, message_of};
ghost use Rattle.sn_reply.specs.Sending.{IsSendable};
ghost use Rattle.sn_world.specs.World.{turn_of, world_of};
ghost use Rattle.sn_world.specs.Status.{capped, status_row};
ghost use Rattle.sn_world.specs.Answers.{Follows, UnlessFollowed};
ghost use Rattle.sn_buscmd.specs.Census.{census_of, counts_message};

use sn_osc::{Arg, Message};
use sn_ports::NoMemory;
use sn_reply::{Answer, Reason, Replies, To};
use sn_tree::Tally;
use sn_world::{Held, Stage};
use std::alloc::Global;

/// The greatest count that a reply gives.
const MOST_SAID: u32 = 2147483647;

/// How many units, synths and groups there are, each up to the greatest count.
#[derive(Drop)]
struct Census {
    units: u32,
    synths: u32,
    groups: u32,
}

/// So many more.
fn more(count: u32, by: usize) -> u32
    ensures { result ≡ capped (count + by) }
{
    if count <= MOST_SAID && by <= (MOST_SAID - count) as usize {
        count + by as u32
    } else {
        MOST_SAID
    }
}

/// A count as a reply gives it.
fn said(count: usize) -> i32
    ensures { result ≡ pos (capped count) }
{
    if count <= MOST_SAID as usize {
        count as i32
    } else {
        i32::MAX
    }
}

impl Tally<Held> for Census {
    ghost use Rattle.sn_buscmd.specs.Census.{with_held};

    ghost with_one = { with_held };

    fn add(&mut self, held: &Held) {
        match held {
            Held::Group => self.groups = more(self.groups, 1),
            Held::Synth { def, .. } => {
                self.synths = more(self.synths, 1);
                self.units = more(self.units, def.units.as_slice().len());
            }
        }
    }
}

/// Counts all nodes, running or not.
fn count_nodes(stage: &Stage) -> Census
    ensures { (words : List ℕ) → result ≡ census_of (world_of stage.now words) }
{
    let mut census = Census {
        units: 0,
        synths: 0,
        groups: 0,
    };
    stage.tree.tally(&mut census);
    census
}

/// The message `/status.reply`.
fn status_message(alloc: Global, census: &Census, definitions: usize) -> Result<Message, NoMemory>
    ensures message { IfOk result (λ m. message_of m ≡ counts_message census.now definitions) }
    ensures sendable { IfOk result (λ m. IsSendable (message_of m)) }
{
    let mut answer = Answer::new(alloc);
    answer.push_int(1)?;
    answer.push_int(said(census.units as usize))?;
    answer.push_int(said(census.synths as usize))?;
    answer.push_int(said(census.groups as usize))?;
    answer.push_int(said(definitions))?;
    answer.into_message(b"/status.reply")
}

/// `/status`
pub fn run_status(
    alloc: Global,
    stage: &Stage,
    arguments: &[Arg],
    from: u32,
    replies: &mut Replies,
) -> Result<Option<Reason>, NoMemory>
    ensures row { (words : List ℕ) → Follows result (status_row from (map argument_of arguments.now) (turn_of stage.now words replies.old)) (turn_of stage.now words replies.new) }
    ensures unchanged { UnlessFollowed result (replies.new ≡ replies.old) }
{
    if !arguments.is_empty() {
        return Ok(Some(Reason::Arguments));
    }
    let census = count_nodes(stage);
    let message = status_message(alloc, &census, stage.defs.len())?;
    replies.push(To::Client(from), message)?;
    Ok(None)
}
