//! The clashes of all nodes.
ghost use Rattle.std.specs.Prelude.{◌≡◌, ◌<◌, pos, map, ℕ, List, IfOk};
ghost use Rattle.std.specs.List.{All, list_any};
ghost use Rattle.sn_ports.specs.Limits.{control_bus_count};
ghost use Rattle.sn_tree.specs.Members.{members};
ghost use Rattle.sn_tree.specs.Trees.{running_labels, subtree};
ghost use Rattle.sn_world.specs.World.{world_of};
ghost use Rattle.sn_foot.specs.Footprints.{number_of};
ghost use Rattle.sn_clash.specs.Clashing.{clashes_in, clashes_of, is_parallel};
ghost use Rattle.sn_clash.specs.Rows.{row_of};

use crate::clash::Clashes;
use crate::passing::{is_parallel, pass};
use sn_ports::NoMemory;
use sn_tree::{Member, Tree};
use sn_world::{Held, Stage};
use std::alloc::Global;

/// Whether the walk reaches a parallel group.
fn has_parallel(tree: &Tree<Held>) -> bool
    ensures { result ≡ list_any (λ l. is_parallel l.kind) (running_labels tree.now.attached) }
{
    for node in tree.walk() {
        if is_parallel(node.kind) {
            return true;
        }
    }
    false
}

/// All nodes of a tree, in the order of the walk.
pub fn all_nodes<'a>(alloc: Global, tree: &'a Tree<Held>) -> Result<Vec<Member<'a, Held>>, NoMemory>
    ensures { IfOk result (λ nodes. map row_of nodes.items ≡ members (subtree (pos 0) tree.now.attached)) }
{
    let mut nodes = Vec::new(alloc);
    for member in tree.members(0) {
        nodes.push(member)?;
    }
    Ok(nodes)
}

/// The clashes of all groups that the walk reaches.
#[tactic(auto, using(crate::proofs::Stacking::no_clashes))]
fn all_clashes(alloc: Global, stage: &Stage) -> Result<Clashes, NoMemory>
    ensures { IfOk result (λ found. found ≡ clashes_in stage.now) }
{
    if !has_parallel(&stage.tree) {
        return Ok(Clashes::new(alloc));
    }
    stage.tree.root_holds_all();
    let nodes = all_nodes(alloc, &stage.tree)?;
    let mut items = pass(alloc, &stage.buffers, &nodes)?;
    items.reverse();
    Ok(Clashes { items })
}

/// The clashes of the members of parallel groups: for each such group that the walk reaches, in the order of the walk,
/// the first two of its members that clash, and the first resource on which they do. They are those of each world that
/// the stage stands for.
pub fn clashes(alloc: Global, stage: &Stage) -> Result<Clashes, NoMemory>
    ensures found { IfOk result (λ found. found ≡ clashes_in stage.now) }
    ensures world { IfOk result (λ found. (words : List ℕ) → found ≡ clashes_of (world_of stage.now words)) }
    ensures small { IfOk result (All (λ c. number_of c.resource < control_bus_count)) }
{
    all_clashes(alloc, stage)
}
