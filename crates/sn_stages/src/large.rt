//! Plans of the largest trees. Each takes well below a second.
ghost use Rattle.std.specs.Prelude.{◌≡◌, ◌≤◌, None};
ghost use Rattle.sn_ports.specs.Limits.{most_nodes};

use crate::plans::{planned, put};
use sn_def::{Controls, Def, read};
use sn_mem::{Extent, MOST_LANES};
use sn_ports::NoMemory;
use sn_tree::{NodeKind, Tree};
use sn_world::Held;
use std::alloc::Global;
use std::sync::Arc;
use std::test::Fail;

/// Eight buses are read.
const READER: &[u8] = b"snova 1\ndef reader\na b c d e f g h = In.ar 100\nend\n";

/// A bus is read, and eight are written.
const WRITER: &[u8] = b"snova 1\ndef writer\na = In.ar 100\nOut.ar 0 a a a a a a a a\nend\n";

/// A definition, or nothing if the text is none.
fn def_of(alloc: Global, text: &[u8]) -> Result<Option<Arc<Def>>, NoMemory> {
    match read(alloc, text) {
        Ok(def) => Ok(Some(Arc::new(alloc, def)?)),
        Err(_) => Ok(None),
    }
}

/// Puts a synth without controls in a group. It has one word of state.
fn put_synth(
    alloc: Global,
    tree: &mut Tree<Held>,
    def: &Arc<Def>,
    number: u32,
    group: i32,
) -> Result<bool, NoMemory>
    requires closed { tree.old.journal ≡ None }
    requires few { number ≤ most_nodes }
    ensures closed { tree.new.journal ≡ None }
{
    let held = Held::Synth {
        def: Arc::try_clone(def)?,
        controls: Controls::from_vec(Vec::new(alloc)),
        state: Extent {
            at: 20_000 + number,
            len: 1,
        },
    };
    Ok(put(tree, 10_000 + number as i32, NodeKind::Synth, group, held))
}

/// `count` synths of a definition in a parallel group.
fn members(alloc: Global, text: &[u8], count: u32) -> Result<Option<Tree<Held>>, NoMemory>
    requires few { count ≤ most_nodes }
{
    let Some(def) = def_of(alloc, text)? else {
        return Ok(None);
    };
    let mut tree = Tree::new(alloc, Held::Group)?;
    let mut all = put(&mut tree, 1, NodeKind::Parallel, 0, Held::Group);
    for number in 0..count {
        all = put_synth(alloc, &mut tree, &def, number, 1)? && all;
    }
    if all { Ok(Some(tree)) } else { Ok(None) }
}

/// Parallel groups, each in the one before, and a synth of a definition in each of the last ones.
fn nested(
    alloc: Global,
    text: &[u8],
    groups: u32,
    synths: u32,
) -> Result<Option<Tree<Held>>, NoMemory>
    requires few { groups ≤ most_nodes }
    requires no_more { synths ≤ groups }
{
    let Some(def) = def_of(alloc, text)? else {
        return Ok(None);
    };
    let mut tree = Tree::new(alloc, Held::Group)?;
    let mut all = true;
    for number in 0..groups {
        let above = number as i32;
        all = put(&mut tree, above + 1, NodeKind::Parallel, above, Held::Group) && all;
        if number >= groups - synths {
            all = put_synth(alloc, &mut tree, &def, number, above + 1)? && all;
        }
    }
    if all { Ok(Some(tree)) } else { Ok(None) }
}

fn jobs_of(alloc: Global, tree: Option<Tree<Held>>) -> Result<Option<u32>, NoMemory> {
    let Some(tree) = tree else {
        return Ok(None);
    };
    match planned(alloc, tree, MOST_LANES)? {
        Some(plan) => Ok(Some(plan.jobs())),
        None => Ok(None),
    }
}

/// Each reader is a job, and one more joins them. The writers mix eight buses, so 512 of them have lanes. With one more
/// they are one job.
#[test]
fn a_group_may_have_as_many_members_as_there_are_nodes(rt: HostRuntime) -> Result<(), Fail> {
    let readers = members(rt.alloc(), READER, 4094)?;
    assert_eq!(rt; jobs_of(rt.alloc(), readers)?, Some(4095));
    let writers = members(rt.alloc(), WRITER, 512)?;
    assert_eq!(rt; jobs_of(rt.alloc(), writers)?, Some(513));
    let more = members(rt.alloc(), WRITER, 513)?;
    assert_eq!(rt; jobs_of(rt.alloc(), more)?, Some(1));
    Ok(())
}

/// Each group has a synth and the next group. The readers are jobs, and except for the last group one more joins them.
/// The writers mix eight buses. So the last 512 have lanes, and the others are jobs one after the other.
#[test]
fn groups_may_be_nested_as_deep_as_there_are_nodes(rt: HostRuntime) -> Result<(), Fail> {
    let empty = nested(rt.alloc(), READER, 4095, 0)?;
    assert_eq!(rt; jobs_of(rt.alloc(), empty)?, Some(0));
    let one = nested(rt.alloc(), READER, 4094, 1)?;
    assert_eq!(rt; jobs_of(rt.alloc(), one)?, Some(1));
    let readers = nested(rt.alloc(), READER, 2047, 2047)?;
    assert_eq!(rt; jobs_of(rt.alloc(), readers)?, Some(4093));
    let writers = nested(rt.alloc(), WRITER, 2047, 2047)?;
    assert_eq!(rt; jobs_of(rt.alloc(), writers)?, Some(2558));
    Ok(())
}
