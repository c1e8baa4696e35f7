//! Run flags that stay as they are.
ghost use Rattle.std.specs.Prelude.{◌≡◌, true, map};
ghost use Rattle.sn_osc.specs.Shape.{argument_of};
ghost use Rattle.sn_tree.specs.Trees.{view_of};
ghost use Rattle.sn_world.specs.Rows.{pairs};
ghost use Rattle.sn_world.specs.RunFlags.{is_flagged, run_flag};
ghost use Rattle.sn_layout.specs.Leaving.{flags_stay};

use sn_osc::Arg;
use sn_tree::Tree;
use sn_world::{Held, Pair, RunFlag};

/// Whether a node is there and has the flag already.
fn is_flagged(tree: &Tree<Held>, flag: &RunFlag) -> bool
    ensures { result ≡ is_flagged flag.now.on (view_of flag.now.id tree.now.attached) }
{
    match tree.node(flag.id) {
        Some(view) => { if flag.on { view.running } else { !view.running } }
        None => false,
    }
}

/// Whether each node that `/n_run` names has the flag already.
pub fn flags_stay(tree: &Tree<Held>, arguments: &[Arg]) -> bool
    ensures { result ≡ true → flags_stay tree.now.attached (pairs run_flag (map argument_of arguments.now)) ≡ true }
{
    let mut rest = arguments;
    while let [id, flag, after @ ..] = rest {
        let Some(flag) = RunFlag::from_two(id, flag) else {
            return true;
        };
        if !is_flagged(tree, &flag) {
            return false;
        }
        rest = after;
    }
    true
}
