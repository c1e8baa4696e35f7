//! The plans of stages.
ghost use Rattle.std.specs.Prelude.{◌≡◌, ◌≤◌, ◌+◌, ◌&&◌, true, None, nat_lt};
ghost use Rattle.std.specs.List.{All, list_all};
ghost use Rattle.sn_mem.specs.Layout.{most_lanes};
ghost use Rattle.sn_world.specs.Pictures.{held_extents, live_held};
ghost use Rattle.sn_foot.specs.Canonical.{Ends};

use sn_clash::clashes;
use sn_def::{Control, Controls, read};
use sn_graph::{Lanes, plan};
use sn_mem::{Extent, Moved};
use sn_ports::NoMemory;
use sn_round::Plan;
use sn_tree::{AddAction, NodeKind, Spot, Tally, Tree};
use sn_world::{Held, Stage};
use std::alloc::{AllocError, Global};
use std::sync::Arc;
use std::test::Fail;

/// Audio bus 100 is heard, and the bus of a control is written.
const TONE: &[u8] = b"snova 1\ndef tone\ncontrol out 0\na = In.ar 100\nOut.ar out a\nend\n";

fn ends(held: &Held) -> bool
    ensures { result ≡ list_all (λ e. nat_lt (e.at + e.len) 4294967296) (held_extents held.now) }
{
    match held {
        Held::Group => true,
        Held::Synth { state, .. } => (state.at as u64 + state.len as u64) < 4_294_967_296,
    }
}

/// Whether the states so far have their places among the words.
#[derive(Drop)]
struct Ending {
    all: bool,
}

impl Tally<Held> for Ending {
    ghost with_one = { λ t held. record { all = t.all && list_all (λ e. nat_lt (e.at + e.len) 4294967296) (held_extents held) } };

    fn add(&mut self, held: &Held) {
        let here = ends(held);
        self.all = self.all && here;
    }
}

/// Whether the states of all nodes have their places among the words.
pub fn all_end(tree: &Tree<Held>) -> bool
    ensures { result ≡ true → All Ends (live_held tree.now.attached) }
{
    let mut ending = Ending { all: true };
    tree.tally(&mut ending);
    ending.all
}

/// The first word of the lanes.
const FIRST_LANE: u32 = 40_000;

/// The stage of the nodes and its plan with so many lanes, or nothing if a state ends behind the words. There are no
/// buffers.
pub fn staged(alloc: Global, tree: Tree<Held>, most: u32) -> Result<Option<(Stage, Plan)>, NoMemory>
    requires most { most ≤ most_lanes }
{
    if !all_end(&tree) {
        return Ok(None);
    }
    let mut stage = Stage::new(alloc, 48_000, 0, 0)?;
    stage.tree = tree;
    let found = clashes(alloc, &stage)?;
    let lanes = Lanes {
        first: FIRST_LANE,
        most,
    };
    let plan = plan(alloc, &stage, found.as_slice(), lanes)?;
    Ok(Some((stage, plan)))
}

/// The plan of the nodes, as [`staged`] gives it.
pub fn planned(alloc: Global, tree: Tree<Held>, most: u32) -> Result<Option<Plan>, NoMemory>
    requires most { most ≤ most_lanes }
{
    match staged(alloc, tree, most)? {
        Some((_stage, plan)) => Ok(Some(plan)),
        None => Ok(None),
    }
}

/// A synth that mixes an audio bus, with two words of state from word `at` on.
fn tone(alloc: Global, bus: i32, at: u32) -> Result<Option<Held>, AllocError> {
    let Ok(def) = read(alloc, TONE) else {
        return Ok(None);
    };
    let mut controls = Vec::new(alloc);
    controls.push(Control {
        value: bus,
        bus: None,
    })?;
    Ok(Some(Held::Synth {
        def: Arc::new(alloc, def)?,
        controls: Controls::from_vec(controls),
        state: Extent { at, len: 2 },
    }))
}

/// Puts a node at the tail of a group.
pub fn put(tree: &mut Tree<Held>, id: i32, kind: NodeKind, target: i32, held: Held) -> bool
    requires closed { tree.old.journal ≡ None }
    ensures closed { tree.new.journal ≡ None }
{
    let spot = Spot {
        action: AddAction::Tail,
        target,
    };
    tree.insert(id, kind, spot, held).is_ok()
}

/// What a node is. A tone has the bus that it mixes.
#[derive(Clone, Copy)]
pub enum Sort {
    Group,
    Parallel,
    Tone(u8),
}

/// A node with its id, in a group.
#[derive(Clone, Copy)]
pub struct Node(u8, Sort, u8);

/// Puts a node at the tail of its group. A tone has two words of state behind those of the tones with lower ids.
fn put_node(alloc: Global, tree: &mut Tree<Held>, node: Node) -> Result<bool, AllocError>
    requires closed { tree.old.journal ≡ None }
    ensures closed { tree.new.journal ≡ None }
{
    let Node(id, sort, group) = node;
    let id = i32::from(id);
    let group = i32::from(group);
    match sort {
        Sort::Group => Ok(put(tree, id, NodeKind::Group, group, Held::Group)),
        Sort::Parallel => Ok(put(tree, id, NodeKind::Parallel, group, Held::Group)),
        Sort::Tone(bus) => match tone(alloc, i32::from(bus), 20_000 + 2 * id as u32)? {
            Some(held) => Ok(put(tree, id, NodeKind::Synth, group, held)),
            None => Ok(false),
        },
    }
}

fn pause(tree: &mut Tree<Held>, id: u8) -> bool
    requires closed { tree.old.journal ≡ None }
    ensures closed { tree.new.journal ≡ None }
{
    tree.set_run(i32::from(id), false).is_ok()
}

/// Nodes, each put at the tail of its group, and the paused ones among them.
#[derive(Drop)]
pub struct Shape<'a> {
    nodes: &'a [Node],
    paused: &'a [u8],
}

pub fn tree_of(alloc: Global, shape: &Shape<'_>) -> Result<Option<Tree<Held>>, NoMemory> {
    let mut tree = Tree::new(alloc, Held::Group)?;
    let mut all = true;
    for node in shape.nodes {
        all = put_node(alloc, &mut tree, *node)? && all;
    }
    for id in shape.paused {
        all = pause(&mut tree, *id) && all;
    }
    if all { Ok(Some(tree)) } else { Ok(None) }
}

fn plan_of(alloc: Global, shape: &Shape<'_>, most: u32) -> Result<Option<Plan>, NoMemory>
    requires most { most ≤ most_lanes }
{
    match tree_of(alloc, shape)? {
        Some(tree) => planned(alloc, tree, most),
        None => Ok(None),
    }
}

/// Whether these are moves of buses onto lanes, each given by its bus and its lane.
fn move_them(moves: &[Moved], wanted: &[(u8, u8)]) -> bool {
    let mut same = moves.len() == wanted.len();
    for (moved, (bus, lane)) in moves.iter().zip(wanted) {
        same = same
            && lie(&[moved.bus], &[(65 * u32::from(*bus), 65)])
            && lie(&[moved.lane], &[(FIRST_LANE + 65 * u32::from(*lane), 65)]);
    }
    same
}

/// Whether these are the jobs: the synths of each, and its predecessors.
fn are(plan: &Plan, wanted: &[(&[i32], &[u32])]) -> bool {
    let mut same = plan.jobs() as usize == wanted.len();
    for job in 0..plan.jobs() {
        same = match wanted.get(job as usize) {
            Some((synths, before)) => {
                same && plan.synths(job).as_slice() == *synths
                    && plan.predecessors(job).as_slice() == *before
            }
            None => false,
        };
    }
    same
}

#[derive(Drop)]
pub struct Case<'a> {
    pub shape: Shape<'a>,
    jobs: &'a [(&'a [i32], &'a [u32])],
}

/// A member of a parallel group is paused.
const PAUSED: Shape<'_> = Shape {
    nodes: &[
        Node(50, Sort::Parallel, 0),
        Node(1, Sort::Tone(1), 50),
        Node(2, Sort::Tone(2), 50),
        Node(3, Sort::Tone(3), 0),
        Node(4, Sort::Tone(4), 0),
    ],
    paused: &[1],
};

/// Three members of a parallel group, and what follows it.
pub const THREE: Case<'_> = Case {
    shape: Shape {
        nodes: &[
            Node(50, Sort::Parallel, 0),
            Node(1, Sort::Tone(16), 50),
            Node(2, Sort::Tone(17), 50),
            Node(3, Sort::Tone(18), 50),
            Node(9, Sort::Tone(19), 0),
        ],
        paused: &[],
    },
    jobs: &[
        (&[1], &[]),
        (&[2], &[]),
        (&[3], &[]),
        (&[], &[0, 1, 2]),
        (&[9], &[3]),
    ],
};

/// The three members mix one bus.
const ONE_BUS: Case<'_> = Case {
    shape: Shape {
        nodes: &[
            Node(50, Sort::Parallel, 0),
            Node(1, Sort::Tone(16), 50),
            Node(2, Sort::Tone(16), 50),
            Node(3, Sort::Tone(16), 50),
            Node(9, Sort::Tone(19), 0),
        ],
        paused: &[],
    },
    jobs: &[
        (&[1], &[]),
        (&[2], &[]),
        (&[3], &[]),
        (&[], &[0, 1, 2]),
        (&[9], &[3]),
    ],
};

/// Eight members beside each other, then a synth and a group without one, then a synth.
const EIGHT: Case<'_> = Case {
    shape: Shape {
        nodes: &[
            Node(50, Sort::Parallel, 0),
            Node(1, Sort::Tone(1), 50),
            Node(2, Sort::Tone(2), 50),
            Node(3, Sort::Tone(3), 50),
            Node(4, Sort::Tone(4), 50),
            Node(5, Sort::Tone(5), 50),
            Node(6, Sort::Tone(6), 50),
            Node(7, Sort::Tone(7), 50),
            Node(8, Sort::Tone(8), 50),
            Node(51, Sort::Group, 0),
            Node(9, Sort::Tone(9), 51),
            Node(52, Sort::Group, 51),
            Node(53, Sort::Group, 52),
            Node(10, Sort::Tone(10), 0),
        ],
        paused: &[],
    },
    jobs: &[
        (&[1], &[]),
        (&[2], &[]),
        (&[3], &[]),
        (&[4], &[]),
        (&[5], &[]),
        (&[6], &[]),
        (&[7], &[]),
        (&[8], &[]),
        (&[], &[0, 1, 2, 3, 4, 5, 6, 7]),
        (&[9], &[8]),
        (&[10], &[9]),
    ],
};

/// An empty group between parallel groups.
const EMPTY: Case<'_> = Case {
    shape: Shape {
        nodes: &[
            Node(50, Sort::Parallel, 0),
            Node(1, Sort::Tone(1), 50),
            Node(2, Sort::Tone(2), 50),
            Node(51, Sort::Group, 0),
            Node(52, Sort::Parallel, 0),
            Node(3, Sort::Tone(3), 52),
            Node(4, Sort::Tone(4), 52),
            Node(5, Sort::Tone(5), 52),
        ],
        paused: &[],
    },
    jobs: &[
        (&[1], &[]),
        (&[2], &[]),
        (&[], &[0, 1]),
        (&[3], &[2]),
        (&[4], &[2]),
        (&[5], &[2]),
        (&[], &[3, 4, 5]),
    ],
};

/// A parallel group inside a parallel group.
const INNER: Case<'_> = Case {
    shape: Shape {
        nodes: &[
            Node(50, Sort::Parallel, 0),
            Node(51, Sort::Parallel, 50),
            Node(1, Sort::Tone(1), 51),
            Node(2, Sort::Tone(2), 51),
            Node(3, Sort::Tone(3), 50),
        ],
        paused: &[],
    },
    jobs: &[
        (&[1], &[]),
        (&[2], &[]),
        (&[], &[0, 1]),
        (&[3], &[]),
        (&[], &[2, 3]),
    ],
};

/// Members of the inner one mix one bus.
const INNER_BUS: Case<'_> = Case {
    shape: Shape {
        nodes: &[
            Node(50, Sort::Parallel, 0),
            Node(51, Sort::Parallel, 50),
            Node(1, Sort::Tone(1), 51),
            Node(2, Sort::Tone(1), 51),
            Node(3, Sort::Tone(3), 50),
        ],
        paused: &[],
    },
    jobs: &[
        (&[1], &[]),
        (&[2], &[]),
        (&[], &[0, 1]),
        (&[3], &[]),
        (&[], &[2, 3]),
    ],
};

/// The inner one and the member after it mix one bus.
const OUTER_BUS: Case<'_> = Case {
    shape: Shape {
        nodes: &[
            Node(50, Sort::Parallel, 0),
            Node(51, Sort::Parallel, 50),
            Node(1, Sort::Tone(1), 51),
            Node(2, Sort::Tone(2), 51),
            Node(3, Sort::Tone(2), 50),
        ],
        paused: &[],
    },
    jobs: &[
        (&[1], &[]),
        (&[2], &[]),
        (&[], &[0, 1]),
        (&[3], &[]),
        (&[], &[2, 3]),
    ],
};

/// A member that mixes the bus of another is paused, and so is a group of which two members mix one bus.
const PAUSED_BUS: Case<'_> = Case {
    shape: Shape {
        nodes: &[
            Node(50, Sort::Parallel, 0),
            Node(1, Sort::Tone(1), 50),
            Node(2, Sort::Tone(1), 50),
            Node(3, Sort::Tone(3), 50),
            Node(51, Sort::Parallel, 0),
            Node(4, Sort::Tone(4), 51),
            Node(5, Sort::Tone(4), 51),
            Node(6, Sort::Tone(6), 0),
        ],
        paused: &[1, 51],
    },
    jobs: &[(&[2], &[]), (&[3], &[]), (&[], &[0, 1]), (&[6], &[2])],
};

#[test]
fn jobs_stand_before_those_that_follow_them(rt: HostRuntime) -> Result<(), Fail> {
    let paused = Case {
        shape: PAUSED,
        jobs: &[(&[2], &[]), (&[3, 4], &[0])],
    };
    let cases = [
        THREE, ONE_BUS, EIGHT, EMPTY, INNER, INNER_BUS, OUTER_BUS, PAUSED_BUS, paused,
    ];
    for case in &cases {
        assert!(rt; is_planned(rt.alloc(), &case.shape, 64, case.jobs)?);
    }
    Ok(())
}

/// Whether these are the jobs of the nodes with so many lanes.
fn is_planned(
    alloc: Global,
    shape: &Shape<'_>,
    most: u32,
    jobs: &[(&[i32], &[u32])],
) -> Result<bool, NoMemory>
    requires most { most ≤ most_lanes }
{
    match plan_of(alloc, shape, most)? {
        Some(plan) => Ok(are(&plan, jobs)),
        None => Ok(false),
    }
}

/// One lane fewer than the members of a group mix together: they are rendered in order.
#[test]
fn a_group_is_split_if_there_are_lanes_enough(rt: HostRuntime) -> Result<(), Fail> {
    assert!(rt;
        is_planned(
            rt.alloc(),
            &ONE_BUS.shape,
            2,
            &[(&[1, 2, 3], &[]), (&[9], &[0])]
        )?
    );
    assert!(rt;
        is_planned(
            rt.alloc(),
            &INNER_BUS.shape,
            1,
            &[(&[1, 2], &[]), (&[3], &[]), (&[], &[0, 1])]
        )?
    );
    assert!(rt;
        is_planned(
            rt.alloc(),
            &OUTER_BUS.shape,
            1,
            &[(&[1], &[]), (&[2], &[]), (&[], &[0, 1]), (&[3], &[2])]
        )?
    );
    Ok(())
}

/// Two groups in a parallel group mix bus 1, in one of them two synths beside each other.
const BUSES: Shape<'_> = Shape {
    nodes: &[
        Node(50, Sort::Parallel, 0),
        Node(51, Sort::Parallel, 50),
        Node(1, Sort::Tone(1), 51),
        Node(2, Sort::Tone(1), 51),
        Node(3, Sort::Tone(2), 51),
        Node(4, Sort::Tone(2), 51),
        Node(52, Sort::Group, 50),
        Node(5, Sort::Tone(1), 52),
        Node(6, Sort::Tone(3), 52),
    ],
    paused: &[],
};

/// A bus that the outer group shares has its lanes there, and the other one in the inner group.
#[test]
fn a_lane_is_added_in_the_outermost_group_that_shares_its_bus(rt: HostRuntime) -> Result<(), Fail> {
    let plan = plan_of(rt.alloc(), &BUSES, 64)?;
    let Some(plan) = plan else {
        assert!(rt; false);
        return Ok(());
    };
    assert!(rt;
        are(
            &plan,
            &[
                (&[1], &[]),
                (&[2], &[]),
                (&[3], &[]),
                (&[4], &[]),
                (&[], &[0, 1, 2, 3]),
                (&[5, 6], &[]),
                (&[], &[4, 5]),
            ]
        )
    );
    assert_eq!(rt; plan.jobs(), 7);
    assert!(rt; move_them(plan.moves(0, 0), &[(1, 0)]));
    assert!(rt; move_them(plan.moves(1, 0), &[(1, 1)]));
    assert!(rt; move_them(plan.moves(2, 0), &[(2, 3)]));
    assert!(rt; move_them(plan.moves(3, 0), &[(2, 4)]));
    assert!(rt; move_them(plan.lanes(4).as_slice(), &[(2, 3), (2, 4)]));
    assert!(rt; move_them(plan.moves(5, 0), &[(1, 2)]));
    assert!(rt; move_them(plan.moves(5, 1), &[]));
    assert!(rt; move_them(plan.lanes(6).as_slice(), &[(1, 0), (1, 1), (1, 2)]));
    Ok(())
}

/// Whether these are the extents, by their first words and their numbers of words.
pub fn lie(extents: &[Extent], wanted: &[(u32, u32)]) -> bool {
    let mut same = extents.len() == wanted.len();
    for (extent, (at, len)) in extents.iter().zip(wanted) {
        same = same && extent.at == *at && extent.len == *len;
    }
    same
}

#[test]
fn a_job_touches_what_its_synths_touch(rt: HostRuntime) -> Result<(), Fail> {
    // Audio bus n has the words from 65 n on.
    let plan = plan_of(rt.alloc(), &PAUSED, 0)?;
    let Some(plan) = plan else {
        assert!(rt; false);
        return Ok(());
    };
    assert_eq!(rt; plan.jobs(), 2);
    assert!(rt; lie(plan.foot(1).reads.as_slice(), &[(6500, 65)]));
    assert!(rt; lie(plan.foot(1).writes.as_slice(), &[(195, 130), (20006, 4)]));
    Ok(())
}

/// A member touches its lane in place of its bus, and the joint all lanes and the bus.
#[test]
fn a_lane_is_touched_in_place_of_its_bus(rt: HostRuntime) -> Result<(), Fail> {
    let plan = plan_of(rt.alloc(), &ONE_BUS.shape, 3)?;
    let Some(plan) = plan else {
        assert!(rt; false);
        return Ok(());
    };
    assert_eq!(rt; plan.jobs(), 5);
    assert!(rt; lie(plan.foot(1).reads.as_slice(), &[(6500, 65)]));
    assert!(rt;
        lie(
            plan.foot(1).writes.as_slice(),
            &[(20004, 2), (FIRST_LANE + 65, 65)]
        )
    );
    assert!(rt; lie(plan.foot(3).reads.as_slice(), &[(FIRST_LANE, 195)]));
    assert!(rt; lie(plan.foot(3).writes.as_slice(), &[(1040, 65)]));
    Ok(())
}
