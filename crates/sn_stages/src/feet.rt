//! The feet of nodes.
ghost use Rattle.std.specs.Prelude.{◌≡◌, ◌<◌, ◌+◌, IfOk, IsTrue, length, nat_lt};
ghost use Rattle.std.specs.List.{All};
ghost use Rattle.sn_ports.specs.Limits.{buffer_count};
ghost use Rattle.sn_mem.specs.Buffers.{live_places, place_extents};
ghost use Rattle.sn_foot.specs.Canonical.{Ends};

use crate::plans::{all_end, lie, put};
use sn_def::{Control, Controls, read};
use sn_foot::{Reach, Unfooted, canonical, foot_of};
use sn_mem::{BufferPlace, Buffers, Extent, Extents};
use sn_ports::NoMemory;
use sn_tree::{NodeKind, Tree};
use sn_world::{Held, Stage};
use std::alloc::{AllocError, Global};
use std::sync::Arc;
use std::test::Fail;

/// Two channels are heard, and four are written from an index control on.
const WIDE: &[u8] =
    b"snova 1\ndef wide\ncontrol out 0\ncontrol amp 1.0\nl r = In.ar 3\nOut.ar out l r amp amp\nend\n";

/// A control bus is read, a bus of the block before is heard, and a control bus is written.
const LINK: &[u8] =
    b"snova 1\ndef link\ncontrol in 0\ncontrol free 0\na = In.kr in\nb = InFeedback 9\nOut.kr 7 a\nReplaceOut 0 b\nend\n";

/// A buffer is played whose number is a control, and two are recorded into, of which one is freed.
const REEL: &[u8] =
    b"snova 1\ndef reel\ncontrol play 0\ncontrol free 0\np = PlayBuf play 1.0 0 0 0 0\nRecordBuf 3 1.0 0 0 p\nBufWr 5 0 p\nn = BufFrames 2\nOut.ar 1 p n\nend\n";

fn ends(place: Extent) -> bool
    ensures { result ≡ nat_lt (place.at + place.len) 4294967296 }
{
    (place.at as u64 + place.len as u64) < 4_294_967_296
}

fn have_ends(places: &[Extent]) -> bool
    ensures { IsTrue result → All Ends places.now }
{
    places.iter().all(|place| ends(*place))
}

/// No buffer is allocated.
fn no_buffers(alloc: Global) -> Result<Buffers, NoMemory>
    ensures long { IfOk result (λ buffers. length buffers ≡ buffer_count) }
    ensures ends { IfOk result (λ buffers. All Ends (live_places buffers)) }
{
    Buffers::new(alloc)
}

fn set_buffer(buffers: &mut Buffers, number: u32, place: Option<BufferPlace>)
    requires number { number < length buffers.old }
    requires all { All Ends (live_places buffers.old) }
    requires one { All Ends (place_extents place) }
    ensures long { length buffers.new ≡ length buffers.old }
    ensures ends { All Ends (live_places buffers.new) }
{
    buffers.set(number, place);
}

/// A buffer of four frames in two channels.
fn stereo(at: u32) -> BufferPlace
    ensures { result.extent ≡ record { at = at; len = 8 } }
{
    BufferPlace {
        extent: Extent { at, len: 8 },
        frames: 4,
        channels: 2,
    }
}

/// Buffers 2 and 5 are allocated, and buffer 3 was.
fn reels(alloc: Global) -> Result<Buffers, NoMemory>
    ensures { IfOk result (λ buffers. All Ends (live_places buffers)) }
{
    let mut buffers = no_buffers(alloc)?;
    set_buffer(&mut buffers, 2, Some(stereo(30_000)));
    set_buffer(&mut buffers, 3, Some(stereo(30_008)));
    set_buffer(&mut buffers, 5, Some(stereo(30_016)));
    set_buffer(&mut buffers, 3, None);
    Ok(buffers)
}

fn own(value: i32) -> Control {
    Control { value, bus: None }
}

fn following(bus: u32) -> Control {
    Control {
        value: 0,
        bus: Some(bus),
    }
}

/// A synth of a definition, with its two controls, and two words of state from word `at` on.
fn synth(
    alloc: Global,
    text: &[u8],
    controls: (Control, Control),
    at: u32,
) -> Result<Option<Held>, AllocError> {
    let Ok(def) = read(alloc, text) else {
        return Ok(None);
    };
    let mut values = Vec::new(alloc);
    values.push(controls.0)?;
    values.push(controls.1)?;
    Ok(Some(Held::Synth {
        def: Arc::new(alloc, def)?,
        controls: Controls::from_vec(values),
        state: Extent { at, len: 2 },
    }))
}

/// The words of a node, or nothing if there is no such node or a state ends after the words.
fn foot(
    alloc: Global,
    buffers: Buffers,
    tree: Tree<Held>,
    node: i32,
) -> Result<Option<Reach>, NoMemory>
    requires { All Ends (live_places buffers) }
{
    if !all_end(&tree) {
        return Ok(None);
    }
    let mut stage = Stage::new(alloc, 48_000, 0, 0)?;
    stage.tree = tree;
    stage.buffers = buffers;
    let mut foot = Reach {
        reads: Extents::new(alloc),
        writes: Extents::new(alloc),
        mixes: Extents::new(alloc),
    };
    match foot_of(alloc, &stage, node, &mut foot) {
        Ok(()) => Ok(Some(foot)),
        Err(Unfooted::NoNode) => Ok(None),
        Err(Unfooted::NoMemory) => Err(NoMemory),
    }
}

/// A synth by its definition and its controls, and the words that it reads, writes and mixes.
#[derive(Drop)]
struct Case<'a> {
    text: &'a [u8],
    controls: (Control, Control),
    reads: &'a [(u32, u32)],
    writes: &'a [(u32, u32)],
    mixes: &'a [(u32, u32)],
}

/// Whether a synth reads, writes and mixes these words, with its state from word 20,000 on.
fn agrees(alloc: Global, case: &Case<'_>) -> Result<bool, NoMemory> {
    let mut tree = Tree::new(alloc, Held::Group)?;
    let Some(held) = synth(alloc, case.text, case.controls, 20_000)? else {
        return Ok(false);
    };
    if !put(&mut tree, 1000, NodeKind::Synth, 0, held) {
        return Ok(false);
    }
    match foot(alloc, reels(alloc)?, tree, 1000)? {
        Some(foot) => Ok(
            lie(foot.reads.as_slice(), case.reads)
                && lie(foot.writes.as_slice(), case.writes)
                && lie(foot.mixes.as_slice(), case.mixes),
        ),
        None => Ok(false),
    }
}

/// Audio bus n has the words from 65 n on, control bus n the two from 8,320 + 2 n on.
#[test]
fn as_many_buses_are_used_as_there_are_channels(rt: HostRuntime) -> Result<(), Fail> {
    let cases = [
        Case {
            text: WIDE,
            controls: (own(126), own(0)),
            reads: &[(195, 130)],
            writes: &[(20000, 2)],
            mixes: &[(8190, 130)],
        },
        Case {
            text: WIDE,
            controls: (own(-2), following(1023)),
            reads: &[(195, 130), (10366, 2)],
            writes: &[(20000, 2)],
            mixes: &[(0, 130)],
        },
        Case {
            text: WIDE,
            controls: (own(2), own(0)),
            reads: &[(195, 130)],
            writes: &[(195, 130), (20000, 2)],
            mixes: &[(130, 65), (325, 65)],
        },
    ];
    for case in &cases {
        assert!(rt; agrees(rt.alloc(), case)?);
    }
    Ok(())
}

#[test]
fn control_buses_are_read_by_units_and_by_controls(rt: HostRuntime) -> Result<(), Fail> {
    let cases = [
        Case {
            text: LINK,
            controls: (own(1024), own(0)),
            reads: &[(585, 65)],
            writes: &[(0, 65), (8334, 2), (20000, 2)],
            mixes: &[],
        },
        Case {
            text: LINK,
            controls: (own(0), following(5)),
            reads: &[(585, 65), (8320, 2), (8330, 2)],
            writes: &[(0, 65), (8334, 2), (20000, 2)],
            mixes: &[],
        },
    ];
    for case in &cases {
        assert!(rt; agrees(rt.alloc(), case)?);
    }
    Ok(())
}

#[test]
fn buffers_are_used_if_they_are_allocated(rt: HostRuntime) -> Result<(), Fail> {
    let cases = [
        Case {
            text: REEL,
            controls: (own(2), own(0)),
            reads: &[(30000, 8)],
            writes: &[(20000, 2), (30016, 8)],
            mixes: &[(65, 130)],
        },
        Case {
            text: REEL,
            controls: (own(3), following(1)),
            reads: &[(8322, 2)],
            writes: &[(20000, 2), (30016, 8)],
            mixes: &[(65, 130)],
        },
    ];
    for case in &cases {
        assert!(rt; agrees(rt.alloc(), case)?);
    }
    Ok(())
}

/// A paused group with a synth in it, below another group.
fn paused(alloc: Global) -> Result<Option<Tree<Held>>, NoMemory> {
    let mut tree = Tree::new(alloc, Held::Group)?;
    let Some(held) = synth(alloc, WIDE, (own(0), own(0)), 20_000)? else {
        return Ok(None);
    };
    let mut all = put(&mut tree, 1, NodeKind::Group, 0, Held::Group);
    all = put(&mut tree, 2, NodeKind::Group, 1, Held::Group) && all;
    all = put(&mut tree, 3, NodeKind::Synth, 2, held) && all;
    all = tree.set_run(2, false).is_ok() && all;
    if all { Ok(Some(tree)) } else { Ok(None) }
}

#[test]
fn what_a_walk_does_not_reach_has_no_foot(rt: HostRuntime) -> Result<(), Fail> {
    for node in [0, 1, 2, 3] {
        let Some(tree) = paused(rt.alloc())? else {
            assert!(rt; false);
            return Ok(());
        };
        let Some(found) = foot(rt.alloc(), reels(rt.alloc())?, tree, node)? else {
            assert!(rt; false);
            return Ok(());
        };
        assert_eq!(rt;
            found.reads.as_slice().len()
                + found.writes.as_slice().len()
                + found.mixes.as_slice().len(),
            0
        );
    }
    Ok(())
}

#[test]
fn no_node_no_foot(rt: HostRuntime) -> Result<(), Fail> {
    let tree = Tree::new(rt.alloc(), Held::Group)?;
    assert!(rt; foot(rt.alloc(), reels(rt.alloc())?, tree, 7)?.is_none());
    Ok(())
}

#[test]
fn extents_are_one_list(rt: HostRuntime) -> Result<(), Fail> {
    let mut extents = Vec::new(rt.alloc());
    for (at, len) in [
        (30, 5),
        (7, 0),
        (10, 10),
        (35, 1),
        (12, 3),
        (20, 0),
        (21, 2),
    ] {
        extents.push(Extent { at, len })?;
    }
    assert!(rt; have_ends(&extents));
    let found = canonical(rt.alloc(), extents)?;
    assert!(rt; lie(found.as_slice(), &[(10, 10), (21, 2), (30, 6)]));
    Ok(())
}
