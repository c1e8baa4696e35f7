//! The jobs of nodes that are heard.
ghost use Rattle.std.specs.Prelude.{◌≡◌, ◌+◌, ◌*◌, ◌<◌, ◌^◌, ◌==◌, ◌&&◌, ◌++◌, [], None, not, if◌then◌else◌, length, IfOk, OnOk, map};
ghost use Rattle.sn_mem.specs.Layout.{audio_bus_words};
ghost use Rattle.sn_ports.specs.Limits.{audio_bus_count};
ghost use Rattle.std.specs.List.{list_any};
ghost use Rattle.sn_mem.specs.Lanes.{buses_in, lanes_in};
ghost use Rattle.sn_mem.specs.Words.{has};
ghost use Rattle.sn_round.specs.Jobs.{IsRaceFree};
ghost use Rattle.sn_graph.specs.Voices.{AreWithin, HaveEnds, JointsEnd, Once, all_reads, all_writes, buses_left, foot_of, ids_of, is_moved, joint_lanes, mixed_onto, voices};
ghost use Rattle.sn_graph.specs.Rows.{size, done, job_of, moves_of};
ghost use Rattle.sn_graph.specs.Plans.{IsPlanned, SplitsAreClear, close, inner_row, joined, plan_of, row_of, rows_of};
ghost use Rattle.sn_graph.specs.Inputs.{nodes_of};
ghost use Rattle.sn_graph.specs.Drafts.{IsJoint, Puts, listed};

use crate::mixing::mixes;
use crate::nodes::{HeardNodes, Joint, Voice};
use sn_foot::canonical;
use sn_mem::{AllMoves, Extent, Foot, Moved, Moves, Places};
use sn_ports::NoMemory;
use sn_ports::limits::AUDIO_BUS_COUNT;
use sn_round::{Ids, Job, Jobs, Plan, SharedFoot};
use std::alloc::Global;

/// Appends extents.
fn append(extents: &mut Vec<Extent>, more: &[Extent]) -> Result<(), NoMemory>
    ensures { OnOk result (extents.new.items ≡ extents.old.items ++ more.now) }
{
    for extent in more {
        extents.push(*extent)?;
    }
    Ok(())
}

/// The ids of synths.
fn ids_of(alloc: Global, run: &[&Voice]) -> Result<Ids, NoMemory>
    ensures { IfOk result (λ ids. ids ≡ ids_of (map (λ v. v.now) run.now)) }
{
    let mut ids = Ids::new(alloc);
    for voice in run {
        ids.push(voice.id)?;
    }
    Ok(ids)
}

/// What synths may read.
fn all_reads(alloc: Global, run: &[&Voice]) -> Result<Vec<Extent>, NoMemory>
    ensures { IfOk result (λ extents. extents.items ≡ all_reads (map (λ v. v.now) run.now)) }
{
    let mut extents = Vec::new(alloc);
    for voice in run {
        append(&mut extents, voice.reach.reads.as_slice())?;
    }
    Ok(extents)
}

/// Whether a bus at this word is one that is moved.
fn has_bus_at(moves: &[Moved], at: u32) -> bool
    ensures { result ≡ list_any (λ m. m.bus.at == at) moves.now }
{
    moves.iter().any(|moved| moved.bus.at == at)
}

/// Whether an audio bus is one that is moved.
fn is_moved(moves: &[Moved], bus: u32) -> bool
    requires { bus < audio_bus_count }
    ensures { result ≡ is_moved moves.now bus }
{
    has_bus_at(moves, Places::audio(bus).at)
}

/// Whether a synth mixes a bus by itself, and not onto a lane.
fn is_left(voice: &Voice, bus: u32) -> bool
    requires { bus < audio_bus_count }
    ensures { result ≡ (has voice.now.reach.mixes (audio_bus_words * bus) && not (is_moved voice.now.moves bus)) }
{
    mixes(voice, bus as usize) && !is_moved(voice.moves.as_slice(), bus)
}

/// Appends the buses that a synth mixes by itself.
fn append_left(extents: &mut Vec<Extent>, voice: &Voice) -> Result<(), NoMemory>
    ensures { OnOk result (extents.new.items ≡ extents.old.items ++ buses_left voice.now.moves voice.now.reach.mixes) }
{
    for bus in 0..AUDIO_BUS_COUNT {
        if is_left(voice, bus) {
            extents.push(Places::audio(bus))?;
        }
    }
    Ok(())
}

/// Appends lanes.
fn append_lanes(extents: &mut Vec<Extent>, moves: &[Moved]) -> Result<(), NoMemory>
    ensures { OnOk result (extents.new.items ≡ extents.old.items ++ lanes_in moves.now) }
{
    for moved in moves {
        extents.push(moved.lane)?;
    }
    Ok(())
}

/// Appends buses.
fn append_buses(extents: &mut Vec<Extent>, moves: &[Moved]) -> Result<(), NoMemory>
    ensures { OnOk result (extents.new.items ≡ extents.old.items ++ buses_in moves.now) }
{
    for moved in moves {
        extents.push(moved.bus)?;
    }
    Ok(())
}

/// Appends what a synth mixes, with its lane in place of each bus that is moved.
fn append_mixed(extents: &mut Vec<Extent>, voice: &Voice) -> Result<(), NoMemory>
    ensures { OnOk result (extents.new.items ≡ extents.old.items ++ mixed_onto voice.now.moves voice.now.reach.mixes) }
{
    let moves = voice.moves.as_slice();
    if moves.is_empty() {
        return append(extents, voice.reach.mixes.as_slice());
    }
    append_left(extents, voice)?;
    append_lanes(extents, moves)
}

/// What synths may write: what they mix too.
fn all_writes(alloc: Global, run: &[&Voice]) -> Result<Vec<Extent>, NoMemory>
    ensures { IfOk result (λ extents. extents.items ≡ all_writes (map (λ v. v.now) run.now)) }
{
    let mut extents = Vec::new(alloc);
    for voice in run {
        append(&mut extents, voice.reach.writes.as_slice())?;
        append_mixed(&mut extents, voice)?;
    }
    Ok(extents)
}

/// What synths may touch.
fn foot_of(alloc: Global, run: &[&Voice]) -> Result<Foot, NoMemory>
    requires { AreWithin (map (λ v. v.now) run.now) }
    ensures { IfOk result (λ foot. foot ≡ foot_of (map (λ v. v.now) run.now) []) }
{
    let reads = all_reads(alloc, run)?;
    let writes = all_writes(alloc, run)?;
    Ok(Foot {
        reads: canonical(alloc, reads)?,
        writes: canonical(alloc, writes)?,
    })
}

/// What a joint may touch: the lanes, and their buses.
fn joint_foot(alloc: Global, lanes: &[Moved]) -> Result<Foot, NoMemory>
    requires { HaveEnds lanes.now }
    ensures { IfOk result (λ foot. foot ≡ foot_of [] lanes.now) }
{
    let mut reads = Vec::new(alloc);
    append_lanes(&mut reads, lanes)?;
    let mut writes = Vec::new(alloc);
    append_buses(&mut writes, lanes)?;
    Ok(Foot {
        reads: canonical(alloc, reads)?,
        writes: canonical(alloc, writes)?,
    })
}

/// The buses that each synth moves.
fn moves_of(alloc: Global, run: &[&Voice]) -> Result<AllMoves, NoMemory>
    ensures { IfOk result (λ moves. moves ≡ moves_of (map (λ v. v.now) run.now)) }
{
    let mut moves = AllMoves::new(alloc);
    for voice in run {
        moves.push(voice.moves.copied(alloc)?)?;
    }
    Ok(moves)
}

/// The job of a joint, which adds lanes.
fn joint_with(alloc: Global, lanes: &Moves, before: Jobs) -> Result<Job, NoMemory>
    requires { HaveEnds lanes.now }
    ensures { IfOk result (λ job. job ≡ job_of [] lanes.now before) }
{
    Ok(Job {
        synths: Ids::new(alloc),
        moves: AllMoves::new(alloc),
        lanes: lanes.copied(alloc)?,
        foot: SharedFoot::new(alloc, joint_foot(alloc, lanes.as_slice())?)?,
        before,
    })
}

/// The job of synths.
fn job_with(alloc: Global, run: &[&Voice], before: Jobs) -> Result<Job, NoMemory>
    requires { AreWithin (map (λ v. v.now) run.now) }
    ensures { IfOk result (λ job. job ≡ job_of (map (λ v. v.now) run.now) [] before) }
{
    Ok(Job {
        synths: ids_of(alloc, run)?,
        moves: moves_of(alloc, run)?,
        lanes: Moves::new(alloc),
        foot: SharedFoot::new(alloc, foot_of(alloc, run)?)?,
        before,
    })
}

/// The predecessors of what has this entry.
fn list_of(alloc: Global, entry: Option<u32>) -> Result<Jobs, NoMemory>
    ensures { IfOk result (λ before. before ≡ listed entry) }
{
    let mut before = Jobs::new(alloc);
    if let Some(job) = entry {
        before.push(job)?;
    }
    Ok(before)
}

/// Puts the open run as a job, if it has a synth. Returns the last job.
fn end_run(
    alloc: Global,
    jobs: &mut Vec<Job>,
    run: &[&Voice],
    entry: Option<u32>,
) -> Result<Option<u32>, NoMemory>
    requires room { length jobs.old.items < 2 ^ 32 }
    requires within { AreWithin (map (λ v. v.now) run.now) }
    ensures { IfOk result (λ last. Puts jobs.old.items jobs.new.items entry last (close (map (λ v. v.now) run.now) done)) }
{
    if run.is_empty() {
        return Ok(entry);
    }
    let number = jobs.len() as u32;
    let before = list_of(alloc, entry)?;
    let job = job_with(alloc, run, before)?;
    jobs.push(job)?;
    Ok(Some(number))
}

/// The last job of a member, if the member has jobs.
fn last_of(has_jobs: bool, last: Option<u32>) -> Option<u32>
    ensures { result ≡ (if has_jobs then last else None) }
{
    if has_jobs { last } else { None }
}

/// Appends the last job of a member.
fn put_last(lasts: &mut Jobs, last: Option<u32>) -> Result<(), NoMemory>
    ensures { OnOk result (lasts.new ≡ lasts.old ++ listed last) }
{
    if let Some(job) = last {
        lasts.push(job)?;
    }
    Ok(())
}

/// Puts the joint of members, if there are two or more. Returns the last job.
fn put_joint(
    alloc: Global,
    jobs: &mut Vec<Job>,
    lanes: &Moves,
    lasts: Jobs,
    entry: Option<u32>,
) -> Result<Option<u32>, NoMemory>
    requires room { length jobs.old.items < 2 ^ 32 }
    requires lanes { HaveEnds lanes.now }
    ensures { IfOk result (λ last. IsJoint lanes.now jobs.old.items jobs.new.items lasts entry last) }
{
    match lasts.as_slice() {
        [] => return Ok(entry),
        [last] => return Ok(Some(*last)),
        _ => {}
    }
    let number = jobs.len() as u32;
    let job = joint_with(alloc, lanes, lasts)?;
    jobs.push(job)?;
    Ok(Some(number))
}

/// Puts the jobs of nodes that are rendered in order. Returns the last job.
#[cycle(put)]
fn put_row(
    alloc: Global,
    jobs: &mut Vec<Job>,
    nodes: &HeardNodes,
    entry: Option<u32>,
) -> Result<Option<u32>, NoMemory>
    requires room { length jobs.old.items + size (row_of [] (nodes_of nodes.now)) < 2 ^ 32 }
    requires within { AreWithin (voices (nodes_of nodes.now)) }
    requires joints { JointsEnd (nodes_of nodes.now) }
    ensures { IfOk result (λ last. Puts jobs.old.items jobs.new.items entry last (row_of [] (nodes_of nodes.now))) }
{
    let mut last = entry;
    let mut run: Vec<&Voice> = Vec::new(alloc);
    let mut rest = nodes;
    loop {
        match rest {
            HeardNodes::None => break,
            HeardNodes::Synth(voice, next) => {
                run.push(voice)?;
                rest = next;
            }
            HeardNodes::Group(joint, inner, next) => {
                rest = next;
                let open = run.as_slice();
                last = end_run(alloc, jobs, open, last)?;
                last = put_group(alloc, jobs, joint, inner, last)?;
                run.clear();
            }
        }
    }
    end_run(alloc, jobs, run.as_slice(), last)
}

/// Puts the jobs of a group. Returns the last job.
#[cycle(put)]
fn put_group(
    alloc: Global,
    jobs: &mut Vec<Job>,
    joint: &Joint,
    inner: &HeardNodes,
    entry: Option<u32>,
) -> Result<Option<u32>, NoMemory>
    requires room { length jobs.old.items + size (inner_row joint.now.lanes (nodes_of inner.now)) < 2 ^ 32 }
    requires within { AreWithin (voices (nodes_of inner.now)) }
    requires lanes { HaveEnds (joint_lanes joint.now.lanes) }
    requires joints { JointsEnd (nodes_of inner.now) }
    ensures { IfOk result (λ last. Puts jobs.old.items jobs.new.items entry last (inner_row joint.now.lanes (nodes_of inner.now))) }
{
    match &joint.lanes {
        Some(lanes) => put_members(alloc, jobs, lanes, inner, entry),
        None => put_row(alloc, jobs, inner, entry),
    }
}

/// Puts the jobs of the members of a split group, and their joint. Returns the last job.
#[cycle(put)]
fn put_members(
    alloc: Global,
    jobs: &mut Vec<Job>,
    lanes: &Moves,
    inner: &HeardNodes,
    entry: Option<u32>,
) -> Result<Option<u32>, NoMemory>
    requires room { length jobs.old.items + size (joined lanes.now (rows_of (nodes_of inner.now))) < 2 ^ 32 }
    requires within { AreWithin (voices (nodes_of inner.now)) }
    requires lanes { HaveEnds lanes.now }
    requires joints { JointsEnd (nodes_of inner.now) }
    ensures { IfOk result (λ last. Puts jobs.old.items jobs.new.items entry last (joined lanes.now (rows_of (nodes_of inner.now)))) }
{
    let mut lasts = Jobs::new(alloc);
    let mut rest = inner;
    loop {
        match rest {
            HeardNodes::None => break,
            HeardNodes::Synth(voice, next) => {
                rest = next;
                let last = end_run(alloc, jobs, &[voice], entry)?;
                put_last(&mut lasts, last)?;
            }
            HeardNodes::Group(joint, inner, next) => {
                rest = next;
                let before = jobs.len();
                let last = put_group(alloc, jobs, joint, inner, entry)?;
                put_last(&mut lasts, last_of(before < jobs.len(), last))?;
            }
        }
    }
    put_joint(alloc, jobs, lanes, lasts, entry)
}

/// The plan of nodes that are heard.
pub fn plan_of_nodes(alloc: Global, nodes: &HeardNodes) -> Result<Plan, NoMemory>
    requires few { size (row_of [] (nodes_of nodes.now)) < 2 ^ 32 }
    requires within { AreWithin (voices (nodes_of nodes.now)) }
    requires joints { JointsEnd (nodes_of nodes.now) }
    requires once { Once (voices (nodes_of nodes.now)) }
    ensures jobs { IfOk result (λ plan. plan ≡ plan_of (nodes_of nodes.now)) }
    ensures planned { IfOk result (λ plan. IsPlanned (nodes_of nodes.now) plan) }
    ensures race_free { SplitsAreClear (nodes_of nodes.now) → IfOk result IsRaceFree }
{
    let mut jobs = Vec::new(alloc);
    put_row(alloc, &mut jobs, nodes, None)?;
    Plan::new(alloc, jobs)
}
