//! The engine: what is played, and the calls that play it.
ghost use Rattle.std.specs.Prelude.{◌≡◌, ◌≤◌, ◌<◌, ◌+◌, ◌^◌, [], true, false, ℕ, Option, length, map, replicate, slice_index_or, slice_set, IfOk, OnOk, OnErr};
ghost use Rattle.sn_ports.specs.Limits.{most_channels, most_count, most_clients};
ghost use Rattle.sn_osc.specs.Shape.{shape};
ghost use Rattle.sn_ports.specs.Causes.{HasCause};
ghost use Rattle.sn_ports.specs.Links.{KeepsEvents};
ghost use Rattle.sn_mem.specs.Blocks.{table};
ghost use Rattle.sn_mem.specs.Layout.{audio_place};
ghost use Rattle.sn_ports.specs.Octets.{bytes_of};
ghost use Rattle.sn_ports.specs.Transfer.{TakesAll};
ghost use Rattle.sn_queue.specs.Steps.{last_due};
ghost use Rattle.sn_reply.specs.Frames.{EachBegins};
ghost use Rattle.sn_engine.specs.Arriving.{IsSpelled, next_boundary, offered, with_offered, IsPartlyOffered, KeepsOthers};
ghost use Rattle.sn_engine.specs.Entries.{entries_of};
ghost use Rattle.sn_engine.specs.Refusing.{with_bad_packet};
ghost use Rattle.sn_engine.specs.Planning.{IsPlanOfWorld, IsStageOf};
ghost use Rattle.sn_engine.specs.Playing.{no_past, KeepsRounds, KeepsRested};
ghost use Rattle.sn_engine.specs.Spans.{HasRounds, IsQuiet, in_turn, with_blocks};
ghost use Rattle.sn_engine.specs.Running.{Running, opened, at_boundary, flow_at, KeepsRest, with_block, with_settled};
ghost use Rattle.sn_engine.specs.declared.standing.Flow.TheVariants.{On};
ghost use Rattle.sn_engine.specs.declared.standing.Standing.TheVariants.{Settled, Bounded, Rendered, Spent};

use crate::bounding::act_boundary;
use crate::entry::entries;
use crate::memory::Memory;
use crate::offering::offer_entries;
use crate::planning::Planned;
use crate::refusing::bad_packet;
use crate::rendering::{Part, render};
use crate::room::reserve_settling;
use crate::settling::settle_before;
use crate::standing::{Flow, Standing};
use sn_clash::Clashes;
use sn_crew::Crew;
use sn_mem::{BUS_WORDS, Extents, LANE_WORDS, Places};
use sn_osc::Packet;
use sn_pcm::Settings;
use sn_ports::limits::{BLOCK_SAMPLES, MOST_SPAN};
use sn_ports::{Failed, Gate, Link, NoMemory, Sink, Text, send_all, write_all};
use sn_queue::Queue;
use sn_reply::{Replies, send};
use sn_span::COPY_WORDS;
use sn_world::{Endings, Stage};
use std::alloc::Global;
use std::marker::Model;
use std::thread::Threads;

/// Where the words of the pool begin: after those of the buses.
const POOL_AT: u32 = BUS_WORDS as u32;

/// How many words the copies of a span take: one for each sample.
const COPIES: u32 = MOST_SPAN * COPY_WORDS;

/// How many bytes the samples of a span take, with at most 3 each.
const SPAN_BYTES: u32 = 3 * COPIES;

/// What is played: the nodes, the memory with the crew that shares its words, the entries that wait, and the bytes that
/// are still to be written.
#[derive(Drop)]
pub struct Engine {
    settings: Settings,
    stage: Stage,
    memory: Memory,
    crew: Crew,
    // The samples of the last block, frame by frame.
    samples: Vec<i32>,
    // The units that ended in the last block.
    endings: Endings,
    // How many bytes each client may be sent of the settling that comes.
    room: u32,
    queue: Queue,
    // The clashes and the plan of the last boundary, and whether nothing changed since they were made.
    clashes: Clashes,
    planned: Planned,
    holds: bool,
    // The audio buses that are heard, and where the copies of their sound begin, after the words of the pool. The lanes
    // follow.
    outputs: Extents,
    copies: u32,
    // How many blocks in a row a boundary makes ready, at most.
    wanted: u32,
    block: u64,
    standing: Standing,
    sound: Text,
    // What each client is still to be sent.
    replies: Vec<Text>,
}

impl Model for Engine {
    ghost use Rattle.std.specs.Prelude.{map, length, ◌≤◌, ◌<◌, ◌^◌, vec_capacity};
    ghost use Rattle.std.specs.Coded.{codes};
    ghost use Rattle.std.specs.FinMap as finite;
    ghost use Rattle.sn_ports.specs.Octets.{bytes_of};
    ghost use Rattle.sn_tree.specs.Model.{nodes_code};
    ghost use Rattle.sn_world.specs.World.{world_of};
    ghost use Rattle.sn_world.specs.Pictures.{Pictures};
    ghost use Rattle.sn_engine.specs.Playing.{Playing};
    ghost use Rattle.sn_engine.specs.Answerable.{AllAnswerable};
    ghost use Rattle.sn_tree.specs.Trees.{running_labels};
    ghost use Rattle.sn_world.specs.SettleWords.{walk_room};
    ghost use Rattle.sn_engine.specs.Keeping.{HasRoom, IsRoom};
    ghost use Rattle.sn_engine.specs.Holding.{StillHold};
    ghost use Rattle.sn_engine.specs.Planning.{CopiesLie, HasLanes, LanesRest, StillPlanned, StillSpanned, HoldsBounded, HoldsRendered};
    ghost use Rattle.sn_ports.specs.Limits.{most_clients};

    ghost Value = { Playing };

    ghost coded = { Prim.hlevel (codes, nodes_code, finite.code) };

    ghost view = { λ e. record {
      running = record { settings = e.settings; world = world_of e.stage e.memory.words; waiting = e.queue; clashes = e.clashes; block = e.block; standing = e.standing; sound = e.sound.bytes; replies = map bytes_of e.replies.items };
      past = record { jobs = e.planned.jobs; rounds = e.memory.rounds; stores = e.memory.stores; crew = length e.crew.hands.items };
    } };

    ghost invariant = { λ e. Pictures e.stage e.memory.words × AllAnswerable e.queue.waiting × HasRoom e.standing e.sound.spare (vec_capacity e.samples) (walk_room (running_labels e.stage.tree.attached)) e.endings.spare e.replies.items
        × IsRoom e.standing e.room (walk_room (running_labels e.stage.tree.attached)) × (e.room < 2 ^ 30) × (length e.replies.items ≤ most_clients)
        × StillHold e.holds e.stage e.clashes × StillPlanned e.holds e.settings.workers e.stage e.planned.jobs e.planned.quiet e.planned.eventful × HoldsBounded e.standing e.holds
        × StillSpanned e.holds e.planned.jobs e.outputs e.copies e.planned.spans.items
        × CopiesLie e.settings.channels e.stage e.memory.words e.outputs e.copies × HasLanes e.stage e.memory.words × LanesRest e.stage e.block e.memory.words × HoldsRendered e.standing e.holds };
}

/// Whether a boundary was done, and its blocks are next.
fn is_bounded(standing: Standing) -> bool
    ensures bounded { result ≡ true → standing ≡ Bounded }
    ensures other { result ≡ false → standing ≡ Bounded → ⊥ }
{
    match standing {
        Standing::Bounded => true,
        Standing::Settled | Standing::Rendered | Standing::Spent => false,
    }
}

/// Nothing to send to so many clients.
fn silent(alloc: Global, clients: u32) -> Result<Vec<Text>, NoMemory>
    ensures { IfOk result (λ texts. map bytes_of texts.items ≡ replicate clients []) }
{
    let mut texts = Vec::new(alloc);
    for _ in 0..clients {
        texts.push(Text::new(alloc))?;
    }
    Ok(texts)
}

/// The places of the first audio buses.
fn first_buses(alloc: Global, channels: u32) -> Result<Extents, NoMemory>
    requires { channels ≤ most_channels }
    ensures { IfOk result (λ outputs. outputs ≡ table audio_place channels) }
{
    let mut outputs = Extents::new(alloc);
    for bus in 0..channels {
        outputs.push(Places::audio(bus))?;
    }
    Ok(outputs)
}

/// Sends a text, and drops it.
fn send_text<L: Link>(text: &mut Text, link: &mut L) -> Result<(), Failed>
    ensures taken { TakesAll (L.sent link.old) (L.sent link.new) result text.old.bytes }
    ensures events { KeepsEvents (L.left link.old) (L.left link.new) }
    ensures cause { HasCause (L.faults link.old) (L.faults link.new) result }
    ensures unfailed { OnOk result (L.faults link.new ≡ L.faults link.old) }
    ensures bytes { text.new.bytes ≡ [] }
    ensures room { text.old.spare ≤ text.new.spare }
{
    let sent = send_all(link, text.as_slice());
    text.clear();
    sent
}

/// Writes a text, and drops it.
fn drain<S: Sink>(text: &mut Text, sink: &mut S) -> Result<(), Failed>
    ensures taken { TakesAll (S.taken sink.old) (S.taken sink.new) result text.old.bytes }
    ensures cause { HasCause (S.faults sink.old) (S.faults sink.new) result }
    ensures unfailed { OnOk result (S.faults sink.new ≡ S.faults sink.old) }
    ensures bytes { text.new.bytes ≡ [] }
    ensures room { text.old.spare ≤ text.new.spare }
{
    let written = write_all(sink, text.as_slice());
    text.clear();
    written
}

impl Engine {
    /// The opening world for so many clients, at the boundary before block 0, which begins at the time tag `base`. At
    /// most `limit` entries wait in it.
    pub fn open(
        alloc: Global,
        settings: &Settings,
        base: u64,
        limit: Option<u32>,
        clients: u32,
    ) -> Result<Self, NoMemory>
        requires clients { clients ≤ most_clients }
        ensures running { IfOk result (λ e. e.running ≡ opened settings.now base limit clients) }
        ensures past { IfOk result (λ e. e.past ≡ no_past settings.now.workers) }
    {
        let outputs = first_buses(alloc, settings.channels)?;
        let replies = silent(alloc, clients)?;
        let copies = POOL_AT + settings.memory;
        let memory = Memory::open(alloc, copies + COPIES + LANE_WORDS)?;
        let crew = Crew::open(alloc, settings.workers)?;
        let planned = Planned::nothing(alloc)?;
        let stage = Stage::new(alloc, settings.rate, settings.memory, clients)?;
        let queue = Queue::new(alloc, base, settings.rate, limit);
        let clashes = Clashes::new(alloc);
        let sound = Text::new(alloc);
        Ok(Engine {
            settings: *settings,
            stage,
            memory,
            crew,
            samples: Vec::new(alloc),
            endings: Endings::new(alloc),
            room: 0,
            queue,
            clashes,
            planned,
            holds: false,
            outputs,
            copies,
            wanted: 1,
            block: 0,
            standing: Standing::Settled,
            sound,
            replies,
        })
    }

    /// The greatest due number of the entries that wait.
    pub fn last(&self) -> Option<u64>
        ensures { result ≡ last_due self.now.running.waiting }
    {
        self.queue.last()
    }

    /// How many blocks were rendered.
    pub fn block(&self) -> u64
        ensures { result ≡ self.now.running.block }
    {
        self.block
    }

    /// How far it is.
    pub fn standing(&self) -> Standing
        ensures { result ≡ self.now.running.standing }
    {
        self.standing
    }

    /// The stage that stands for its world.
    pub fn stage(&self) -> &Stage
        ensures { IsStageOf self.now.running.world result.now }
    {
        &self.stage
    }

    /// How many clients it has.
    pub fn clients(&self) -> u32
        ensures { result ≡ length self.now.running.replies }
    {
        self.replies.len() as u32
    }

    /// How many entries were ever put.
    pub fn puts(&self) -> u64
        ensures { result ≡ self.now.running.waiting.puts }
    {
        self.queue.puts()
    }

    /// How many bytes of sound are still to be written.
    pub fn sound_len(&self) -> usize
        ensures { result ≡ length self.now.running.sound }
    {
        self.sound.len()
    }

    /// The next boundary that has not been run.
    fn next_boundary(&self) -> u64
        requires block { self.now.running.block < most_count }
        ensures { result ≡ next_boundary self.now.running }
    {
        match self.standing {
            Standing::Bounded => self.block + 1,
            Standing::Settled | Standing::Rendered | Standing::Spent => self.block,
        }
    }

    /// Puts the entries of a packet that arrives at the next boundary from a client. An entry is refused exactly if as
    /// many wait as may, and is answered by `/fail`. Returns how many were refused. After `NoMemory` the entries before
    /// it stay. What clients were to be sent stays too, with a prefix of what this answers.
    pub fn offer(&mut self, alloc: Global, packet: Packet, from: u32) -> Result<u32, NoMemory>
        requires block { next_boundary self.old.running < most_count }
        requires puts { self.old.running.waiting.puts + length (entries_of (shape packet)) ≤ most_count }
        requires spelled { IsSpelled (shape packet) }
        ensures ok { OnOk result (self.new.running ≡ with_offered from (entries_of (shape packet)) self.old.running) }
        ensures refused { IfOk result (λ k. k ≡ (offered from (entries_of (shape packet)) self.old.running).refused) }
        ensures part { OnErr result (IsPartlyOffered (next_boundary self.old.running) from (entries_of (shape packet)) self.old.running.waiting self.new.running.waiting) }
        ensures others { KeepsOthers self.old.running self.new.running }
        ensures past { self.new.past ≡ self.old.past }
        ensures clients { length self.new.running.replies ≡ length self.old.running.replies }
        ensures behind { EachBegins self.old.running.replies self.new.running.replies }
        ensures front { OnErr result (EachBegins self.new.running.replies (with_offered from (entries_of (shape packet)) self.old.running).replies) }
    {
        let boundary = self.next_boundary();
        let entries = entries(alloc, packet)?;
        let mut said = Replies::new(alloc);
        let refused = offer_entries(alloc, &mut self.queue, boundary, from, entries, &mut said)?;
        send(&mut self.replies, self.room, said)?;
        Ok(refused)
    }

    /// The boundary before the next block: the entries that are due act in their order, the jobs of the block are
    /// planned, and its memory is reserved. After `NoMemory` the engine is spent. Clients are still to be sent what
    /// they were, with a prefix of what this answers, and the sound that waits stays.
    pub fn boundary(&mut self, alloc: Global) -> Result<Flow, NoMemory>
        requires settled { self.old.running.standing ≡ Settled }
        ensures ok { OnOk result (self.new.running ≡ at_boundary self.old.running) }
        ensures flow { IfOk result (λ flow. flow ≡ flow_at self.old.running) }
        ensures spent { OnErr result (self.new.running.standing ≡ Spent) }
        ensures others { KeepsRest self.old.running self.new.running }
        ensures past { KeepsRested self.old.past self.new.past }
        ensures planned { OnOk result (IsPlanOfWorld self.new.running.settings.workers self.new.running.world self.new.past.jobs) }
        ensures clients { length self.new.running.replies ≡ length self.old.running.replies }
        ensures behind { EachBegins self.old.running.replies self.new.running.replies }
        ensures front { OnErr result (EachBegins self.new.running.replies (at_boundary self.old.running).replies) }
    {
        self.standing = Standing::Spent;
        self.samples.clear();
        self.samples.reserve(BLOCK_SAMPLES)?;
        self.sound.reserve(SPAN_BYTES)?;
        let mut said = Replies::new(alloc);
        let hold = self.holds;
        let workers = self.settings.workers;
        self.holds = false;
        let quits = act_boundary(
            alloc,
            &mut self.stage,
            &mut self.memory,
            &mut self.queue,
            self.block,
            &mut self.clashes,
            &mut self.planned,
            hold,
            self.copies,
            workers,
            &mut said,
        )?;
        let blocks = self.planned.span(&self.queue, self.block, self.wanted);
        self.planned
            .unroll(alloc, blocks, workers, &self.outputs, self.copies)?;
        send(&mut self.replies, 0, said)?;
        let most = self.planned.eventful.room();
        self.room = reserve_settling(most, &mut self.endings, &mut self.replies)?;
        self.holds = true;
        self.standing = Standing::Bounded;
        Ok(if quits { Flow::Quit } else { Flow::On })
    }

    /// Tells how many blocks may be asked for in a row: a boundary makes the jobs of a row ready, up to so many. It is
    /// 1 at first.
    pub fn want(&mut self, blocks: u32)
        ensures { self.new ≡ self.old }
    {
        self.wanted = blocks.min(MOST_SPAN);
    }

    /// How many of so many blocks may be rendered before the next boundary. After a boundary this is the greatest such
    /// number.
    pub fn span(&self, want: u32) -> u32
        requires { 1 ≤ want }
        ensures want { result ≤ want }
        ensures quiet { IsQuiet self.now result }
        ensures most { self.now.running.standing ≡ Bounded → self.now.running.block < most_count → (n : ℕ) → n ≤ want → IsQuiet self.now n → n ≤ result }
    {
        if !is_bounded(self.standing) {
            return 1;
        }
        self.planned.span(&self.queue, self.block, want)
    }

    /// The next blocks, as many as may come before the next boundary, and their sound. Each round is of the jobs of the
    /// plan, or of those of the plan in several blocks that a boundary made ready. The crew shares the jobs, in as many
    /// threads as pay. The world after them is that of as many walks over the nodes, whatever their number of workers.
    /// Each job passes the gate before it runs. It takes no memory.
    pub fn blocks<H: Threads + Sync, G: Gate>(&mut self, rt: &H, n: u32, gate: &G)
        requires quiet { IsQuiet self.old n }
        requires bounded { self.old.running.standing ≡ Bounded }
        requires block { self.old.running.block + n ≤ most_count }
        ensures running { self.new.running ≡ with_blocks n self.old.running }
        ensures past { HasRounds n self.old.past self.new.past }
    {
        let part = Part {
            stage: &self.stage,
            planned: &self.planned,
            settings: &self.settings,
            outputs: &self.outputs,
            copies: self.copies,
            first: self.block,
            blocks: n,
        };
        render(
            rt,
            &part,
            &mut self.memory,
            &mut self.crew,
            gate,
            &mut self.samples,
            &mut self.sound,
        );
        self.block += u64::from(n);
        self.standing = Standing::Rendered;
    }

    /// A law: after a boundary, blocks in a row that are settled once, after the last, are as many that are settled
    /// each, after a boundary each.
    pub fn rows_are_turns(&self)
        ensures { self.now.running.standing ≡ Bounded → (r : Running) (n : ℕ) → self.now.running ≡ at_boundary r → IsQuiet self.now n → with_settled (with_blocks n self.now.running) ≡ in_turn n r }
    {
        let _ = &self.stage;
    }

    /// A law: at a boundary between the blocks of a row the server goes on.
    pub fn rows_go_on(&self)
        ensures { self.now.running.standing ≡ Bounded → (r : Running) (n k : ℕ) → self.now.running ≡ at_boundary r → IsQuiet self.now n → 1 ≤ k → k < n → flow_at (in_turn k r) ≡ On }
    {
        let _ = &self.stage;
    }

    /// Settles the blocks that were rendered: triggers of the last are told, and the units that ended pause or free
    /// their synths. It takes no memory.
    pub fn settle(&mut self)
        requires rendered { self.old.running.standing ≡ Rendered }
        requires block { self.old.running.block < 2 ^ 63 }
        ensures running { self.new.running ≡ with_settled self.old.running }
        ensures past { KeepsRounds self.old.past self.new.past }
    {
        let ended = settle_before(
            &mut self.stage,
            &self.planned.eventful,
            &mut self.memory,
            self.block,
            &mut self.endings,
            &mut self.replies,
        );
        self.holds = self.holds && !ended;
        self.standing = Standing::Settled;
        self.room = 0;
    }

    /// Writes the sound that is still to be written. After a fault the sink took a prefix of it, and the rest is
    /// dropped.
    pub fn drain_sound<O: Sink>(&mut self, sink: &mut O) -> Result<(), Failed>
        ensures taken { TakesAll (O.taken sink.old) (O.taken sink.new) result self.old.running.sound }
        ensures cause { HasCause (O.faults sink.old) (O.faults sink.new) result }
        ensures unfailed { OnOk result (O.faults sink.new ≡ O.faults sink.old) }
        ensures kept { self.new.running ≡ record self.old.running { sound = [] } }
        ensures past { self.new.past ≡ self.old.past }
    {
        drain(&mut self.sound, sink)
    }

    /// Writes the replies that are still to be sent to a client. After a fault the sink took a prefix of them, and the
    /// rest is dropped.
    pub fn drain_replies<R: Sink>(&mut self, client: u32, sink: &mut R) -> Result<(), Failed>
        requires client { client < length self.old.running.replies }
        ensures taken { TakesAll (R.taken sink.old) (R.taken sink.new) result (slice_index_or self.old.running.replies client []) }
        ensures cause { HasCause (R.faults sink.old) (R.faults sink.new) result }
        ensures unfailed { OnOk result (R.faults sink.new ≡ R.faults sink.old) }
        ensures kept { self.new.running ≡ record self.old.running { replies = slice_set self.old.running.replies client [] } }
        ensures past { self.new.past ≡ self.old.past }
    {
        drain(&mut self.replies[client as usize], sink)
    }

    /// Sends a client over a link the replies that are still to be sent to it. After a fault a prefix of them was sent,
    /// and the rest is dropped.
    pub fn send_replies<L: Link>(&mut self, client: u32, link: &mut L) -> Result<(), Failed>
        requires client { client < length self.old.running.replies }
        ensures sent { TakesAll (L.sent link.old) (L.sent link.new) result (slice_index_or self.old.running.replies client []) }
        ensures events { KeepsEvents (L.left link.old) (L.left link.new) }
        ensures cause { HasCause (L.faults link.old) (L.faults link.new) result }
        ensures unfailed { OnOk result (L.faults link.new ≡ L.faults link.old) }
        ensures kept { self.new.running ≡ record self.old.running { replies = slice_set self.old.running.replies client [] } }
        ensures past { self.new.past ≡ self.old.past }
    {
        send_text(&mut self.replies[client as usize], link)
    }

    /// Answers a client whose bytes are no packet. After `NoMemory` what clients were to be sent stays, with a prefix
    /// of this answer.
    pub fn refuse_packet(&mut self, alloc: Global, from: u32) -> Result<(), NoMemory>
        ensures ok { OnOk result (self.new.running ≡ with_bad_packet from self.old.running) }
        ensures others { self.new.running ≡ record self.old.running { replies = self.new.running.replies } }
        ensures past { self.new.past ≡ self.old.past }
        ensures clients { length self.new.running.replies ≡ length self.old.running.replies }
        ensures behind { EachBegins self.old.running.replies self.new.running.replies }
        ensures front { OnErr result (EachBegins self.new.running.replies (with_bad_packet from self.old.running).replies) }
    {
        let said = bad_packet(alloc, from)?;
        send(&mut self.replies, self.room, said)
    }

    /// How many bytes of replies are still to be sent to a client.
    pub fn replies_len(&self, client: u32) -> usize
        requires client { client < length self.now.running.replies }
        ensures { result ≡ length (slice_index_or self.now.running.replies client []) }
    {
        self.replies[client as usize].len()
    }
}
