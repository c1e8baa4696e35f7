//! The loop of a session: notes and blocks, turn by turn.
ghost use Rattle.std.specs.Prelude.{◌≡◌, ◌≤◌, ◌<◌, ◌+◌, ◌++◌, ◌∷◌, [], ℕ, true, false, Bool, List, Option, Err, Ok, length, replicate, vec_len, vec_capacity, IfOk, IfErr, OnOk, OnErr};
ghost use Rattle.sn_ports.specs.Causes.{Rose};
ghost use Rattle.sn_ports.specs.Limits.{most_count};
ghost use Rattle.sn_engine.specs.Running.{Running};
ghost use Rattle.sn_engine.specs.declared.standing.Standing.TheVariants.{Settled};
ghost use Rattle.sn_clients.specs.declared.playing.Halt.TheVariants as halts;
ghost use Rattle.sn_clients.specs.Answers.{IsOutletOf, end_of, has_stopped};
ghost use Rattle.sn_clients.specs.Delivery.{AllWereTaken};
ghost use Rattle.sn_clients.specs.Looping.{Asked, Closed, Closes, Counted, EndsTo, HasPlayed, IsPlaying, IsSteady, PlaysOn, PlaysTo, Received, RunsTo, SameInlets, StandsOn};
ghost use Rattle.sn_clients.specs.Written.{AllSend, IsGoing};
ghost use Rattle.sn_clients.specs.PlayMany.{Played, ticks};

use crate::desk::Desk;
use crate::notes::Note;
use crate::playing::{Halt, arrive, play_blocks, send_all};
use crate::presence::Presence;
use crate::pulse::Pulse;
use crate::seats::Relay;
use crate::turns::{Turn, Turns};
use crate::watching::Watcher;
use sn_engine::Flow;
use sn_ports::limits::MOST_RELAYED;
use sn_ports::{Gate, NoMemory, Sink};
use std::alloc::Global;
use std::sync::Wait;
use std::thread;
use std::thread::Threads;

/// How many notes are taken at most before the pulse is asked again: as many as the relay holds.
const MOST_NOTES: u32 = MOST_RELAYED;

/// Makes room for one more turn.
fn make_room(turns: &mut Turns) -> Result<(), NoMemory>
    ensures same { turns.new.items ≡ turns.old.items }
    ensures room { OnOk result (vec_len turns.new < vec_capacity turns.new) }
{
    turns.reserve(1)?;
    Ok(())
}

/// Appends a turn, for which there is room.
fn put_turn(turns: &mut Turns, turn: Turn)
    requires { vec_len turns.old < vec_capacity turns.old }
    ensures { turns.new.items ≡ turns.old.items ++ turn ∷ [] }
{
    match turns.push(turn) {
        Ok(()) => {}
        Err(_) => unreachable!(),
    }
}

impl Desk {
    /// Takes a note, if one waits, and puts its turn, for which there is room before.
    fn receive<H: Wait>(&mut self, rt: &H, relay: &Relay) -> Result<Option<Note>, NoMemory>
        requires outlet { IsOutletOf relay.now self.old.outlet }
        ensures outlet { IsOutletOf relay.now self.new.outlet }
        ensures received { Received self.old self.new result }
        ensures inlets { SameInlets (end_of self.old.outlet) (end_of self.new.outlet) }
        ensures stopped { has_stopped self.new.outlet ≡ has_stopped self.old.outlet }
    {
        make_room(&mut self.turns)?;
        match relay.take(rt, &mut self.outlet) {
            None => Ok(None),
            Some(note) => {
                put_turn(&mut self.turns, Turn::Frame(note.client));
                Ok(Some(note))
            }
        }
    }

    /// Sends all clients what they are still to be sent.
    fn send<R: Sink>(&mut self, sinks: &mut [R])
        requires sinks { length sinks.old ≡ length self.old.engine.running.replies }
        requires flags { length self.old.failed.items ≡ length self.old.engine.running.replies }
        ensures sent { AllSend R.taken R.faults sinks.old sinks.new self.old.failed.items self.new.failed.items self.old.engine.running.replies }
        ensures kept { self.new.engine.running ≡ record self.old.engine.running { replies = replicate (length self.old.engine.running.replies) [] } }
        ensures turns { self.new.turns.items ≡ self.old.turns.items }
        ensures outlet { self.new.outlet ≡ self.old.outlet }
    {
        send_all(&mut self.engine, sinks, &mut self.failed);
    }

    /// Does `count` blocks, and writes what comes of them.
    fn do_blocks<H: Threads + Sync, R: Sink, O: Sink, G: Gate>(
        &mut self,
        rt: &H,
        alloc: Global,
        count: u32,
        sinks: &mut [R],
        sound: &mut O,
        gate: &G,
    ) -> Result<(), Halt>
        requires settled { self.old.engine.running.standing ≡ Settled }
        requires block { self.old.engine.running.block + count ≤ most_count }
        requires sinks { length sinks.old ≡ length self.old.engine.running.replies }
        requires flags { length self.old.failed.items ≡ length self.old.engine.running.replies }
        ensures played { (sinks_first : List R) (sound_first : Option (List ℕ)) (r : Running) → IsGoing R.taken R.faults sinks_first sinks.old self.old.failed.items sound_first (O.taken sound.old) r self.old.engine.running
            → PlaysTo R.taken R.faults sinks_first sinks.new self.new.failed.items sound_first (O.taken sound.new) (ticks count r) self.new.engine.running result }
        ensures stands { OnOk result (StandsOn count self.old self.new) }
        ensures sinks { length sinks.new ≡ length sinks.old }
        ensures only { result ≡ Err halts.TurnsFull → ⊥ }
        ensures counted { Counted result (O.faults sound.old) (O.faults sound.new) }
        ensures turns { self.new.turns.items ≡ self.old.turns.items }
        ensures outlet { self.new.outlet ≡ self.old.outlet }
    {
        play_blocks(
            rt,
            alloc,
            &mut self.engine,
            count,
            sinks,
            &mut self.failed,
            sound,
            gate,
        )?;
        Ok(())
    }

    /// Ends the loop if there are as many turns as there may be.
    fn check_full(&self, most: u32) -> Result<(), Halt>
        requires few { length self.now.turns.items ≤ most }
        ensures ok { OnOk result (length self.now.turns.items < most) }
        ensures full { IfErr result (λ halt. (halt ≡ halts.TurnsFull) × (length self.now.turns.items ≡ most)) }
    {
        if self.turns.len() >= most as usize {
            return Err(Halt::TurnsFull);
        }
        Ok(())
    }

    /// Takes a note, if one waits: its packet arrives, and what comes of it is sent. Returns whether one did.
    pub(crate) fn take_note<H: Wait, R: Sink>(
        &mut self,
        rt: &H,
        alloc: Global,
        relay: &Relay,
        sinks: &mut [R],
        most: u32,
    ) -> Result<bool, Halt>
        requires outlet { IsOutletOf relay.now self.old.outlet }
        requires steady { IsSteady most (length sinks.old) self.old }
        ensures outlet { IsOutletOf relay.now self.new.outlet }
        ensures plays { (first : Played) (sinks_first : List R) (sound_first sound left_first left : Option (List ℕ)) (at_zero : Bool)
            → IsPlaying R.taken R.faults first sinks_first sinks.old sound_first sound at_zero left_first left self.old
            → PlaysOn R.taken R.faults first sinks_first sinks.new sound_first sound at_zero left_first left self.new result }
        ensures steady { OnOk result (IsSteady most (length sinks.new) self.new) }
        ensures none { result ≡ Ok false → AllWereTaken (end_of self.new.outlet) }
        ensures few { length self.new.turns.items ≤ most }
        ensures full { result ≡ Err halts.TurnsFull → length self.new.turns.items ≡ most }
        ensures only { IfErr result (λ halt. (halt ≡ halts.SoundFault → ⊥) × (halt ≡ halts.Quit → ⊥)) }
        ensures inlets { SameInlets (end_of self.old.outlet) (end_of self.new.outlet) }
        ensures stopped { has_stopped self.new.outlet ≡ has_stopped self.old.outlet }
    {
        let found = self.receive(rt, relay)?;
        match found {
            None => Ok(false),
            Some(note) => {
                arrive(alloc, &mut self.engine, &note)?;
                self.send(sinks);
                self.check_full(most)?;
                Ok(true)
            }
        }
    }

    /// Takes notes, up to the first time that none waits, and no more than the relay holds.
    fn take_notes<H: Wait, R: Sink>(
        &mut self,
        rt: &H,
        alloc: Global,
        relay: &Relay,
        sinks: &mut [R],
        most: u32,
    ) -> Result<(), Halt>
        requires outlet { IsOutletOf relay.now self.old.outlet }
        requires steady { IsSteady most (length sinks.old) self.old }
        ensures outlet { IsOutletOf relay.now self.new.outlet }
        ensures plays { (first : Played) (sinks_first : List R) (sound_first sound left_first left : Option (List ℕ)) (at_zero : Bool)
            → IsPlaying R.taken R.faults first sinks_first sinks.old sound_first sound at_zero left_first left self.old
            → PlaysOn R.taken R.faults first sinks_first sinks.new sound_first sound at_zero left_first left self.new result }
        ensures steady { OnOk result (IsSteady most (length sinks.new) self.new) }
        ensures few { length self.new.turns.items ≤ most }
        ensures full { result ≡ Err halts.TurnsFull → length self.new.turns.items ≡ most }
        ensures only { IfErr result (λ halt. (halt ≡ halts.SoundFault → ⊥) × (halt ≡ halts.Quit → ⊥)) }
        ensures inlets { SameInlets (end_of self.old.outlet) (end_of self.new.outlet) }
        ensures stopped { has_stopped self.new.outlet ≡ has_stopped self.old.outlet }
    {
        for _ in 0..MOST_NOTES {
            if !self.take_note(rt, alloc, relay, sinks, most)? {
                return Ok(());
            }
        }
        Ok(())
    }

    /// Asks the pulse, and does the blocks that are due. Returns whether more may come.
    fn ask<H: Threads + Sync, R: Sink, T: Pulse, O: Sink, G: Gate>(
        &mut self,
        rt: &H,
        alloc: Global,
        sinks: &mut [R],
        pulse: &mut T,
        most: u32,
        sound: &mut O,
        gate: &G,
    ) -> Result<bool, Halt>
        requires steady { IsSteady most (length sinks.old) self.old }
        ensures plays { (first : Played) (sinks_first : List R) (sound_first left_first : Option (List ℕ))
            → IsPlaying R.taken R.faults first sinks_first sinks.old sound_first (O.taken sound.old) false left_first (T.left pulse.old) self.old
            → Asked R.taken R.faults first sinks_first sinks.new sound_first (O.taken sound.new) left_first (T.left pulse.new) self.new result }
        ensures steady { OnOk result (IsSteady most (length sinks.new) self.new) }
        ensures few { length self.new.turns.items ≤ most }
        ensures full { result ≡ Err halts.TurnsFull → length self.new.turns.items ≡ most }
        ensures zero { result ≡ Ok false → Rose (T.zeros pulse.old) (T.zeros pulse.new) }
        ensures others { result ≡ Ok true → T.zeros pulse.new ≡ T.zeros pulse.old }
        ensures unasked { OnErr result (T.zeros pulse.new ≡ T.zeros pulse.old) }
        ensures counted { Counted result (O.faults sound.old) (O.faults sound.new) }
        ensures outlet { self.new.outlet ≡ self.old.outlet }
    {
        make_room(&mut self.turns)?;
        let count = pulse.next();
        if count == 0 {
            return Ok(false);
        }
        put_turn(&mut self.turns, Turn::Ticks(count));
        self.do_blocks(rt, alloc, count, sinks, sound, gate)?;
        self.check_full(most)?;
        Ok(true)
    }

    /// Takes notes until all readers have ended and none waits.
    fn take_rest<H: Wait, R: Sink>(
        &mut self,
        rt: &H,
        alloc: Global,
        relay: &Relay,
        sinks: &mut [R],
        most: u32,
        readers: &Presence,
    ) -> Result<(), Halt>
        requires outlet { IsOutletOf relay.now self.old.outlet }
        requires steady { IsSteady most (length sinks.old) self.old }
        ensures outlet { IsOutletOf relay.now self.new.outlet }
        ensures plays { (first : Played) (sinks_first : List R) (sound_first sound left_first left : Option (List ℕ)) (at_zero : Bool)
            → IsPlaying R.taken R.faults first sinks_first sinks.old sound_first sound at_zero left_first left self.old
            → PlaysOn R.taken R.faults first sinks_first sinks.new sound_first sound at_zero left_first left self.new result }
        ensures steady { OnOk result (IsSteady most (length sinks.new) self.new) }
        ensures none { OnOk result (AllWereTaken (end_of self.new.outlet)) }
        ensures few { length self.new.turns.items ≤ most }
        ensures full { result ≡ Err halts.TurnsFull → length self.new.turns.items ≡ most }
        ensures only { IfErr result (λ halt. (halt ≡ halts.SoundFault → ⊥) × (halt ≡ halts.Quit → ⊥)) }
        ensures inlets { SameInlets (end_of self.old.outlet) (end_of self.new.outlet) }
        ensures stopped { has_stopped self.new.outlet ≡ has_stopped self.old.outlet }
    {
        for _ in rt.forever() {
            let is_over = readers.is_over();
            let is_more = self.take_note(rt, alloc, relay, sinks, most)?;
            if is_over && !is_more {
                return Ok(());
            }
            if !is_more {
                thread::yield_now();
            }
        }
        unreachable!()
    }

    /// Once the readers have begun, takes notes and asks the pulse in turn until it gives 0. Then it takes what the readers
    /// still put.
    fn run<H: Threads + Wait + Sync, R: Sink, T: Pulse, O: Sink, G: Gate>(
        &mut self,
        rt: &H,
        alloc: Global,
        relay: &Relay,
        sinks: &mut [R],
        pulse: &mut T,
        most: u32,
        sound: &mut O,
        gate: &G,
        readers: &Presence,
    ) -> Result<(), Halt>
        requires outlet { IsOutletOf relay.now self.old.outlet }
        requires steady { IsSteady most (length sinks.old) self.old }
        ensures outlet { IsOutletOf relay.now self.new.outlet }
        ensures plays { (first : Played) (sinks_first : List R) (sound_first left_first : Option (List ℕ))
            → IsPlaying R.taken R.faults first sinks_first sinks.old sound_first (O.taken sound.old) false left_first (T.left pulse.old) self.old
            → RunsTo R.taken R.faults first sinks_first sinks.new sound_first (O.taken sound.new) left_first (T.left pulse.new) (T.zeros pulse.old) (T.zeros pulse.new) self.new result }
        ensures steady { OnOk result (IsSteady most (length sinks.new) self.new) }
        ensures few { length self.new.turns.items ≤ most }
        ensures full { result ≡ Err halts.TurnsFull → length self.new.turns.items ≡ most }
        ensures zero { OnOk result (Rose (T.zeros pulse.old) (T.zeros pulse.new)) }
        ensures counted { Counted result (O.faults sound.old) (O.faults sound.new) }
        ensures inlets { SameInlets (end_of self.old.outlet) (end_of self.new.outlet) }
        ensures stopped { has_stopped self.new.outlet ≡ has_stopped self.old.outlet }
    {
        readers.wait_for_begin(rt)?;
        for _ in rt.forever() {
            self.take_notes(rt, alloc, relay, sinks, most)?;
            let more = self.ask(rt, alloc, sinks, pulse, most, sound, gate)?;
            if !more {
                return self.take_rest(rt, alloc, relay, sinks, most, readers);
            }
        }
        unreachable!()
    }

    /// The same, and then tells the readers to stop, and the watcher that the session ended, unless it ended at the 0
    /// of the pulse.
    pub(crate) fn play<H: Threads + Wait + Sync, R: Sink, T: Pulse, O: Sink, G: Gate, U: Watcher>(
        &mut self,
        rt: &H,
        alloc: Global,
        relay: &Relay,
        sinks: &mut [R],
        pulse: &mut T,
        most: u32,
        sound: &mut O,
        gate: &G,
        readers: &Presence,
        watcher: &U,
    ) -> Result<(), Halt>
        requires outlet { IsOutletOf relay.now self.old.outlet }
        requires steady { IsSteady most (length sinks.old) self.old }
        ensures { HasPlayed R.taken R.faults O.taken O.faults T.left T.zeros relay.now most self.old self.new sinks.old sinks.new sound.old sound.new pulse.old pulse.new result }
    {
        match self.run(rt, alloc, relay, sinks, pulse, most, sound, gate, readers) {
            Ok(()) => Ok(()),
            Err(halt) => {
                relay.stop(&mut self.outlet);
                watcher.session_ended();
                Err(halt)
            }
        }
    }

    /// One more boundary, and what it makes is sent.
    fn last_boundary<R: Sink>(&mut self, alloc: Global, sinks: &mut [R]) -> Result<(), Halt>
        requires settled { self.old.engine.running.standing ≡ Settled }
        requires sinks { length sinks.old ≡ length self.old.engine.running.replies }
        requires flags { length self.old.failed.items ≡ length self.old.engine.running.replies }
        ensures closed { Closed R.taken R.faults sinks.old sinks.new self.old.failed.items self.new.failed.items self.old.engine.running result }
        ensures turns { self.new.turns.items ≡ self.old.turns.items }
        ensures outlet { self.new.outlet ≡ self.old.outlet }
    {
        let flow = self.engine.boundary(alloc)?;
        self.send(sinks);
        match flow {
            Flow::On => Ok(()),
            Flow::Quit => Err(Halt::Quit),
        }
    }

    /// Takes what is left once all inlets were gathered, and does the last boundary.
    pub(crate) fn finish<H: Wait, R: Sink>(
        &mut self,
        rt: &H,
        alloc: Global,
        relay: &Relay,
        sinks: &mut [R],
        most: u32,
        readers: &Presence,
    ) -> Result<(), Halt>
        requires outlet { IsOutletOf relay.now self.old.outlet }
        requires steady { IsSteady most (length sinks.old) self.old }
        ensures closes { (first : Played) (sinks_first : List R) (sound_first sound left_first left : Option (List ℕ))
            → IsPlaying R.taken R.faults first sinks_first sinks.old sound_first sound true left_first left self.old
            → Closes R.taken R.faults first sinks_first sinks.new sound_first sound left_first left self.new result }
        ensures none { OnOk result (AllWereTaken (end_of self.new.outlet)) }
        ensures few { length self.new.turns.items ≤ most }
        ensures over { OnOk result (length self.new.turns.items < most) }
        ensures full { result ≡ Err halts.TurnsFull → length self.new.turns.items ≡ most }
        ensures only { result ≡ Err halts.SoundFault → ⊥ }
        ensures inlets { SameInlets (end_of self.old.outlet) (end_of self.new.outlet) }
    {
        self.take_rest(rt, alloc, relay, sinks, most, readers)?;
        self.last_boundary(alloc, sinks)
    }

    /// Finishes a session whose loop ended at the 0 of the pulse. One that ended otherwise stays as it is.
    pub(crate) fn end<H: Wait, R: Sink>(
        &mut self,
        rt: &H,
        alloc: Global,
        relay: &Relay,
        sinks: &mut [R],
        most: u32,
        played: Result<(), Halt>,
    ) -> Result<(), Halt>
        requires outlet { IsOutletOf relay.now self.old.outlet }
        requires steady { OnOk played (IsSteady most (length sinks.old) self.old) }
        requires few { length self.old.turns.items ≤ most }
        requires full { played ≡ Err halts.TurnsFull → length self.old.turns.items ≡ most }
        ensures ends { (first : Played) (sinks_first : List R) (sound_first sound left_first left : Option (List ℕ)) (zeros_first zeros_now : ℕ)
            → RunsTo R.taken R.faults first sinks_first sinks.old sound_first sound left_first left zeros_first zeros_now self.old played
            → EndsTo R.taken R.faults first sinks_first sinks.new sound_first sound left_first left zeros_first zeros_now self.new result }
        ensures none { OnOk result (AllWereTaken (end_of self.new.outlet)) }
        ensures was { OnOk result (played ≡ Ok tt) }
        ensures few { length self.new.turns.items ≤ most }
        ensures over { OnOk result (length self.new.turns.items < most) }
        ensures full { result ≡ Err halts.TurnsFull → length self.new.turns.items ≡ most }
        ensures counted { (before now : ℕ) → Counted played before now → Counted result before now }
        ensures inlets { SameInlets (end_of self.old.outlet) (end_of self.new.outlet) }
    {
        match played {
            Ok(()) => self.finish(rt, alloc, relay, sinks, most, &Presence::new(0)),
            Err(halt) => Err(halt),
        }
    }
}
