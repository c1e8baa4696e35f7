//! The calls of a relay.
ghost use Rattle.std.specs.Prelude.{◌≡◌, ◌+◌, ◌^◌, ◌<◌, ◌≤◌, [], false, true, length, IfErr, IfNone, IfOk, IfSome, OnErr, OnOk};
ghost use Rattle.sn_ports.specs.Limits.{most_clients, most_relayed};
ghost use Rattle.crossbeam_queue.specs.Fifo.{Held};
ghost use Rattle.sn_clients.specs.declared.ends.End.TheVariants.{Out};
ghost use Rattle.sn_clients.specs.Notes.{frames_of, IsFront};
ghost use Rattle.sn_clients.specs.Ends.{clients_in, taken_in, with_frame, with_gathered, with_inlet};
ghost use Rattle.sn_clients.specs.Delivery.{AllWereTaken, InletMoment, Moment, Taken};
ghost use Rattle.sn_clients.specs.Answers.{AreNewInlets, IsInletOf, IsNewInlet, IsNewOutlet, IsOutletOf, end_of, has_found, has_stopped, room_of, sender_of};

use crate::notes::{Full, Note, Sent};
use crate::rule::{Gathers, Puts, Queue, Seats, Takes};
use crate::seats::{Inlet, Inlets, Outlet, Relay};
use crate::stopping::{Hears, Looks, Sets, StopTable};
use sn_ports::{NoMemory, Text};
use std::alloc::Global;
use std::sync::Wait;

impl Relay {
    /// A relay with an inlet for each of `clients` clients, client 0's first. It holds `room` notes at most.
    pub fn open(alloc: Global, clients: u32, room: u32) -> Result<(Relay, Inlets, Outlet), NoMemory>
        requires clients { (1 ≤ clients) × (clients ≤ most_clients) }
        requires room { (1 ≤ room) × (room ≤ most_relayed) }
        ensures room { IfOk result (λ r. room_of r.0 ≡ room) }
        ensures inlets { IfOk result (λ r. (length r.1.items ≡ clients) × AreNewInlets r.0 r.1.items) }
        ensures outlet { IfOk result (λ r. IsNewOutlet r.0 clients r.2) }
    {
        let (queue, pass) = Queue::ruled(alloc, room as usize)?;
        let (stop, seat) = StopTable::of_words(alloc, &[0u64], &())?;
        let relay = Relay { queue, stop };
        let mut outlet = Outlet { pass, seat };
        let inlets = relay.make_inlets(alloc, &mut outlet, clients)?;
        Ok((relay, inlets, outlet))
    }

    /// Makes an inlet for each of `clients` clients.
    fn make_inlets(
        &self,
        alloc: Global,
        outlet: &mut Outlet,
        clients: u32,
    ) -> Result<Inlets, NoMemory>
        requires outlet { IsNewOutlet self.now 0 outlet.old }
        ensures outlet { OnOk result (IsNewOutlet self.now clients outlet.new) }
        ensures count { IfOk result (λ inlets. length inlets.items ≡ clients) }
        ensures inlets { IfOk result (λ inlets. AreNewInlets self.now inlets.items) }
    {
        let mut inlets = Vec::new(alloc);
        for client in 0..clients {
            let inlet = self.make_inlet(outlet, client);
            inlets.push(inlet)?;
        }
        Ok(inlets)
    }

    /// Makes the next client's inlet.
    fn make_inlet(&self, outlet: &mut Outlet, client: u32) -> Inlet
        requires outlet { IsOutletOf self.now outlet.old }
        requires next { clients_in (end_of outlet.old) ≡ client }
        ensures outlet { IsOutletOf self.now outlet.new }
        ensures end { end_of outlet.new ≡ with_inlet (end_of outlet.old) }
        ensures stopped { has_stopped outlet.new ≡ has_stopped outlet.old }
        ensures inlet { IsNewInlet self.now client result }
    {
        let pass = self.queue.another::<Seats>(&mut outlet.pass);
        let seat = self.stop.shared.split_seat::<Seats>(&mut outlet.seat);
        Inlet {
            pass,
            seat,
            client,
            count: 0,
        }
    }

    /// Puts a frame of the inlet's client after all that was put.
    ///
    /// `Full` gives the frame back. It comes only if there is a moment, with what this inlet has put, at which as many
    /// notes wait as may, each put by an inlet of this relay and not yet taken.
    pub fn put<H: Wait>(&self, rt: &H, inlet: &mut Inlet, frame: Text) -> Result<(), Full>
        requires inlet { IsInletOf self.now inlet.old }
        requires few { length (sender_of inlet.old).frames + 1 < 2 ^ 32 }
        ensures inlet { IsInletOf self.now inlet.new }
        ensures put { OnOk result (sender_of inlet.new ≡ with_frame (sender_of inlet.old) frame.bytes) }
        ensures same { OnErr result (sender_of inlet.new ≡ sender_of inlet.old) }
        ensures back { IfErr result (λ full. full.frame ≡ frame) }
        ensures full { OnErr result (Held (room_of self.now) (InletMoment (sender_of inlet.old))) }
        ensures found { has_found inlet.new ≡ has_found inlet.old }
    {
        let note = Note {
            client: inlet.client,
            number: inlet.count,
            frame,
        };
        match self.queue.push_as::<Puts, H>(rt, &mut inlet.pass, note) {
            Ok(()) => {
                inlet.count += 1;
                Ok(())
            }
            Err(note) => Err(Full { frame: note.frame }),
        }
    }

    /// Takes the note that was put first of those that wait.
    ///
    /// `None` comes only if there is a moment, with what this outlet has taken, at which no note waits: all that the
    /// relay's inlets have put was taken. Of each inlet that was gathered before, that is all that it put.
    pub fn take<H: Wait>(&self, rt: &H, outlet: &mut Outlet) -> Option<Note>
        requires outlet { IsOutletOf self.now outlet.old }
        ensures outlet { IsOutletOf self.now outlet.new }
        ensures taken { IfSome result (λ note. Taken (end_of outlet.old) note (end_of outlet.new)) }
        ensures same { IfNone result (end_of outlet.new ≡ end_of outlet.old) }
        ensures moment { IfNone result (Held 0 (Moment 0 (end_of outlet.old))) }
        ensures empty { IfNone result (AllWereTaken (end_of outlet.old)) }
        ensures stopped { has_stopped outlet.new ≡ has_stopped outlet.old }
    {
        self.queue.pop_as::<Takes, H>(rt, &mut outlet.pass)
    }

    /// Ends an inlet. The frames that were taken of its client are the first of those that it put.
    pub fn gather(&self, outlet: &mut Outlet, inlet: Inlet) -> Sent
        requires outlet { IsOutletOf self.now outlet.old }
        requires inlet { IsInletOf self.now inlet }
        ensures outlet { IsOutletOf self.now outlet.new }
        ensures sent { (result.client ≡ (sender_of inlet).client) × (result.count ≡ length (sender_of inlet).frames) }
        ensures end { end_of outlet.new ≡ with_gathered (end_of outlet.old) (sender_of inlet) }
        ensures front { IsFront (frames_of (sender_of inlet).client (taken_in (end_of outlet.old))) (sender_of inlet).frames }
        ensures stopped { has_stopped outlet.new ≡ has_stopped outlet.old }
        // If the inlet had found the stop word set, the outlet had set it.
        ensures found { has_found inlet ≡ true → has_stopped outlet.old ≡ true }
    {
        let Inlet {
            pass,
            seat,
            client,
            count,
        } = inlet;
        self.queue.absorb::<Gathers>(&mut outlet.pass, pass);
        self.queue.learn_as::<Takes>(&mut outlet.pass);
        self.stop
            .shared
            .join_seat::<Gathers>(&mut outlet.seat, seat);
        self.stop.shared.load::<Hears>(&mut outlet.seat, 0);
        Sent { client, count }
    }

    /// Sets the stop word, once or again.
    pub fn stop(&self, outlet: &mut Outlet)
        requires outlet { IsOutletOf self.now outlet.old }
        ensures outlet { IsOutletOf self.now outlet.new }
        ensures end { end_of outlet.new ≡ end_of outlet.old }
        ensures stopped { has_stopped outlet.new ≡ true }
    {
        self.stop.shared.store::<Sets>(&mut outlet.seat, 0, 1);
    }

    /// Whether the stop word is set. Once set, it stays set.
    pub fn stopped(&self, inlet: &mut Inlet) -> bool
        requires inlet { IsInletOf self.now inlet.old }
        ensures inlet { IsInletOf self.now inlet.new }
        ensures same { sender_of inlet.new ≡ sender_of inlet.old }
        ensures found { has_found inlet.new ≡ result }
        ensures stays { has_found inlet.old ≡ true → result ≡ true }
    {
        self.stop.shared.load::<Looks>(&mut inlet.seat, 0) == 1
    }
}

impl Inlet {
    /// How many frames it has put.
    pub fn count(&self) -> u32
        ensures { result ≡ length (sender_of self.now).frames }
    {
        self.count
    }
}
