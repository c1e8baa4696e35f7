//! The rule of a relay's queue, and what each step on it tells.
use crate::ends::{End, Sight};
use crate::notes::Note;
use crossbeam_queue::protocol::{Join, Lesson, Outcome, Protocol, Split};
use crossbeam_queue::{Pass, RuledArrayQueue};

pub struct Delivery;

impl Protocol<Note, End> for Delivery {
    ghost use Rattle.sn_clients.specs.Ends.{new_outlet};
    ghost use Rattle.sn_clients.specs.Delivery.{Delivers};

    ghost holds = { Delivers };

    ghost first = { new_outlet };
}

pub type Queue = RuledArrayQueue<Note, End, Delivery>;

pub type QueuePass = Pass<Note, End>;

/// An inlet puts a note.
pub(crate) struct Puts;

impl Outcome<Note, End> for Puts {
    ghost use Rattle.sn_clients.specs.Delivery.{Put};

    ghost then = { Put };
}

impl Lesson<Note, End> for Puts {
    ghost use Rattle.sn_clients.specs.Delivery.{InletMoment};
    ghost use Rattle.sn_clients.specs.Ends.{sender_in};

    ghost fact = { λ e. InletMoment (sender_in e) };
}

/// The outlet takes a note.
pub(crate) struct Takes;

impl Outcome<Note, End> for Takes {
    ghost use Rattle.sn_clients.specs.Delivery.{Taken};

    ghost then = { Taken };
}

impl Lesson<Note, End> for Takes {
    ghost use Rattle.sn_clients.specs.Delivery.{Moment};

    ghost fact = { λ e. Moment 0 e };
}

/// An inlet is made for the next client.
pub(crate) struct Seats;

impl Split<End> for Seats {
    ghost use Rattle.sn_clients.specs.Ends.{with_inlet, next_inlet};

    ghost left = { with_inlet };

    ghost right = { next_inlet };
}

impl Split<Sight> for Seats {
    ghost use Rattle.sn_clients.specs.StopWord.{next_finder};

    ghost left = { λ sight. sight };

    ghost right = { λ sight. next_finder };
}

/// An inlet is gathered.
pub(crate) struct Gathers;

impl Join<End> for Gathers {
    ghost use Rattle.sn_clients.specs.Ends.{with_gathered, gone, sender_in};

    ghost both = { λ e f. with_gathered e (sender_in f) };

    ghost spent = { gone };
}

impl Join<Sight> for Gathers {
    ghost use Rattle.sn_clients.specs.StopWord.{with_found, shut};

    ghost both = { with_found };

    ghost spent = { shut };
}
