//! A port of the words below a number.
ghost use Rattle.std.specs.Prelude.{◌≡◌};

use crate::extents::Foot;
use crate::port::Port;
use std::collections::LinkedList;

/// What calls of such a port leave as it is: the type of a value of which contracts alone speak. No value of it is
/// made when the program runs, so its linked list is never built.
pub struct BelowRest<R> {
    /// The name of the reference to the port.
    pub port: u64,
    /// The number below which words may be touched.
    pub end: u64,
    /// What may be read and written on the port.
    pub foot: Foot,
    /// What the port itself keeps.
    pub rest: R,
    /// The words from that number on.
    pub past: LinkedList<u64>,
}

/// A port of which only words below a number may be touched. The others stay as they are, and `rest` says so.
pub struct Below<'a, P> {
    /// The port.
    pub port: &'a mut P,
    /// The number.
    pub end: u32,
}

impl<'a, P: Port> Below<'a, P> {
    /// The port, of which the words below `end` may be touched.
    pub fn new(port: &'a mut P, end: u32) -> Below<'a, P>
        ensures same_reference { result.port.ghost_name ≡ port.entry.ghost_name }
        ensures same { result.port.now ≡ port.old }
        ensures end { result.end ≡ end }
    {
        Below { port, end }
    }
}

impl<P> Drop for Below<'_, P> {
    fn drop(self)
        ensures { self.exit.0.now ≡ self.entry.port.now }
    {
        let Below { port: _, end: _ } = self;
    }
}

impl<P: Port> Port for Below<'_, P> {
    ghost use Rattle.std.specs.Prelude.{drop};
    ghost use Rattle.sn_mem.specs.Under.{foot_below};

    type Rest = BelowRest<P::Rest>;

    ghost words = { λ p. P.words p.port.now };

    ghost foot = { λ p. foot_below p.end (P.foot p.port.now) };

    ghost rest = { λ p. record { port = p.port.ghost_name; end = p.end; foot = P.foot p.port.now; rest = P.rest p.port.now; past = drop p.end (P.words p.port.now) } };

    fn load(&mut self, at: u32) -> u64 {
        self.port.load(at)
    }

    fn store(&mut self, at: u32, value: u64) {
        self.port.store(at, value);
    }

    ghost use Rattle.sn_mem.specs.Under.{touched_below};

    ghost inside = { λ p x t. P.inside p.port.now x (touched_below p.end (P.foot p.port.now) x t).1 };
}
