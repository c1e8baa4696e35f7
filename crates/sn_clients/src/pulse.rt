//! What says how many blocks are due.
ghost use Rattle.std.specs.Prelude.{◌≡◌, ◌≢◌, ◌≤◌, List, ℕ, All, Some};
ghost use Rattle.std.specs.declared.option.Option.{Option};
ghost use Rattle.sn_ports.specs.Causes.{Rose};
ghost use Rattle.sn_ports.specs.Limits.{most_ticks};
ghost use Rattle.sn_clients.specs.Pulses.{Gives};

use std::marker::Model;

/// Says how many blocks are due, again and again.
pub trait Pulse {
    /// The numbers that are left, if it tells them.
    ghost left: { Self → Option (List ℕ) };

    /// How often it gave 0. A call that gives 0 raises the count while it is below 2^64 - 1, and no other does.
    ghost zeros: { Self → ℕ };

    /// The number of blocks that are due next, up to the most at once. 0 says that no more come.
    fn next(&mut self) -> u32
        ensures bound { result ≤ most_ticks }
        ensures left { Gives (left self.old) (left self.new) result }
        ensures zero { result ≡ 0 → Rose (zeros self.old) (zeros self.new) }
        ensures others { result ≢ 0 → zeros self.new ≡ zeros self.old };
}

/// A pulse that gives the numbers of a list, and then 0.
#[derive(Debug, Drop)]
pub struct ListPulse {
    numbers: Vec<u32>,
    at: usize,
    zeros: u64,
}

impl Model for ListPulse {
    ghost use Rattle.std.specs.Prelude.{◌≤◌, All, drop, length};
    ghost use Rattle.sn_ports.specs.Limits.{most_ticks};
    ghost use Rattle.sn_clients.specs.Pulses.{Pulsed};

    ghost Value = { Pulsed };

    ghost view = { λ p. record { left = drop p.at p.numbers.items; zeros = p.zeros } };

    ghost invariant = { λ p. (p.at ≤ length p.numbers.items) × All (λ n. n ≤ most_ticks) p.numbers.items };
}

impl ListPulse {
    /// A pulse of these numbers, none of them above the most at once.
    pub fn new(numbers: Vec<u32>) -> Self
        requires { All (λ n. n ≤ most_ticks) numbers.items }
        ensures { result ≡ record { left = numbers.items; zeros = 0 } }
    {
        ListPulse {
            numbers,
            at: 0,
            zeros: 0,
        }
    }
}

impl Pulse for ListPulse {
    ghost left = { λ p. Some p.left };

    ghost zeros = { λ p. p.zeros };

    fn next(&mut self) -> u32 {
        let Some(number) = self.numbers.get(self.at) else {
            self.zeros = self.zeros.saturating_add(1);
            return 0;
        };
        let number = *number;
        self.at += 1;
        if number == 0 {
            self.zeros = self.zeros.saturating_add(1);
        }
        number
    }
}
