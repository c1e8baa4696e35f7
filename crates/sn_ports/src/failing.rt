//! Calls that fail by their numbers, and the count of failures.
ghost use Rattle.std.specs.Prelude.{◌≡◌, ◌≤◌, ◌↔◌, IsTrue, IfOk, OnOk, OnErr, is_err};
ghost use Rattle.sn_ports.specs.Causes.{HasCause, Rose};
ghost use Rattle.sn_ports.specs.Fake.{FailsNext, counted};

use crate::calls::Calls;
use crate::failed::Failed;
use std::io;

/// Which calls fail, and how many calls and failures there have been.
#[derive(Debug, Drop)]
pub(crate) struct Failing {
    /// The numbers of the calls that fail, from 0.
    pub(crate) fails: Calls,
    /// How many calls there have been, up to 2^32 - 1, which is the number of each later call.
    pub(crate) calls: u32,
    /// How many calls failed.
    pub(crate) faults: u64,
}

impl Failing {
    /// No call was made yet.
    pub(crate) fn new(fails: Calls) -> Self
        ensures fails { result.fails ≡ fails }
        ensures calls { result.calls ≡ 0 }
        ensures faults { result.faults ≡ 0 }
    {
        Failing {
            fails,
            calls: 0,
            faults: 0,
        }
    }

    /// Counts a call, and returns whether it is one of those that fail.
    pub(crate) fn begins(&mut self) -> bool
        ensures fails { IsTrue result ↔ FailsNext self.old.fails self.old.calls }
        ensures calls { self.new.calls ≡ counted 32 self.old.calls }
        ensures listed { self.new.fails ≡ self.old.fails }
        ensures faults { self.new.faults ≡ self.old.faults }
    {
        let call = self.calls;
        self.calls = call.saturating_add(1);
        self.fails.contains(call)
    }

    /// Counts a failure.
    pub(crate) fn fail(&mut self) -> Failed
        ensures later { self.old.faults ≤ self.new.faults }
        ensures rose { Rose self.old.faults self.new.faults }
        ensures once { self.new.faults ≡ counted 64 self.old.faults }
        ensures listed { self.new.fails ≡ self.old.fails }
        ensures calls { self.new.calls ≡ self.old.calls }
    {
        self.faults = self.faults.saturating_add(1);
        Failed
    }
}

/// What a file answered. If the file failed, that is counted.
pub(crate) fn told(answer: io::Result<usize>, faults: &mut u64) -> Result<usize, Failed>
    ensures fails { IsTrue (is_err result) ↔ IsTrue (is_err answer) }
    ensures count { IfOk result (λ n. IfOk answer (λ m. n ≡ m)) }
    ensures cause { HasCause faults.old faults.new result }
    ensures once { OnErr result (faults.new ≡ counted 64 faults.old) }
    ensures unfailed { OnOk result (faults.new ≡ faults.old) }
{
    match answer {
        Ok(count) => Ok(count),
        Err(_) => {
            *faults = faults.saturating_add(1);
            Err(Failed)
        }
    }
}
