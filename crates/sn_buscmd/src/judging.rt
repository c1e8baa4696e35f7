//! Repetitions that are judged before any of them acts.
ghost use Rattle.std.specs.Prelude.{◌≡◌, ◌+◌, ◌*◌, ◌<◌, nat_abs, None};
ghost use Rattle.sn_mem.specs.Layout.{audio_words, bus_words, control_bus_words};
ghost use Rattle.sn_world.specs.Rows.{first_refusal};
ghost use Rattle.sn_world.specs.Buses.{is_bus, is_run, bus_refusal, run_refusal};
ghost use Rattle.sn_world.specs.BufferNumbers.{is_number};

use sn_mem::Places;
use sn_ports::limits::CONTROL_BUS_COUNT;
use sn_reply::Reason;
use sn_world::{BusFill, BusNumber, BusValue, Run, ValueRun};

/// What a message repeats, if no repetition changes what is against another. It is judged by itself, or by something
/// that is the same for all of them, as the number of samples of a buffer.
pub trait Judged<By> {
    ghost use Rattle.std.specs.Prelude.{Option, ◌≡◌};
    ghost use Rattle.sn_reply.specs.declared.reason.Reason.{Reason};

    ghost judge: { By → Self → Option Reason };

    /// The reason against it.
    fn refusal(&self, by: By) -> Option<Reason>
        ensures { result ≡ judge by self.now };
}

/// How many control buses there are.
const BUSES: u64 = CONTROL_BUS_COUNT as u64;

/// No control bus and no buffer has this number or a higher one: there are as many of each.
const END: i32 = CONTROL_BUS_COUNT as i32;

/// Whether a control bus has the number, and a buffer may have it.
pub fn is_number(number: i32) -> bool
    ensures bus { result ≡ is_bus number }
    ensures buffer { result ≡ is_number number }
{
    0 <= number && number < END
}

fn bus_refusal(bus: i32) -> Option<Reason>
    ensures { result ≡ bus_refusal bus }
{
    if !is_number(bus) {
        return Some(Reason::Bus);
    }
    None
}

/// The word that holds the value of a control bus.
pub fn value_place(bus: i32) -> u32
    requires { bus_refusal bus ≡ None }
    ensures place { result ≡ audio_words + control_bus_words * nat_abs bus + 1 }
    ensures below { result < bus_words }
{
    Places::control(bus as u32).at + 1
}

fn is_run(bus: i32, count: u64) -> bool
    ensures { result ≡ is_run bus count }
{
    if bus < 0 {
        return false;
    }
    let first = bus as u64;
    first < BUSES && count <= BUSES - first
}

fn run_refusal(bus: i32, count: u64) -> Option<Reason>
    ensures { result ≡ run_refusal bus count }
{
    if !is_run(bus, count) {
        return Some(Reason::Bus);
    }
    None
}

impl Judged<()> for BusValue {
    ghost judge = { λ by r. bus_refusal r.bus };

    fn refusal(&self, _by: ()) -> Option<Reason> {
        bus_refusal(self.bus)
    }
}

impl Judged<()> for BusNumber {
    ghost judge = { λ by r. bus_refusal r.bus };

    fn refusal(&self, _by: ()) -> Option<Reason> {
        bus_refusal(self.bus)
    }
}

impl Judged<()> for BusFill {
    ghost judge = { λ by r. run_refusal r.bus r.count };

    fn refusal(&self, _by: ()) -> Option<Reason> {
        run_refusal(self.bus, u64::from(self.count))
    }
}

impl Judged<()> for Run {
    ghost judge = { λ by r. run_refusal r.first r.count };

    fn refusal(&self, _by: ()) -> Option<Reason> {
        run_refusal(self.first, u64::from(self.count))
    }
}

impl Judged<()> for ValueRun {
    ghost use Rattle.std.specs.Prelude.{length};

    ghost judge = { λ by r. run_refusal r.first (length r.values) };

    fn refusal(&self, _by: ()) -> Option<Reason> {
        run_refusal(self.first(), self.values().len() as u64)
    }
}

/// The first reason against any of the repetitions.
pub fn first_refusal<By: Copy, R: Judged<By>>(repetitions: &[R], by: By) -> Option<Reason>
    ensures { result ≡ first_refusal (R.judge by) repetitions.now }
{
    for repetition in repetitions {
        if let Some(reason) = repetition.refusal(by) {
            return Some(reason);
        }
    }
    None
}
