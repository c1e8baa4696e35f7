//! Jobs that mix their words with those of earlier jobs.
ghost use Rattle.std.specs.Prelude.{◌≡◌, ◌<◌, length};
ghost use Rattle.sn_mem.specs.Words.{writes, touches, SameButWords};
ghost use Rattle.sn_workers.specs.Mixing.{mix, seen};

use sn_machine::{may_touch, may_write};
use sn_mem::{Foot, Port, Scratch};
use sn_round::{Plan, Work};

/// A job mixes in the word of the job this many before it, or of the first one; and so it does for `FAR`.
pub const NEAR: u32 = 5;

pub const FAR: u32 = 8;

/// A mix of three words. It depends on their order.
pub fn mix(own: u64, near: u64, far: u64) -> u64
    ensures { result ≡ mix own near far }
{
    own.wrapping_mul(31)
        .wrapping_add(near)
        .wrapping_mul(31)
        .wrapping_add(far)
        .wrapping_add(1)
}

/// The word at a place, or 0 if the foot does not touch it.
fn seen<P: Port>(port: &mut P, foot: &Foot, at: u32) -> u64
    requires { P.foot port.old ≡ foot.now }
    ensures word { result ≡ seen foot.now (P.words port.old) at }
    ensures same { P.words port.new ≡ P.words port.old }
    ensures port { SameButWords P.foot P.rest port.old port.new }
{
    if may_touch(foot, u64::from(at)) {
        port.load(at)
    } else {
        0
    }
}

/// The work of a plan whose job `j` writes word `j`.
#[derive(Drop)]
pub struct Mixing<'a> {
    pub plan: &'a Plan,
}

impl Work for Mixing<'_> {
    ghost use Rattle.std.specs.Prelude.{length};
    ghost use Rattle.sn_round.specs.Jobs.{foot_at};
    ghost use Rattle.sn_workers.specs.Mixing.{mixed, mixed_long, mixed_else, mixed_by_foot};
    ghost use Rattle.sn_workers.specs.Ready.{Always};

    ghost jobs = { λ w. length w.plan.now };

    ghost foot_of = { λ w j. foot_at w.plan.now j };

    ghost outcome = { λ w j ws. mixed (foot_at w.plan.now j) j ws };

    ghost ready = { λ _. Always };

    fn foot(&self, job: u32) -> &Foot {
        self.plan.foot(job)
    }

    fn run<P: Port>(&self, job: u32, port: &mut P, _scratch: &mut Scratch) {
        let foot = self.plan.foot(job);
        let own = seen(port, foot, job);
        let near = seen(port, foot, job.saturating_sub(NEAR));
        let far = seen(port, foot, job.saturating_sub(FAR));
        if may_write(foot, u64::from(job)) {
            port.store(job, mix(own, near, far));
        }
    }

    ghost as_long = { λ w j ws l. mixed_long (foot_at w.plan.now j) j ws };

    ghost only_writes = { λ w j x ws l off. mixed_else (foot_at w.plan.now j) j x ws off };

    ghost by_foot = { λ w j us ws l e same x wr. mixed_by_foot (foot_at w.plan.now j) j us ws e same x wr };
}
