//! What the jobs of a round do.
ghost use Rattle.std.specs.Prelude.{◌≡◌, ◌<◌, ℕ, List, true, false, length, slice_index};
ghost use Rattle.sn_mem.specs.Words.{writes, touches, SameButWords};

use sn_mem::{Foot, Port, Scratch};

/// What the jobs of a round do with the words.
pub trait Work: Sync {
    ghost use Rattle.sn_mem.specs.declared.extents.Foot.{Foot};

    /// The number of jobs.
    ghost jobs: { Self → ℕ };

    /// What a job may touch.
    ghost foot_of: { Self → ℕ → Foot };

    /// The words after a job.
    ghost outcome: { Self → ℕ → List ℕ → List ℕ };

    /// The jobs may run.
    ghost ready: { Self → Type 0 };

    /// What a job may read and write.
    fn foot(&self, job: u32) -> &Foot
        requires { job < jobs self.now }
        ensures { result.now ≡ foot_of self.now job };

    /// Runs a job over a port of its foot.
    fn run<P: Port>(&self, job: u32, port: &mut P, scratch: &mut Scratch)
        requires ready { ready self.now }
        requires job { job < jobs self.now }
        requires foot { P.foot port.old ≡ foot_of self.now job }
        ensures words { P.words port.new ≡ outcome self.now job (P.words port.old) }
        ensures port { SameButWords P.foot P.rest port.old port.new };

    /// A job keeps the number of words.
    ghost as_long: { (w : Self) (j : ℕ) (ws : List ℕ) → j < jobs w → length (outcome w j ws) ≡ length ws };

    /// It changes only what it may write.
    ghost only_writes: { (w : Self) (j x : ℕ) (ws : List ℕ) → j < jobs w → writes (foot_of w j) x ≡ false → slice_index (outcome w j ws) x ≡ slice_index ws x };

    /// What it writes depends on what it may touch alone.
    ghost by_foot: { (w : Self) (j : ℕ) (us ws : List ℕ) → j < jobs w → length us ≡ length ws → ((x : ℕ) → touches (foot_of w j) x ≡ true → slice_index us x ≡ slice_index ws x)
        → (x : ℕ) → writes (foot_of w j) x ≡ true → slice_index (outcome w j us) x ≡ slice_index (outcome w j ws) x };
}
