//! Laws of unrolled plans.
ghost use Rattle.std.specs.Prelude.{◌≡◌, ◌<◌, ◌≤◌, ◌+◌, ◌*◌, ◌^◌, ◌==◌, ◌++◌, ◌∷◌, [], if◌then◌else◌, ℕ, List, true, length, map};
ghost use Rattle.sn_ports.specs.Limits.{block_samples};
ghost use Rattle.sn_mem.specs.declared.extents.Extent.{Extent};
ghost use Rattle.sn_mem.specs.Words.{has};
ghost use Rattle.sn_round.specs.declared.jobs.Job.{Job};
ghost use Rattle.sn_round.specs.Jobs.{AreJobs, AreWithin, IsRaceFree, Ordered, job_at, successors};
ghost use Rattle.sn_span.specs.Unrolling.{by_block, capture_of, entries, job_in, last_jobs, start, unrolled};

/// A law: a plan in so many blocks has the jobs and a capture for each block. It is a list of jobs, and it is free of
/// races if the plan is.
pub fn unrolled_is_race_free()
    ensures count { (jobs : List Job) (outputs : List Extent) (at blocks : ℕ) → length (unrolled jobs outputs at blocks) ≡ start (length jobs) blocks }
    ensures jobs { (jobs : List Job) (outputs : List Extent) (at blocks : ℕ) → AreJobs jobs → start (length jobs) blocks < 2 ^ 32 → AreJobs (unrolled jobs outputs at blocks) }
    ensures race_free { (jobs : List Job) (outputs : List Extent) (at blocks : ℕ) → AreJobs jobs → IsRaceFree jobs → IsRaceFree (unrolled jobs outputs at blocks) }
{}

/// A law: job i of block k is that of the plan, with its foot and with its predecessors in the block. The capture of
/// block k comes after the block's jobs.
pub fn unrolled_goes_by_blocks()
    ensures jobs { (jobs : List Job) (outputs : List Extent) (at blocks k i : ℕ) → k < blocks → i < length jobs
        → job_at (unrolled jobs outputs at blocks) (start (length jobs) k + i) ≡ job_in jobs k i }
    ensures captures { (jobs : List Job) (outputs : List Extent) (at blocks k : ℕ) → k < blocks
        → job_at (unrolled jobs outputs at blocks) (start (length jobs) k + length jobs) ≡ capture_of jobs outputs at k }
{}

/// A law: what goes by blocks is that of job i and block k at the number of this job, and that of the capture at the
/// number of the capture of block k.
pub fn numbers_tell_blocks()
    ensures job { (job : ℕ → ℕ → List ℕ → List ℕ) (capture : ℕ → List ℕ → List ℕ) (n k i : ℕ) → i < n → by_block job capture n (start n k + i) ≡ job k i }
    ensures capture { (job : ℕ → ℕ → List ℕ → List ℕ) (capture : ℕ → List ℕ → List ℕ) (n k : ℕ) → by_block job capture n (start n k + n) ≡ capture k }
{}

/// A law: the capture of a block is ordered after each job of its block, and before each job and capture of the later
/// blocks.
pub fn captures_are_barriers()
    ensures after { (jobs : List Job) (outputs : List Extent) (at blocks k i : ℕ) → AreJobs jobs → k < blocks → i < length jobs
        → Ordered (unrolled jobs outputs at blocks) (start (length jobs) k + i) (start (length jobs) k + length jobs) }
    ensures before { (jobs : List Job) (outputs : List Extent) (at blocks k h i : ℕ) → AreJobs jobs → k < h → h < blocks → i ≤ length jobs
        → Ordered (unrolled jobs outputs at blocks) (start (length jobs) k + length jobs) (start (length jobs) h + i) }
{}

/// A law: the successors of a job of a block are those of the plan, in its block, or the capture if there are none.
/// Those of a capture are the jobs of the next block that have no predecessors, or its capture if the plan has no jobs.
pub fn successors_go_by_blocks()
    ensures jobs { (jobs : List Job) (outputs : List Extent) (at blocks k i : ℕ) → AreJobs jobs → k < blocks → i < length jobs
        → successors (unrolled jobs outputs at blocks) (start (length jobs) k + i) ≡ map (λ q. start (length jobs) k + q) (successors jobs i) ++ (if length (successors jobs i) == 0 then (start (length jobs) k + length jobs) ∷ [] else []) }
    ensures captures { (jobs : List Job) (outputs : List Extent) (at blocks k : ℕ) → AreJobs jobs → k + 1 < blocks
        → successors (unrolled jobs outputs at blocks) (start (length jobs) k + length jobs) ≡ map (λ q. start (length jobs) (k + 1) + q) (entries jobs) ++ (if length (last_jobs jobs) == 0 then (start (length jobs) (k + 1) + length jobs) ∷ [] else []) }
    ensures last { (jobs : List Job) (outputs : List Extent) (at blocks k : ℕ) → AreJobs jobs → k + 1 ≡ blocks
        → successors (unrolled jobs outputs at blocks) (start (length jobs) k + length jobs) ≡ [] }
{}

/// A law: the feet lie in a memory if those of the plan, the outputs and the copies do.
pub fn unrolled_lies_in_memory()
    ensures { (jobs : List Job) (outputs : List Extent) (at blocks size : ℕ) → AreWithin size jobs → ((x : ℕ) → has outputs x ≡ true → x < size) → at + block_samples * blocks ≤ size → AreWithin size (unrolled jobs outputs at blocks) }
{}
