//! Laws of the round machine: each kind of step keeps the rule, and what it finds.
ghost use Rattle.std.specs.Prelude.{◌≡◌, ◌≢◌, ◌↔◌, ◌<◌, ◌≤◌, ◌^◌, ℕ, List, [], ◌∷◌, ◌++◌, Contains, true, length, slice_index};
ghost use Rattle.sn_round.specs.declared.jobs.Job.{Job};
ghost use Rattle.sn_round.specs.Jobs.{predecessors};
ghost use Rattle.sn_machine.specs.declared.views.View.{View as Seen};
ghost use Rattle.sn_machine.specs.States.{State, At, IsIdle, IsInRound, crew_in, is_ended, memory_in, counts_in, opening, opening_view};
ghost use Rattle.sn_machine.specs.Steps.{set_memory, set_count, go_view, got_view, read_view, pictured, ended_view, paid_view, rested_view, split_main, split_worker, join_view, after_memory, after_count, CanGo, after_go, CanClaim, after_claim, CanLoad, CanStore, after_store, CanEnd, after_end, Owes, after_release, CanRest, last_list, after_rest, CanSplit, after_split, CanJoin, after_join, after_look, Reaches};
ghost use Rattle.sn_machine.specs.Rule.{RoundHolds};
ghost use Rattle.sn_machine.specs.Fits.{Fits, MainFits, IsFree};
ghost use Rattle.sn_machine.specs.History.{crew_of, gots};

/// A law: the rule holds at the beginning, whatever the words are.
pub fn opening_holds()
    ensures rule { (memory counts : List ℕ) → RoundHolds (opening memory counts) }
    ensures fits { (memory counts : List ℕ) → MainFits (opening_view memory counts) }
{}

/// A law: an idle store to a memory word keeps the rule.
pub fn idle_store_keeps()
    ensures { (s : State) (m : Seen) (x a : ℕ) → RoundHolds s → At s.views 0 m → IsIdle m → RoundHolds (after_memory s m x a) }
{}

/// A law: an idle store to a job word keeps the rule.
pub fn arm_keeps()
    ensures { (s : State) (m : Seen) (j a : ℕ) → RoundHolds s → At s.views 0 m → IsIdle m → RoundHolds (after_count s m j a) }
{}

/// A law: an idle main finds the words of its lists.
pub fn idle_load_finds()
    ensures { (s : State) (m : Seen) → RoundHolds s → At s.views 0 m → IsIdle m → (s.memory ≡ memory_in m.main.phase) × (s.counts ≡ counts_in m.main.phase) }
{}

/// A law: go keeps the rule.
pub fn go_keeps()
    ensures { (s : State) (m : Seen) (jobs : List Job) (script : List (List ℕ)) → RoundHolds s → At s.views 0 m → CanGo m jobs script → RoundHolds (after_go s m jobs script) }
{}

/// A law: a claim keeps the rule.
pub fn claim_keeps()
    ensures { (s : State) (id : ℕ) (v : Seen) (j : ℕ) → RoundHolds s → At s.views id v → CanClaim v j → RoundHolds (after_claim s id v j) }
{}

/// A law: a claim finds 0 only if each predecessor of the job has ended, and no view owes a release of the job for it.
pub fn claim_is_ready()
    ensures { (s : State) (id : ℕ) (v : Seen) (j : ℕ) → RoundHolds s → At s.views id v → CanClaim v j → slice_index s.counts j ≡ 0
        → (p : ℕ) → Contains (predecessors v.worker.jobs j) p → (is_ended s.counts p ≡ true) × ((i : ℕ) (u : Seen) → At s.views i u → Contains u.worker.debts (p, j) → ⊥) }
{}

/// A law: on the sweep's seat a claim finds 0 exactly if the job is not known to have ended, and each of its
/// predecessors is.
pub fn sweep_finds()
    ensures { (s : State) (id : ℕ) (v : Seen) (j : ℕ) → RoundHolds s → At s.views id v → CanClaim v j → v.worker.sweeps ≡ true → (slice_index s.counts j ≡ 0) ↔ IsFree v j }
{}

/// A law: a load of a running job finds the word of its picture.
pub fn load_finds()
    ensures { (s : State) (id : ℕ) (v : Seen) (j : ℕ) (picture : List ℕ) (x : ℕ) → RoundHolds s → At s.views id v → CanLoad v j picture x → (x < length s.memory) × (slice_index s.memory x ≡ slice_index picture x) }
{}

/// A law: a store of a running job keeps the rule.
pub fn store_keeps()
    ensures { (s : State) (id : ℕ) (v : Seen) (j : ℕ) (picture : List ℕ) (x a : ℕ) → RoundHolds s → At s.views id v → CanStore v j picture x → RoundHolds (after_store s id v j picture x a) }
{}

/// A law: the end of a job keeps the rule.
pub fn end_keeps()
    ensures { (s : State) (id : ℕ) (v : Seen) (j : ℕ) (picture : List ℕ) → RoundHolds s → At s.views id v → CanEnd v j picture → RoundHolds (after_end s id v j) }
{}

/// A law: a release keeps the rule.
pub fn release_keeps()
    ensures { (s : State) (id : ℕ) (v : Seen) (front : List (ℕ × ℕ)) (p q : ℕ) (back : List (ℕ × ℕ)) → RoundHolds s → At s.views id v → Owes v front p q back → RoundHolds (after_release s id v q (front ++ back)) }
{}

/// A law: a release finds a count of at least 1.
pub fn release_finds()
    ensures { (s : State) (id : ℕ) (v : Seen) (front : List (ℕ × ℕ)) (p q : ℕ) (back : List (ℕ × ℕ)) → RoundHolds s → At s.views id v → Owes v front p q back → (0 < slice_index s.counts q) × (slice_index s.counts q < 2 ^ 32) }
{}

/// A law: rest keeps the rule.
pub fn rest_keeps()
    ensures { (s : State) (m : Seen) → RoundHolds s → At s.views 0 m → CanRest m → RoundHolds (after_rest s m) }
{}

/// A law: at rest the memory is the last list of the script.
pub fn rest_finds()
    ensures { (s : State) (m : Seen) → RoundHolds s → At s.views 0 m → CanRest m → s.memory ≡ last_list m.main.phase }
{}

/// A law: a split keeps the rule.
pub fn split_keeps()
    ensures { (s : State) (m : Seen) → RoundHolds s → At s.views 0 m → CanSplit m → RoundHolds (after_split s m) }
{}

/// A law: a join keeps the rule.
pub fn join_keeps()
    ensures { (s : State) (m : Seen) (other : ℕ) (v : Seen) → RoundHolds s → At s.views 0 m → other ≢ 0 → At s.views other v → CanJoin v → RoundHolds (after_join s m other v) }
{}

/// A law: a look keeps the rule.
pub fn look_keeps()
    ensures { (s : State) (id : ℕ) (v : Seen) (j : ℕ) → RoundHolds s → At s.views id v → v.worker.live ≡ true → RoundHolds (after_look s id v j) }
{}

/// A law: each list of steps, by any number of seats, keeps the rule.
pub fn runs_keep()
    ensures { (s t : State) → RoundHolds s → Reaches s t → RoundHolds t }
{}

/// A law: in each list of steps each job is got at most once in a round.
pub fn runs_get_once()
    ensures { (s t : State) (run : Reaches s t) (j : ℕ) → RoundHolds s → gots run j ≤ 1 }
{}

/// A law: the crew of a round is the number of seats that were split in it before the first join.
pub fn runs_count_the_crew()
    ensures { (s t : State) (run : Reaches s t) (m : Seen) → ((u : Seen) → At s.views 0 u → IsInRound u → ⊥) → At t.views 0 m → IsInRound m → crew_in m.main.phase ≡ crew_of run }
{}

/// A law: if main may rest after a list of steps, the memory is the last list of the script.
pub fn runs_end_in_the_script()
    ensures { (s t : State) (m : Seen) → RoundHolds s → Reaches s t → At t.views 0 m → CanRest m → t.memory ≡ last_list m.main.phase }
{}

/// A law: after each step of a worker its view fits the numbers of words, if it did before.
pub fn workers_fit()
    ensures split { (v : Seen) → MainFits v → Fits (split_worker v) }
    ensures got { (v : Seen) (j : ℕ) → Fits v → j < length v.worker.jobs → Fits (got_view v j) }
    ensures read { (v : Seen) (j word : ℕ) → Fits v → Fits (read_view v j word) }
    ensures stored { (v : Seen) (j : ℕ) (picture : List ℕ) → Fits v → j < length v.worker.jobs → length picture ≡ v.size → Fits (pictured v j picture) }
    ensures ended { (v : Seen) (j : ℕ) → Fits v → Fits (ended_view v j) }
    ensures paid { (v : Seen) (q : ℕ) (debts : List (ℕ × ℕ)) (left : ℕ) → Fits v → Fits (paid_view v q debts left) }
{}

/// A law: after each step of main its view fits the numbers of words, if it did before.
pub fn mains_fit()
    ensures stored { (v : Seen) (x a : ℕ) → MainFits v → IsIdle v → MainFits (set_memory v x a) }
    ensures armed { (v : Seen) (j a : ℕ) → MainFits v → IsIdle v → MainFits (set_count v j a) }
    ensures gone { (v : Seen) (jobs : List Job) (script : List (List ℕ)) → MainFits v → CanGo v jobs script → MainFits (go_view v jobs script) }
    ensures split { (v : Seen) → MainFits v → MainFits (split_main v) }
    ensures joined { (v w : Seen) → MainFits v → MainFits (join_view v w) }
    ensures rested { (v : Seen) → MainFits v → MainFits (rested_view v) }
{}

/// A law: from the beginning a list of steps leads through one round to rest, so the conditions of these steps can be
/// met. It is a round of one job of an empty foot, and main goes, splits, joins and rests, and a worker claims and
/// ends.
pub fn a_round_can_be_played()
    ensures { (x : ℕ) → (t : State) × Reaches (opening (x ∷ []) (0 ∷ [])) t × ((m : Seen) × At t.views 0 m × (length m.main.rested ≡ 1)) }
{}
