//! Units that end, before and after the block of their end was settled.
#![tactic(auto)]

ghost use Rattle.std.specs.Prelude.{◌≡◌, ℕ};
ghost use Rattle.sn_done.specs.Done.{settled_word};

/// A law: a done word is settled once.
pub fn words_settle_once()
    ensures { (done : ℕ) → settled_word (settled_word done) ≡ settled_word done }
{}
