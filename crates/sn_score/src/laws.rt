//! Laws of scores, each a fact about all of them.
ghost use Rattle.std.specs.Prelude.{◌≡◌, ◌≤◌, ◌<◌, ◌↔◌, ℕ, List, length, slice_index, Ok, Err};
ghost use Rattle.sn_osc.specs.Frames.{Frames};
ghost use Rattle.sn_osc.specs.Shape.{Shape};
ghost use Rattle.sn_score.specs.Score.{AllFit, Score, score_text};
ghost use Rattle.sn_score.specs.Faults.{ScoreFault};
ghost use Rattle.sn_score.specs.Reached.{read};

/// Each list of packets that fit has one text.
pub fn one_text()
    ensures has { (packets : List Shape) → AllFit packets → Score (score_text packets) packets }
    ensures one { (packets : List Shape) (a b : List ℕ) → Score a packets → Score b packets → a ≡ b }
{}

/// Each text has one list of packets at most.
pub fn one_list()
    ensures { (text : List ℕ) (xs ys : List Shape) → Score text xs → Score text ys → xs ≡ ys }
{}

/// Reading gives packets exactly if the text is theirs.
pub fn read_again()
    ensures { (text : List ℕ) (packets : List Shape) → (read text ≡ Ok packets) ↔ Score text packets }
{}

/// Reading gives a fault exactly if it is the first.
pub fn first_fault()
    ensures { (text : List ℕ) (number : ℕ) → (read text ≡ Err number) ↔ ScoreFault text number }
{}

/// A text has one first fault at most, and none if it is a score.
pub fn one_fault()
    ensures one { (text : List ℕ) (m n : ℕ) → ScoreFault text m → ScoreFault text n → m ≡ n }
    ensures none { (text : List ℕ) (packets : List Shape) (n : ℕ) → Score text packets → ScoreFault text n → ⊥ }
{}

/// A stream whose text is read back is the same stream.
pub fn back_again()
    ensures { (stream text again : List ℕ) (xs ys : List Shape) → Frames xs stream → Score text xs → Score text ys → Frames ys again → again ≡ stream }
{}

/// The packets of a stream have a text.
pub fn frames_fit()
    ensures { (packets : List Shape) (stream : List ℕ) → ((i : ℕ) → slice_index stream i < 256) → Frames packets stream → AllFit packets }
{}

/// There are no more packets than bytes.
pub fn few_packets()
    ensures stream { (packets : List Shape) (stream : List ℕ) → Frames packets stream → length packets ≤ length stream }
    ensures text { (packets : List Shape) (text : List ℕ) → Score text packets → length packets ≤ length text }
{}
