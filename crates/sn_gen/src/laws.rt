//! Laws about the definitions of this crate. Each function's contract is one law.
ghost use Rattle.std.specs.Prelude.{ℕ, List, ℤ};
ghost use Rattle.sn_def.specs.declared.control.Now.{Now};
ghost use Rattle.sn_def.specs.declared.kind.Kind.TheVariants as kinds;
ghost use Rattle.sn_done.specs.Done.{IsUnseen};
ghost use Rattle.sn_gen.specs.Generators.{generator};
ghost use Rattle.sn_gen.specs.LineHistories.{BeginsWithSamples, IsStraight};

/// The output of Line is the straight line between the samples that `start` and `end` have at the
/// first frame, and then the end, at which it ends.
pub fn line_is_straight()
    ensures { (rate : ℕ) (run : ℕ → List (List ℤ)) → BeginsWithSamples run → IsStraight rate run }
{}

/// Line and Linen do not see whether the block in which they ended was settled.
pub fn ends_are_unseen()
    ensures line { (now : Now) (inputs : List (List ℤ)) → IsUnseen (λ ws. generator kinds.Line now ws inputs) }
    ensures linen { (now : Now) (inputs : List (List ℤ)) → IsUnseen (λ ws. generator kinds.Linen now ws inputs) }
{}
