//! Laws about the definitions of this crate. Each function's contract is one law.
ghost use Rattle.std.specs.Prelude.{ℕ, ◌<◌, ◌^◌, List, ℤ};
ghost use Rattle.sn_filt.specs.Histories.{HasMost, HasSamples, IsInputAgo, IsInputBetween, IsKeptAgo};
ghost use Rattle.sn_filt.specs.Powers.{IsHighest};

/// The output of DelayN is its input some frames ago, and 0 before the first frame.
pub fn delayed_input()
    ensures { (rate most : ℕ) (run : ℕ → List (List ℤ)) → HasMost rate most run → HasSamples run → IsInputAgo rate most run }
{}

/// The output of DelayL lies between its input some whole frames ago and the input a frame before that.
pub fn delayed_line()
    ensures { (rate most : ℕ) (run : ℕ → List (List ℤ)) → HasMost rate most run → HasSamples run → IsInputBetween rate most run }
{}

/// The output of CombN is what it kept some frames ago, and 0 before the first frame.
pub fn delayed_sum()
    ensures { (rate most : ℕ) (run : ℕ → List (List ℤ)) → HasMost rate most run → IsKeptAgo rate most run }
{}

/// The place of the highest binary digit is the power of two up to which a number reaches.
pub fn highest_digit()
    ensures { (n : ℕ) → 0 < n → n < 2 ^ 32 → IsHighest n }
{}
