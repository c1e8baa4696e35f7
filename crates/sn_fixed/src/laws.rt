//! Laws about the definitions of this crate. Each function's contract is one law.
ghost use Rattle.std.specs.Prelude.{ℤ, ℕ, List};
ghost use Rattle.sn_fixed.specs.Laws.{ReadsBack, HasLiteralBytes};

/// The decimal digits of each sample read back as that sample.
pub fn digits_read_back()
    ensures { (z : ℤ) → ReadsBack z }
{}

/// Each byte of a literal is a digit, `-` or `.`.
pub fn literal_bytes()
    ensures { (text : List ℕ) → HasLiteralBytes text }
{}
