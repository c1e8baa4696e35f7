//! Samples, phases and times as numbers.
#![tactic(auto, unfolding(sn_fixed::specs::Literal::literal, sn_def::specs::Reading::defaults_at, sn_fixed::specs::Fixed::frames_of, sn_fixed::specs::Fixed::sat, sn_fixed::specs::Fixed::step_of))]

ghost use Rattle.std.specs.Prelude.{◌≡◌, [], ◌∷◌, pos, neg_ℤ, Some, None, codes, true, false};
ghost use Rattle.sn_fixed.specs.Fixed.{floor, sat, step_of, frames_of};
ghost use Rattle.sn_fixed.specs.Literal.{literal};
ghost use Rattle.sn_fixed.specs.Triggers.{rises};
ghost use Rattle.sn_gen.specs.Phases.{moved};
ghost use Rattle.sn_filt.specs.Seconds.{span, whole_frames, frame_part};
ghost use Rattle.sn_examples.specs.Values.{samples};

/// A literal with a point is a number of which 2^24 is 1.0, rounded down. Without a point it is the raw number.
pub fn literals()
    ensures half { literal (codes "0.5") ≡ Some (pos 8388608) }
    ensures one { literal (codes "-1.0") ≡ Some (neg_ℤ (pos 16777216)) }
    ensures down { literal (codes "-0.00000001") ≡ Some (neg_ℤ (pos 1)) }
    ensures raw { literal (codes "440000") ≡ Some (pos 440000) }
    ensures big { literal (codes "128.0") ≡ None }
    ensures zeros { literal (codes "01") ≡ None }
    ensures line { samples "1.0 -0.5 7" ≡ pos 16777216 ∷ neg_ℤ (pos 8388608) ∷ pos 7 ∷ [] }
{}

/// A sample has 32 bits, and stops at their ends. Quotients are rounded down.
pub fn ends()
    ensures top { sat (pos 2147483648) ≡ pos 2147483647 }
    ensures bottom { sat (neg_ℤ (pos 3000000000)) ≡ neg_ℤ (pos 2147483648) }
    ensures down { floor (neg_ℤ (pos 7)) 2 ≡ neg_ℤ (pos 4) }
{}

/// The step of a phase: a quarter of a turn, of which 2^32 is the whole, at a quarter of the rate. A frequency below 0
/// goes back, and a phase comes round.
pub fn phases()
    ensures quarter { step_of (pos 12000000) 48000 ≡ 1073741824 }
    ensures hertz { step_of (pos 1000) 48000 ≡ 89478 }
    ensures back { step_of (neg_ℤ (pos 12000000)) 48000 ≡ 3221225472 }
    ensures round { moved 5 (neg_ℤ (pos 6)) ≡ 4294967295 }
{}

/// The frames of a time in milliseconds, and of one in seconds, of which 2^24 parts are a frame. Places up to 1/256 of
/// a frame from a frame are that frame.
pub fn times()
    ensures second { frames_of (pos 1000) 44100 ≡ 44100 }
    ensures down { frames_of (pos 1) 44100 ≡ 44 }
    ensures none { frames_of (neg_ℤ (pos 1)) 44100 ≡ 0 }
    ensures whole { whole_frames (span (pos 350) 48000) ≡ 1 }
    ensures near { frame_part (span (pos 350) 48000) ≡ 0 }
    ensures half { whole_frames (span (pos 175) 48000) ≡ 0 }
    ensures part { frame_part (span (pos 175) 48000) ≡ 8400000 }
{}

/// A trigger rises from 0 or below to above 0.
pub fn triggers()
    ensures up { rises (pos 0) (pos 1) ≡ true }
    ensures on { rises (pos 1) (pos 2) ≡ false }
    ensures below { rises (neg_ℤ (pos 2)) (pos 0) ≡ false }
{}
