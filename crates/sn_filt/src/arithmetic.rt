//! Units without a state.
ghost use Rattle.std.specs.Prelude.{◌≡◌, ◌≤◌, true, length};
ghost use Rattle.sn_def.specs.Units.{row_of};
ghost use Rattle.sn_filt.specs.Arithmetic.{is_arithmetic, arithmetic};

use crate::blockwise::{push_product_sums, push_products};
use crate::frames::{Framewise, push_frames, sample_at};
use crate::powers::{Exp2, push_logarithms};
use crate::ratios::{Div, Mod};
use crate::samples::{leftness, limited_product, one_if_less, part, rightness};
use sn_def::Kind;
use sn_fixed::{add, mul_add, sat, sub};
use sn_mem::Blocks;

/// Add a b
#[derive(Clone, Copy)]
struct Add;

impl Framewise for Add {
    ghost use Rattle.std.specs.Prelude.{◌+ℤ◌};
    ghost use Rattle.sn_fixed.specs.Fixed.{sat};
    ghost use Rattle.sn_filt.specs.Arithmetic.{add};
    ghost use Rattle.sn_filt.specs.Frames.{of_two};

    ghost arity = { λ _. 2 };

    ghost value = { λ _. add };

    fn sample(&self, inputs: &Blocks, frame: usize) -> i32 {
        add(sample_at(inputs, 0, frame), sample_at(inputs, 1, frame))
    }

    ghost steady = { λ _. of_two (λ x y. sat (x +ℤ y)) };
}

/// Sub a b
#[derive(Clone, Copy)]
struct Sub;

impl Framewise for Sub {
    ghost use Rattle.std.specs.Prelude.{◌-ℤ◌};
    ghost use Rattle.sn_fixed.specs.Fixed.{sat};
    ghost use Rattle.sn_filt.specs.Arithmetic.{sub};
    ghost use Rattle.sn_filt.specs.Frames.{of_two};

    ghost arity = { λ _. 2 };

    ghost value = { λ _. sub };

    fn sample(&self, inputs: &Blocks, frame: usize) -> i32 {
        sub(sample_at(inputs, 0, frame), sample_at(inputs, 1, frame))
    }

    ghost steady = { λ _. of_two (λ x y. sat (x -ℤ y)) };
}

/// Mul a b
#[derive(Clone, Copy)]
pub(crate) struct Mul;

impl Framewise for Mul {
    ghost use Rattle.sn_fixed.specs.Fixed.{mul as product};
    ghost use Rattle.sn_filt.specs.Arithmetic.{mul};
    ghost use Rattle.sn_filt.specs.Frames.{of_two};

    ghost arity = { λ _. 2 };

    ghost value = { λ _. mul };

    fn sample(&self, inputs: &Blocks, frame: usize) -> i32 {
        limited_product(sample_at(inputs, 0, frame), sample_at(inputs, 1, frame))
    }

    ghost steady = { λ _. of_two product };
}

/// MulAdd x m a
#[derive(Clone, Copy)]
pub(crate) struct MulAdd;

impl Framewise for MulAdd {
    ghost use Rattle.std.specs.Prelude.{◌+ℤ◌, ◌*ℤ◌};
    ghost use Rattle.sn_fixed.specs.Fixed.{floor, sat};
    ghost use Rattle.sn_filt.specs.Arithmetic.{mul_add};
    ghost use Rattle.sn_filt.specs.Frames.{of_three};

    ghost arity = { λ _. 3 };

    ghost value = { λ _. mul_add };

    fn sample(&self, inputs: &Blocks, frame: usize) -> i32 {
        mul_add(
            sample_at(inputs, 0, frame),
            sample_at(inputs, 1, frame),
            sample_at(inputs, 2, frame),
        )
    }

    ghost steady = { λ _. of_three (λ x y z. sat (floor (x *ℤ y) 16777216 +ℤ z)) };
}

/// Neg x
#[derive(Clone, Copy)]
struct Neg;

impl Framewise for Neg {
    ghost use Rattle.std.specs.Prelude.{neg_ℤ};
    ghost use Rattle.sn_fixed.specs.Fixed.{sat};
    ghost use Rattle.sn_filt.specs.Arithmetic.{neg};
    ghost use Rattle.sn_filt.specs.Frames.{of_one};

    ghost arity = { λ _. 1 };

    ghost value = { λ _. neg };

    fn sample(&self, inputs: &Blocks, frame: usize) -> i32 {
        sat(-i64::from(sample_at(inputs, 0, frame)))
    }

    ghost steady = { λ _. of_one (λ x. sat (neg_ℤ x)) };
}

/// Abs x
#[derive(Clone, Copy)]
struct Abs;

impl Framewise for Abs {
    ghost use Rattle.std.specs.Prelude.{pos, unsigned_abs};
    ghost use Rattle.sn_fixed.specs.Fixed.{sat};
    ghost use Rattle.sn_filt.specs.Arithmetic.{abs};
    ghost use Rattle.sn_filt.specs.Frames.{of_one};

    ghost arity = { λ _. 1 };

    ghost value = { λ _. abs };

    fn sample(&self, inputs: &Blocks, frame: usize) -> i32 {
        sat(i64::from(sample_at(inputs, 0, frame).unsigned_abs()))
    }

    ghost steady = { λ _. of_one (λ x. sat (pos (unsigned_abs x))) };
}

/// Min a b
#[derive(Clone, Copy)]
struct Min;

impl Framewise for Min {
    ghost use Rattle.std.specs.Int.{int_min};
    ghost use Rattle.sn_filt.specs.Arithmetic.{min};
    ghost use Rattle.sn_filt.specs.Frames.{of_two};

    ghost arity = { λ _. 2 };

    ghost value = { λ _. min };

    fn sample(&self, inputs: &Blocks, frame: usize) -> i32 {
        sample_at(inputs, 0, frame).min(sample_at(inputs, 1, frame))
    }

    ghost steady = { λ _. of_two int_min };
}

/// Max a b
#[derive(Clone, Copy)]
struct Max;

impl Framewise for Max {
    ghost use Rattle.std.specs.Int.{int_max};
    ghost use Rattle.sn_filt.specs.Arithmetic.{max};
    ghost use Rattle.sn_filt.specs.Frames.{of_two};

    ghost arity = { λ _. 2 };

    ghost value = { λ _. max };

    fn sample(&self, inputs: &Blocks, frame: usize) -> i32 {
        sample_at(inputs, 0, frame).max(sample_at(inputs, 1, frame))
    }

    ghost steady = { λ _. of_two int_max };
}

/// Clip x lo hi
#[derive(Clone, Copy)]
struct Clip;

impl Framewise for Clip {
    ghost use Rattle.std.specs.Int.{int_min, int_max};
    ghost use Rattle.sn_filt.specs.Arithmetic.{clip};
    ghost use Rattle.sn_filt.specs.Frames.{of_three};

    ghost arity = { λ _. 3 };

    ghost value = { λ _. clip };

    fn sample(&self, inputs: &Blocks, frame: usize) -> i32 {
        sample_at(inputs, 0, frame)
            .max(sample_at(inputs, 1, frame))
            .min(sample_at(inputs, 2, frame))
    }

    ghost steady = { λ _. of_three (λ x y z. int_min (int_max x y) z) };
}

/// Gt a b
#[derive(Clone, Copy)]
struct Gt;

impl Framewise for Gt {
    ghost use Rattle.std.specs.Prelude.{pos, cond, int_lt};
    ghost use Rattle.sn_filt.specs.Arithmetic.{gt};
    ghost use Rattle.sn_filt.specs.Frames.{of_two};

    ghost arity = { λ _. 2 };

    ghost value = { λ _. gt };

    fn sample(&self, inputs: &Blocks, frame: usize) -> i32 {
        one_if_less(sample_at(inputs, 1, frame), sample_at(inputs, 0, frame))
    }

    ghost steady = { λ _. of_two (λ x y. cond (int_lt y x) (pos 16777216) (pos 0)) };
}

/// Lt a b
#[derive(Clone, Copy)]
struct Lt;

impl Framewise for Lt {
    ghost use Rattle.std.specs.Prelude.{pos, cond, int_lt};
    ghost use Rattle.sn_filt.specs.Arithmetic.{lt};
    ghost use Rattle.sn_filt.specs.Frames.{of_two};

    ghost arity = { λ _. 2 };

    ghost value = { λ _. lt };

    fn sample(&self, inputs: &Blocks, frame: usize) -> i32 {
        one_if_less(sample_at(inputs, 0, frame), sample_at(inputs, 1, frame))
    }

    ghost steady = { λ _. of_two (λ x y. cond (int_lt x y) (pos 16777216) (pos 0)) };
}

/// The left output of Pan2 x pos level
#[derive(Clone, Copy)]
struct PanLeft;

impl Framewise for PanLeft {
    ghost use Rattle.std.specs.Prelude.{◌-ℤ◌, pos};
    ghost use Rattle.sn_fixed.specs.Fixed.{mul as product};
    ghost use Rattle.sn_filt.specs.Arithmetic.{pan_left, rightness};
    ghost use Rattle.sn_filt.specs.Frames.{of_three};

    ghost arity = { λ _. 3 };

    ghost value = { λ _. pan_left };

    fn sample(&self, inputs: &Blocks, frame: usize) -> i32 {
        let level = limited_product(sample_at(inputs, 0, frame), sample_at(inputs, 2, frame));
        part(level, leftness(sample_at(inputs, 1, frame)))
    }

    ghost steady = { λ _. of_three (λ x y z. product (product x z) (pos 16777216 -ℤ rightness y)) };
}

/// The right output of Pan2 x pos level
#[derive(Clone, Copy)]
struct PanRight;

impl Framewise for PanRight {
    ghost use Rattle.sn_fixed.specs.Fixed.{mul as product};
    ghost use Rattle.sn_filt.specs.Arithmetic.{pan_right, rightness};
    ghost use Rattle.sn_filt.specs.Frames.{of_three};

    ghost arity = { λ _. 3 };

    ghost value = { λ _. pan_right };

    fn sample(&self, inputs: &Blocks, frame: usize) -> i32 {
        let level = limited_product(sample_at(inputs, 0, frame), sample_at(inputs, 2, frame));
        part(level, rightness(sample_at(inputs, 1, frame)))
    }

    ghost steady = { λ _. of_three (λ x y z. product (product x z) (rightness y)) };
}

/// The output blocks of a unit without a state.
#[tactic(auto, unfolding(crate::specs::Arithmetic::arithmetic, sn_def::specs::Units::row_of))]
pub(crate) fn run_arithmetic(kind: Kind, inputs: &Blocks, outputs: &mut Blocks)
    requires kind { is_arithmetic kind ≡ true }
    requires inputs { length (row_of kind).inputs ≤ length inputs.now }
    ensures { outputs.new ≡ arithmetic kind inputs.now }
{
    outputs.clear();
    match kind {
        Kind::Add => push_frames(&Add, inputs, outputs),
        Kind::Sub => push_frames(&Sub, inputs, outputs),
        Kind::Mul => push_products(inputs, outputs),
        Kind::MulAdd => push_product_sums(inputs, outputs),
        Kind::Neg => push_frames(&Neg, inputs, outputs),
        Kind::Abs => push_frames(&Abs, inputs, outputs),
        Kind::Min => push_frames(&Min, inputs, outputs),
        Kind::Max => push_frames(&Max, inputs, outputs),
        Kind::Clip => push_frames(&Clip, inputs, outputs),
        Kind::Gt => push_frames(&Gt, inputs, outputs),
        Kind::Lt => push_frames(&Lt, inputs, outputs),
        Kind::Pan2 => {
            push_frames(&PanLeft, inputs, outputs);
            push_frames(&PanRight, inputs, outputs);
        }
        Kind::Div => push_frames(&Div, inputs, outputs),
        Kind::Mod => push_frames(&Mod, inputs, outputs),
        Kind::Exp2 => push_frames(&Exp2, inputs, outputs),
        Kind::Log2 => push_logarithms(inputs, outputs),
        _ => {}
    }
}
