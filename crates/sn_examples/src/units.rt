//! What units give in their first frames, at 48,000 frames a second.
#![tactic(auto, unfolding(sn_fixed::specs::Arcs::arc, sn_fixed::specs::Arcs::wave, sn_fixed::specs::Fixed::frames_of, sn_fixed::specs::Fixed::mul, sn_fixed::specs::Fixed::sat, sn_fixed::specs::Fixed::step_of, sn_fixed::specs::Lines::line_at, sn_fixed::specs::Literal::literal, sn_fixed::specs::Sine::sine, sn_mem::specs::Blocks::scan, sn_mem::specs::Blocks::table, sn_def::specs::Reading::defaults_at, sn_def::specs::Units::row_of, sn_gen::specs::Generators::generator, sn_gen::specs::Harmonics::harmonic_mean, sn_gen::specs::Rounded::rounded, sn_filt::specs::Arithmetic::arithmetic, sn_filt::specs::Filters::filter, sn_filt::specs::Lines::combed, sn_filt::specs::Lines::comb_l_step, sn_filt::specs::Lines::delay_l_step, sn_filt::specs::Lines::echo, sn_filt::specs::Rings::ring_step, sn_filt::specs::StateVariable::filtered, sn_filt::specs::StateVariable::half_angle, sn_filt::specs::StateVariable::lim, sn_filt::specs::StateVariable::reciprocal, sn_filt::specs::StateVariable::weight, sn_filt::specs::StateVariable::weights_at))]

ghost use Rattle.std.specs.Prelude.{◌≡◌, [], ◌∷◌, map, drop};
ghost use Rattle.sn_def.specs.declared.kind.Kind.TheVariants as kinds;
ghost use Rattle.sn_examples.specs.Values.{samples, steady};
ghost use Rattle.sn_examples.specs.Sounding.{generated, filtered};

// ---- sources

/// LFSaw at 12,000 Hz: a turn has four frames. The input `phase` moves it, here by a quarter of a turn. Below 0 Hz it
/// goes back.
pub fn lf_saw()
    ensures turn { generated kinds.LFSaw (steady "12000000" ∷ steady "0" ∷ []) 5 ≡ samples "0.0 0.5 -1.0 -0.5 0.0" ∷ [] }
    ensures moved { generated kinds.LFSaw (steady "12000000" ∷ steady "1073741824" ∷ []) 5 ≡ samples "0.5 -1.0 -0.5 0.0 0.5" ∷ [] }
    ensures back { generated kinds.LFSaw (steady "-12000000" ∷ steady "0" ∷ []) 5 ≡ samples "0.0 -0.5 -1.0 0.5 0.0" ∷ [] }
{}

/// LFTri rises to 1.0 in the first quarter of a turn.
pub fn lf_tri()
    ensures { generated kinds.LFTri (steady "12000000" ∷ steady "0" ∷ []) 5 ≡ samples "0.0 1.0 0.0 -1.0 0.0" ∷ [] }
{}

/// LFPulse is 1.0 in the part of a turn that its width says.
pub fn lf_pulse()
    ensures half { generated kinds.LFPulse (steady "12000000" ∷ steady "0" ∷ steady "0.5" ∷ []) 5 ≡ samples "1.0 1.0 0.0 0.0 1.0" ∷ [] }
    ensures quarter { generated kinds.LFPulse (steady "12000000" ∷ steady "0" ∷ steady "0.25" ∷ []) 5 ≡ samples "1.0 0.0 0.0 0.0 1.0" ∷ [] }
{}

/// Sine is 1.0 at a quarter of a turn.
pub fn sine()
    ensures { generated kinds.Sine (steady "12000000" ∷ steady "0" ∷ []) 5 ≡ samples "0.0 1.0 0.0 -1.0 0.0" ∷ [] }
{}

/// So is SinOsc.
pub fn sin_osc()
    ensures { generated kinds.SinOsc (steady "12000000" ∷ steady "0" ∷ []) 5 ≡ samples "0.0 1.0 0.0 -1.0 0.0" ∷ [] }
{}

/// Saw at 6,000 Hz: its step from 1.0 down to -1.0 is in the middle of the turn, and rounded over four frames. LFSaw
/// would give 0.75, -1.0 and -0.75 in the middle.
pub fn saw()
    ensures { generated kinds.Saw (steady "6000000" ∷ steady "0" ∷ []) 9 ≡ samples "0.0 0.25 0.5 11184812 0.0 -11184812 -0.5 -0.25 0.0" ∷ [] }
{}

/// Blip with one harmonic is a cosine; with two it is the mean of both.
pub fn blip()
    ensures one { generated kinds.Blip (steady "12000000" ∷ steady "1" ∷ steady "0" ∷ []) 5 ≡ samples "1.0 0.0 -1.0 0.0 1.0" ∷ [] }
    ensures two { generated kinds.Blip (steady "6000000" ∷ steady "2" ∷ steady "0" ∷ []) 5 ≡ samples "1.0 5931641 -0.5 -5931642 0.0" ∷ [] }
{}

/// Impulse at 12,000 Hz: one impulse at the first frame, and one at each fourth frame after it.
pub fn impulse()
    ensures { generated kinds.Impulse (steady "12000000" ∷ []) 6 ≡ samples "1.0 0.0 0.0 0.0 1.0 0.0" ∷ [] }
{}

/// WhiteNoise draws from its node's and its unit's numbers.
pub fn white_noise()
    ensures { generated kinds.WhiteNoise [] 3 ≡ samples "2243599 -6118975 1627764" ∷ [] }
{}

/// Phasor goes by its step from 0 up to 5, without 5; a rise of its trigger sets it.
pub fn phasor()
    ensures free { generated kinds.Phasor (steady "0" ∷ steady "2" ∷ steady "0" ∷ steady "5" ∷ steady "0" ∷ []) 5 ≡ samples "0 2 4 1 3" ∷ [] }
    ensures set { generated kinds.Phasor (samples "0 0 1" ∷ steady "2" ∷ steady "0" ∷ steady "5" ∷ steady "3" ∷ []) 5 ≡ samples "0 2 3 0 2" ∷ [] }
{}

/// A Line of a millisecond has 48 frames. One of no time is at its end at once.
pub fn line()
    ensures up { generated kinds.Line (steady "0.0" ∷ steady "48.0" ∷ steady "1" ∷ steady "0" ∷ []) 4 ≡ samples "0.0 1.0 2.0 3.0" ∷ [] }
    ensures done { generated kinds.Line (steady "0.0" ∷ steady "48.0" ∷ steady "0" ∷ steady "0" ∷ []) 2 ≡ samples "48.0 48.0" ∷ [] }
{}

// ---- arithmetic

/// Add and Sub stop at the ends of the samples.
pub fn sums()
    ensures sum { filtered kinds.Add (steady "0.5" ∷ steady "0.25" ∷ []) 1 ≡ samples "0.75" ∷ [] }
    ensures top { filtered kinds.Add (steady "2147483647" ∷ steady "1" ∷ []) 1 ≡ samples "2147483647" ∷ [] }
    ensures difference { filtered kinds.Sub (steady "0.5" ∷ steady "0.75" ∷ []) 1 ≡ samples "-0.25" ∷ [] }
    ensures bottom { filtered kinds.Sub (steady "-2147483648" ∷ steady "1" ∷ []) 1 ≡ samples "-2147483648" ∷ [] }
{}

/// Mul rounds down, and stops at the ends of the samples.
pub fn products()
    ensures product { filtered kinds.Mul (steady "0.5" ∷ steady "-0.5" ∷ []) 1 ≡ samples "-0.25" ∷ [] }
    ensures down { filtered kinds.Mul (samples "1 -1" ∷ steady "0.5" ∷ []) 2 ≡ samples "0 -1" ∷ [] }
    ensures ends { filtered kinds.Mul (samples "100.0 -100.0" ∷ steady "100.0" ∷ []) 2 ≡ samples "2147483647 -2147483648" ∷ [] }
    ensures sum { filtered kinds.MulAdd (steady "0.5" ∷ steady "0.5" ∷ steady "0.25" ∷ []) 1 ≡ samples "0.5" ∷ [] }
{}

/// Div rounds down: a third of 1.0 and one of -1.0. By 0 it gives the end on the side of `a`, and 0 for 0.
pub fn quotients()
    ensures quarter { filtered kinds.Div (steady "1.0" ∷ steady "4.0" ∷ []) 1 ≡ samples "0.25" ∷ [] }
    ensures thirds { filtered kinds.Div (samples "1.0 -1.0" ∷ steady "3.0" ∷ []) 2 ≡ samples "5592405 -5592406" ∷ [] }
    ensures none { filtered kinds.Div (samples "1.0 0.0 -1.0" ∷ steady "0" ∷ []) 3 ≡ samples "2147483647 0 -2147483648" ∷ [] }
{}

/// Mod has the sign of `b`. By 0 it gives 0.
pub fn remainders()
    ensures above { filtered kinds.Mod (samples "4.0 -1.0" ∷ steady "3.0" ∷ []) 2 ≡ samples "1.0 2.0" ∷ [] }
    ensures below { filtered kinds.Mod (samples "4.0 -1.0" ∷ steady "-3.0" ∷ []) 2 ≡ samples "-2.0 -1.0" ∷ [] }
    ensures none { filtered kinds.Mod (steady "1.0" ∷ steady "0" ∷ []) 1 ≡ samples "0" ∷ [] }
{}

/// Exp2 is exact at whole powers, 0 below -24.0, and stops at the greatest sample.
pub fn powers()
    ensures { filtered kinds.Exp2 (samples "1.0 0.0 -1.0 0.5 7.0 -25.0" ∷ []) 6 ≡ samples "2.0 1.0 0.5 23726566 2147483647 0" ∷ [] }
{}

/// Log2 is exact at powers of two. Of 0 and below it gives the least sample.
pub fn logarithms()
    ensures { filtered kinds.Log2 (samples "8.0 1.0 0.5 3.0 0.0" ∷ []) 5 ≡ samples "3.0 0.0 -1.0 26591258 -2147483648" ∷ [] }
{}

/// The least sample has no opposite: Neg and Abs give the greatest one.
pub fn signs()
    ensures neg { filtered kinds.Neg (samples "0.5 -2147483648" ∷ []) 2 ≡ samples "-0.5 2147483647" ∷ [] }
    ensures abs { filtered kinds.Abs (samples "-0.5 -2147483648" ∷ []) 2 ≡ samples "0.5 2147483647" ∷ [] }
{}

/// Clip, Min and Max.
pub fn bounds()
    ensures clip { filtered kinds.Clip (samples "-2.0 0.5 2.0" ∷ steady "-1.0" ∷ steady "1.0" ∷ []) 3 ≡ samples "-1.0 0.5 1.0" ∷ [] }
    ensures min { filtered kinds.Min (samples "-2.0 0.5" ∷ steady "0" ∷ []) 2 ≡ samples "-2.0 0" ∷ [] }
    ensures max { filtered kinds.Max (samples "-2.0 0.5" ∷ steady "0" ∷ []) 2 ≡ samples "0 0.5" ∷ [] }
{}

/// Gt and Lt are 0 where both inputs are equal.
pub fn comparisons()
    ensures gt { filtered kinds.Gt (samples "0 1 2" ∷ steady "1" ∷ []) 3 ≡ samples "0.0 0.0 1.0" ∷ [] }
    ensures lt { filtered kinds.Lt (samples "0 1 2" ∷ steady "1" ∷ []) 3 ≡ samples "1.0 0.0 0.0" ∷ [] }
{}

/// Pan2 at the left, in the middle and at the right: its left output and its right one.
pub fn pan2()
    ensures { filtered kinds.Pan2 (steady "1.0" ∷ samples "-1.0 0.0 1.0" ∷ steady "1.0" ∷ []) 3 ≡ samples "1.0 0.5 0.0" ∷ samples "0.0 0.5 1.0" ∷ [] }
{}

// ---- filters

/// OnePole after a step of its input: as a low-pass and as a high-pass, which has a weight below 0.
pub fn one_pole()
    ensures low { filtered kinds.OnePole (steady "1.0" ∷ steady "0.5" ∷ []) 3 ≡ samples "0.5 0.75 0.875" ∷ [] }
    ensures high { filtered kinds.OnePole (steady "1.0" ∷ steady "-0.5" ∷ []) 3 ≡ samples "0.5 0.25 0.375" ∷ [] }
{}

/// Integrator after a step of its input: it keeps half of its sum, or all of it.
pub fn integrator()
    ensures leaks { filtered kinds.Integrator (steady "1.0" ∷ steady "0.5" ∷ []) 3 ≡ samples "1.0 1.5 1.75" ∷ [] }
    ensures keeps { filtered kinds.Integrator (steady "1.0" ∷ steady "1.0" ∷ []) 3 ≡ samples "1.0 2.0 3.0" ∷ [] }
{}

/// Delay1 gives the last input, which is 0 before the first frame.
pub fn delay1()
    ensures { filtered kinds.Delay1 (samples "1 2 3" ∷ []) 3 ≡ samples "0 1 2" ∷ [] }
{}

/// Lag goes a 48th of the way in each frame, if its time is a millisecond. It begins at its input.
pub fn lag()
    ensures { filtered kinds.Lag (samples "0.0 48.0 48.0" ∷ steady "1" ∷ []) 3 ≡ samples "0.0 1.0 33204906" ∷ [] }
{}

/// LagUD begins at its input. Half of the distance stays in a frame on the way up, and a quarter on the way down.
pub fn lag_ud()
    ensures { filtered kinds.LagUD (samples "0.0 1.0 1.0 0.0" ∷ steady "0.5" ∷ steady "0.25" ∷ []) 4 ≡ samples "0.0 0.5 0.75 0.1875" ∷ [] }
{}

/// SOS after an impulse.
pub fn sos()
    ensures { filtered kinds.SOS (samples "1.0" ∷ steady "0.5" ∷ steady "0.25" ∷ steady "0" ∷ steady "0.5" ∷ steady "0" ∷ []) 4 ≡ samples "0.5 0.5 0.25 0.125" ∷ [] }
{}

/// SVF at a quarter of the rate, after a step of its input: low, band and high.
pub fn svf()
    ensures { filtered kinds.SVF (steady "1.0" ∷ steady "12000000" ∷ steady "1.0" ∷ []) 2 ≡ samples "5592405 16777215" ∷ samples "5592405 5592405" ∷ samples "5592405 -5592406" ∷ [] }
{}

// ---- triggers

/// Latch takes its input where the trigger rises, and Gate takes it as long as the trigger is above 0.
pub fn held()
    ensures latch { filtered kinds.Latch (samples "10 20 30 40 50" ∷ samples "0 1 1 0 1" ∷ []) 5 ≡ samples "0 20 20 20 50" ∷ [] }
    ensures gate { filtered kinds.Gate (samples "10 20 30 40 50" ∷ samples "0 1 1 0 1" ∷ []) 5 ≡ samples "0 20 30 30 50" ∷ [] }
{}

/// Trig's pulse lasts as many whole frames as its time, here three, and is as high as the trigger. A rise in it doesn't
/// count.
pub fn trig()
    ensures { filtered kinds.Trig (samples "0.5 0.0 1.0 0.0 0.0" ∷ steady "1049" ∷ []) 5 ≡ samples "0.5 0.5 0.5 0.0 0.0" ∷ [] }
{}

/// PulseCount counts rises, and begins again at 0 where its reset rises.
pub fn pulse_count()
    ensures { filtered kinds.PulseCount (samples "1 1 0 1 0" ∷ samples "0 0 0 0 1" ∷ []) 5 ≡ samples "1 1 1 2 0" ∷ [] }
{}

/// Stepper goes from 0 to 3 by 2, and then on from 0. It begins at 1.
pub fn stepper()
    ensures { filtered kinds.Stepper (samples "1 0 1 0 1" ∷ steady "0" ∷ steady "0" ∷ steady "3" ∷ steady "2" ∷ steady "1" ∷ []) 5 ≡ samples "3 3 1 1 3" ∷ [] }
{}

// ---- delay lines

/// DelayN by a millisecond: an impulse comes out 48 frames later. By no time it comes out at once.
pub fn delay_n()
    ensures late { map (drop 46) (filtered kinds.DelayN (samples "1.0" ∷ steady "1" ∷ steady "1" ∷ []) 50) ≡ samples "0 0 1.0 0" ∷ [] }
    ensures once { filtered kinds.DelayN (samples "1.0" ∷ steady "1" ∷ steady "0" ∷ []) 2 ≡ samples "1.0 0" ∷ [] }
{}

/// DelayL by half a frame and a little more, which is 175 as a raw time: the output lies in the middle of two samples.
/// Then by a frame, and by one and a half.
pub fn delay_l()
    ensures half { filtered kinds.DelayL (samples "100 200 300 400" ∷ steady "1" ∷ steady "175" ∷ []) 4 ≡ samples "49 149 249 349" ∷ [] }
    ensures whole { filtered kinds.DelayL (samples "100 200 300 400" ∷ steady "1" ∷ steady "350" ∷ []) 4 ≡ samples "0 100 200 300" ∷ [] }
    ensures more { filtered kinds.DelayL (samples "100 200 300 400" ∷ steady "1" ∷ steady "525" ∷ []) 4 ≡ samples "0 49 149 249" ∷ [] }
{}

/// CombN, whose shortest delay is a frame.
pub fn comb_n()
    ensures { filtered kinds.CombN (samples "1.0" ∷ steady "1" ∷ steady "0" ∷ steady "0.5" ∷ []) 4 ≡ samples "0.0 1.0 0.5 0.25" ∷ [] }
{}

/// The comb and the allpass of CombL by a frame, without damping.
pub fn comb_l()
    ensures { filtered kinds.CombL (samples "1.0" ∷ steady "1" ∷ steady "0" ∷ steady "0.5" ∷ steady "0.0" ∷ []) 4 ≡ samples "0.0 1.0 0.5 0.25" ∷ samples "-0.5 0.75 0.375 0.1875" ∷ [] }
{}
