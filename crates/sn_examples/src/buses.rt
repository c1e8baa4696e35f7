//! What units on buses hear and write, in block 0.
#![tactic(auto, unfolding(sn_fixed::specs::Literal::literal, sn_def::specs::Reading::defaults_at, sn_def::specs::Units::row_of, sn_fixed::specs::Fixed::frames_of, sn_fixed::specs::Fixed::sat, sn_mem::specs::Blocks::scan, sn_mem::specs::Blocks::table, sn_io::specs::BusUnits::bus_unit, sn_io::specs::Channels::channels, sn_io::specs::Triggers::trigger_block))]

ghost use Rattle.std.specs.Prelude.{◌≡◌, [], ◌∷◌};
ghost use Rattle.sn_def.specs.declared.kind.Kind.TheVariants as kinds;
ghost use Rattle.sn_examples.specs.Values.{samples, steady};
ghost use Rattle.sn_examples.specs.Keeping.{bus_with, heard_on, after_unit, on_buses};

/// Out.ar takes the place of what an earlier block left, and adds to what this block wrote.
pub fn out_ar()
    ensures over { on_buses 3 (after_unit kinds.Outar (steady "0" ∷ samples "0.5 1 2" ∷ []) (bus_with 0 (samples "0.25 7 7"))) ≡ samples "0.5 1 2" ∷ [] }
    ensures sum { on_buses 3 (after_unit kinds.Outar (steady "0" ∷ samples "0.5 1 2" ∷ []) (bus_with 1 (samples "0.25 7 7"))) ≡ samples "0.75 8 9" ∷ [] }
{}

/// ReplaceOut takes the place of both.
pub fn replace_out()
    ensures { on_buses 3 (after_unit kinds.ReplaceOut (steady "0" ∷ samples "0.5 1 2" ∷ []) (bus_with 1 (samples "0.25 7 7"))) ≡ samples "0.5 1 2" ∷ [] }
{}

/// In.ar hears what this block wrote. What was not written, and a bus that doesn't exist, is silent.
pub fn in_ar()
    ensures written { heard_on (bus_with 1 (samples "0.25 7 7")) kinds.Inar (steady "0" ∷ []) 3 ≡ samples "0.25 7 7" ∷ [] }
    ensures silent { heard_on (bus_with 0 (samples "0.25 7 7")) kinds.Inar (steady "0" ∷ []) 3 ≡ samples "0 0 0" ∷ [] }
    ensures none { heard_on (bus_with 1 (samples "0.25 7 7")) kinds.Inar (steady "-1" ∷ []) 3 ≡ samples "0 0 0" ∷ [] }
{}

/// DetectSilence is 1.0 once its input, which was loud, has been quiet for its time, here the shortest: one frame.
pub fn detect_silence()
    ensures { heard_on (bus_with 0 []) kinds.DetectSilence (samples "1.0" ∷ steady "0.5" ∷ steady "0" ∷ steady "0" ∷ []) 3 ≡ samples "0 1.0 1.0" ∷ [] }
{}
