//! What definition texts are read as, and how they are printed.
#![tactic(auto, unfolding(sn_fixed::specs::Literal::literal, sn_def::specs::Definition::named, sn_def::specs::Definition::place_of, sn_def::specs::Printing::print_of, sn_def::specs::Reading::body_at, sn_def::specs::Reading::control_at, sn_def::specs::Reading::defaults_at, sn_def::specs::Reading::input_at, sn_def::specs::Reading::inputs_at, sn_def::specs::Reading::is_name, sn_def::specs::Reading::line_at, sn_def::specs::Reading::text_at, sn_def::specs::Reading::unit_at, sn_def::specs::Reading::unit_of, sn_def::specs::Reading::unit_parts, sn_def::specs::Reading::wires_at, sn_def::specs::Units::kind_named, sn_def::specs::Units::row_of))]

ghost use Rattle.std.specs.Prelude.{◌≡◌, [], ◌∷◌, Ok, Err, pos, codes};
ghost use Rattle.sn_def.specs.declared.kind.Kind.TheVariants as kinds;
ghost use Rattle.sn_def.specs.declared.unit.Input.TheVariants.{Literal, Control, Wire};
ghost use Rattle.sn_def.specs.declared.fault.DefKind.TheVariants as wrong;
ghost use Rattle.sn_def.specs.Definition.{parameter, unit_line};
ghost use Rattle.sn_def.specs.Reading.{text_at};
ghost use Rattle.sn_examples.specs.Texts.{lines, printed};

/// A control and two units: their kinds, their inputs, and how many outputs they have. The wire is the output of the
/// first.
pub fn reading()
    ensures { text_at (lines ("snova 1" ∷ "def a" ∷ "control freq 0.5" ∷ "x = LFSaw freq 0" ∷ "Out.ar 1 x" ∷ "end" ∷ []))
        ≡ Ok (record {
          name = codes "a";
          controls = parameter (codes "freq") (pos 8388608) ∷ [];
          arrays = [];
          units = unit_line kinds.LFSaw (Control 0 ∷ Literal (pos 0) ∷ []) 1 ∷ unit_line kinds.Outar (Literal (pos 1) ∷ Wire 0 ∷ []) 0 ∷ [];
          wires = codes "x" ∷ [];
        }) }
{}

/// A text whose values are whole numbers is printed as itself. A fraction is printed as its raw number.
pub fn printing()
    ensures same { printed (lines ("snova 1" ∷ "def a" ∷ "x = LFSaw 440000 0" ∷ "Out.ar 1 x" ∷ "end" ∷ [])) ≡ lines ("snova 1" ∷ "def a" ∷ "x = LFSaw 440000 0" ∷ "Out.ar 1 x" ∷ "end" ∷ []) }
    ensures raw { printed (lines ("snova 1" ∷ "def a" ∷ "Out.ar 0 0.5" ∷ "end" ∷ [])) ≡ lines ("snova 1" ∷ "def a" ∷ "Out.ar 0 8388608" ∷ "end" ∷ []) }
{}

/// The first fault counts, with the number of its line.
pub fn faults()
    ensures input { text_at (lines ("snova 1" ∷ "def a" ∷ "Out.ar 0 x" ∷ "end" ∷ [])) ≡ Err (record { line = 3; kind = wrong.Input }) }
    ensures count { text_at (lines ("snova 1" ∷ "def a" ∷ "x = Neg 1 2" ∷ "end" ∷ [])) ≡ Err (record { line = 3; kind = wrong.Count }) }
    ensures unit { text_at (lines ("snova 1" ∷ "def a" ∷ "x = Nothing 1" ∷ "end" ∷ [])) ≡ Err (record { line = 3; kind = wrong.Unit }) }
{}
