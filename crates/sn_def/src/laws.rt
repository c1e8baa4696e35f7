//! Laws about the definitions of this crate. Each function's contract is one law.
ghost use Rattle.std.specs.Prelude.{◌≡◌, ◌↔◌, ◌++◌, ◌∷◌, ℕ, List, [], true, Some};
ghost use Rattle.std.specs.List.{list_all};
ghost use Rattle.sn_def.specs.declared.kind.Kind.{Kind};
ghost use Rattle.sn_def.specs.Units.{row_of, kind_named};
ghost use Rattle.sn_def.specs.Fitting.{RowFits};
ghost use Rattle.sn_def.specs.Definition.{Definition};
ghost use Rattle.sn_def.specs.Reading.{text_at, line_at, def_at, fault, IsWritten};
ghost use Rattle.sn_def.specs.WellFormed.{IsWellFormed};
ghost use Rattle.sn_def.specs.Grammar.{DefinitionText, is_given_name, names_of};
ghost use Rattle.sn_def.specs.declared.version.Version.{Version};
ghost use Rattle.sn_def.specs.Faults.{first_kind, def_kinds, line_kinds, DefinitionFault};
ghost use Rattle.sn_def.specs.declared.fault.DefFault.{DefFault};
ghost use Rattle.sn_def.specs.declared.fault.DefKind.{DefKind};

use sn_fixed::literal_bytes;

/// Each kind has a name of its own: its row's.
pub fn kinds_are_named()
    ensures { (k : Kind) → kind_named (row_of k).name ≡ Some k }
{}

/// Each row of the table fits: its index, what it uses, its words and its done action belong together.
pub fn rows_fit()
    ensures { (k : Kind) → RowFits (row_of k) }
{}

/// What some text defines is well formed.
pub fn written_is_well_formed()
    ensures { (d : Definition) → IsWritten d → IsWellFormed d }
{}

/// The names of a definition, those of elements of arrays among them, have few bytes: letters, digits, `_` and `.`.
pub fn names_are_short()
    ensures { (d : Definition) → IsWritten d → list_all is_given_name (d.name ∷ names_of d) ≡ true }
{}

/// What is read from a text is what its lines say, and what they say is read.
pub fn lines_are_read()
    ensures sound { (text : List ℕ) (d : Definition) → text_at text ≡ Ok d → DefinitionText text d }
    ensures complete { (text : List ℕ) (d : Definition) → DefinitionText text d → text_at text ≡ Ok d }
{
    literal_bytes();
}

/// One text has one definition.
pub fn one_definition()
    ensures { (text : List ℕ) (d e : Definition) → DefinitionText text d → DefinitionText text e → d ≡ e }
{
    literal_bytes();
}

/// No definition text is the beginning of another one.
pub fn no_prefix()
    ensures { (text more : List ℕ) (d e : Definition) → DefinitionText text d → DefinitionText (text ++ more) e → more ≡ [] }
{
    literal_bytes();
}

/// A line is judged by the table of kinds: its kind is that of the first test that holds.
pub fn lines_are_judged()
    ensures named { (v : Version) (fields : List (List ℕ)) (kind : DefKind) → (def_at v fields ≡ Err (fault 2 kind)) ↔ (first_kind (def_kinds v fields) ≡ Some kind) }
    ensures lines { (v : Version) (d : Definition) (fields : List (List ℕ)) (kind : DefKind) → (line_at v d fields ≡ Err kind) ↔ (first_kind (line_kinds v d fields) ≡ Some kind) }
{}

/// Reading gives a fault exactly if it is the first fault of the text.
pub fn first_fault_is_read()
    ensures sound { (text : List ℕ) (f : DefFault) → text_at text ≡ Err f → DefinitionFault text f.line f.kind }
    ensures complete { (text : List ℕ) (number : ℕ) (kind : DefKind) → DefinitionFault text number kind → text_at text ≡ Err (fault number kind) }
{
    literal_bytes();
}
