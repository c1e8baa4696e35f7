//! Laws about the definitions of this crate. Each function's contract is one law.
ghost use Rattle.std.specs.Prelude.{List};
ghost use Rattle.sn_ports.specs.Octets.{Octets};
ghost use Rattle.sn_words.specs.Choices.{Choices};
ghost use Rattle.sn_words.specs.Laws.{FindsFirstBad, DrillsBy, HasOpeningDefaults, PlansBy, RendersBy, ServesBy};
ghost use Rattle.sn_words.specs.Drilling.{DrillChoices};
ghost use Rattle.sn_words.specs.Serving.{ServeChoices};
ghost use Rattle.sn_words.specs.declared.keys.Key.{Key};

/// The index of the first bad word is that of a bad word, and each word before it is good. If there is no such index,
/// each word is good.
pub fn first_bad_word()
    ensures { (keys : List Key) (words : List Octets) → FindsFirstBad keys words }
{}

/// If no word gives a value, the settings are those of `Settings::new`.
pub fn defaults_stand()
    ensures { HasOpeningDefaults }
{}

/// Words choose settings exactly if they are `render`, good words and three more words.
pub fn chosen_settings()
    ensures { (words : List Octets) (chosen : Choices) → RendersBy words chosen }
{}

/// Words choose the settings of a plan exactly if they are `plan`, good words and two more words.
pub fn chosen_plan()
    ensures { (words : List Octets) (chosen : Choices) → PlansBy words chosen }
{}

/// Words choose settings, a port, a number of clients and a pace exactly if they are `serve`, good words, a port from 1
/// to 65535 and one more word.
pub fn chosen_port()
    ensures { (words : List Octets) (chosen : ServeChoices) → ServesBy words chosen }
{}

/// Words choose a drill exactly if they are `drill` and good words.
pub fn chosen_drill()
    ensures { (words : List Octets) (chosen : DrillChoices) → DrillsBy words chosen }
{}
