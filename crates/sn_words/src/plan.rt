//! The words `plan [key=value ..] COMMANDS REPORT`.
ghost use Rattle.std.specs.Prelude.{◌≡◌, ◌<◌, ◌^◌, length, IfOk, IfErr, Ok, Err};
ghost use Rattle.sn_words.specs.Choices.{numbers};
ghost use Rattle.sn_words.specs.Words.{plan_words_of};

use crate::lines::BadWord;
use crate::paths::settings_between;
use sn_pcm::Settings;
use sn_ports::Word;

/// The settings that the words `plan [key=value ..] COMMANDS REPORT` choose. The keys are those of
/// [`settings`](crate::settings).
///
/// # Errors
///
/// Index 0 if there are no words or the first is not `plan`; the number of words if there are fewer than three; else
/// the index of the first bad word.
#[tactic(auto, unfolding(crate::specs::Words::plan_words_of))]
pub fn plan_words(words: &[Word]) -> Result<Settings, BadWord>
    requires { length words.now < 2 ^ 32 }
    ensures ok { IfOk result (λ s. plan_words_of words.now ≡ Ok (numbers s)) }
    ensures err { IfErr result (λ b. plan_words_of words.now ≡ Err b.index) }
{
    settings_between(b"plan", 2, words)
}
