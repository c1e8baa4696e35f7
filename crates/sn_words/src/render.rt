//! The words `render [key=value ..] COMMANDS SOUND REPLIES`.
ghost use Rattle.std.specs.Prelude.{◌≡◌, ◌<◌, ◌^◌, length, IfOk, IfErr, Ok, Err};
ghost use Rattle.sn_words.specs.Choices.{numbers};
ghost use Rattle.sn_words.specs.Words.{settings_of};

use crate::lines::BadWord;
use crate::paths::settings_between;
use sn_pcm::Settings;
use sn_ports::Word;

/// The settings that the words `render [key=value ..] COMMANDS SOUND REPLIES` choose.
///
/// A key is `rate` (44100, 48000 or 96000; 48000 if no word gives it), `channels` (1 to 8; 2), `bits` (16 or 24; 16),
/// `workers` (1 to 16; 4) or `memory` (65536 to 16777216; 1048576). Its value is decimal digits without a leading zero.
/// A word is bad if it has no `=`, its key is unknown or was given before, or its value is not allowed.
///
/// # Errors
///
/// Index 0 if there are no words or the first is not `render`; the number of words if there are fewer than four; else
/// the index of the first bad word.
#[tactic(auto, unfolding(crate::specs::Words::settings_of))]
pub fn settings(words: &[Word]) -> Result<Settings, BadWord>
    requires { length words.now < 2 ^ 32 }
    ensures ok { IfOk result (λ s. settings_of words.now ≡ Ok (numbers s)) }
    ensures err { IfErr result (λ b. settings_of words.now ≡ Err b.index) }
{
    settings_between(b"render", 3, words)
}
