//! The words `score IN OUT` and `dump IN OUT`.
ghost use Rattle.std.specs.Prelude.{◌≡◌, ◌<◌, ◌^◌, length, IfOk, IfErr, Ok, Err};
ghost use Rattle.sn_words.specs.Converting.{of_three, convert_words_of};

use crate::lines::{BadWord, begins_with};
use sn_ports::Word;

/// The form into which packets are converted.
#[derive(Clone, Copy, Debug, PartialEq, Eq)]
pub enum Conversion {
    /// The packets of a text become a stream.
    Score,
    /// The packets of a stream become a text.
    Dump,
}

/// This conversion, if there are three words in all.
fn of_three(words: &[Word], conversion: Conversion) -> Result<Conversion, BadWord>
    requires { length words.now < 2 ^ 32 }
    ensures ok { IfOk result (λ c. of_three words.now conversion ≡ Ok c) }
    ensures err { IfErr result (λ b. of_three words.now conversion ≡ Err b.index) }
{
    let count = words.len() as u32;
    if count < 3 {
        return Err(BadWord { index: count });
    }
    if count > 3 {
        return Err(BadWord { index: 3 });
    }
    Ok(conversion)
}

/// The conversion that the words `score IN OUT` or `dump IN OUT` choose.
///
/// # Errors
///
/// Index 0 if there are no words or the first is neither `score` nor `dump`; the number of words if there are fewer
/// than three; 3 if there are more.
#[tactic(auto, unfolding(crate::specs::Converting::convert_words_of))]
pub fn convert_words(words: &[Word]) -> Result<Conversion, BadWord>
    requires { length words.now < 2 ^ 32 }
    ensures ok { IfOk result (λ c. convert_words_of words.now ≡ Ok c) }
    ensures err { IfErr result (λ b. convert_words_of words.now ≡ Err b.index) }
{
    if begins_with(b"score", words) {
        return of_three(words, Conversion::Score);
    }
    if begins_with(b"dump", words) {
        return of_three(words, Conversion::Dump);
    }
    Err(BadWord { index: 0 })
}
