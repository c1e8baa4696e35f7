//! Words of a name, settings and paths.
ghost use Rattle.std.specs.Prelude.{◌≡◌, ◌≤◌, ◌<◌, ◌+◌, ◌^◌, length, IfOk, IfErr, MatchOption, Ok, Err};
ghost use Rattle.sn_words.specs.Choices.{numbers};
ghost use Rattle.sn_words.specs.Words.{between, bad_word, choices_of};

use crate::choices::{chosen, first_bad};
use crate::keys::{Key, setting_keys};
use crate::lines::{BadWord, begins_with};
use sn_pcm::Settings;
use sn_ports::Word;

/// The words between the first one and the last so many.
pub(crate) fn between(words: &[Word], last: usize) -> &[Word]
    requires { last + 1 ≤ length words.now }
    ensures { result.now ≡ between last words.now }
{
    &words[1..words.len() - last]
}

/// The index of the first bad word. The first is a name, and those between it and the last so many give values to keys.
#[tactic(auto, unfolding(crate::specs::Words::bad_word))]
pub(crate) fn bad_word(keys: &[Key], name: &[u8], last: usize, words: &[Word]) -> Option<usize>
    requires { last < 4 }
    ensures value { result ≡ bad_word keys.now name.now last words.now }
    ensures within { MatchOption result (last + 1 ≤ length words.now) (λ i. i ≤ length words.now) }
{
    if !begins_with(name, words) {
        return Some(0);
    }
    if words.len() < last + 1 {
        return Some(words.len());
    }
    let at = first_bad(keys, between(words, last))?;
    Some(at + 1)
}

/// The settings that the words between the first, which is a name, and the last so many choose.
#[tactic(auto, unfolding(crate::specs::Words::choices_of))]
pub(crate) fn settings_between(
    name: &[u8],
    paths: usize,
    words: &[Word],
) -> Result<Settings, BadWord>
    requires paths { paths < 4 }
    requires words { length words.now < 2 ^ 32 }
    ensures ok { IfOk result (λ s. choices_of name.now paths words.now ≡ Ok (numbers s)) }
    ensures err { IfErr result (λ b. choices_of name.now paths words.now ≡ Err b.index) }
{
    match bad_word(&setting_keys(), name, paths, words) {
        Some(index) => Err(BadWord {
            index: index as u32,
        }),
        None => Ok(chosen(between(words, paths))),
    }
}
