//! What a list of words `key=value` chooses.
ghost use Rattle.std.specs.Prelude.{◌≡◌, ◌<◌, [], length, IsTrue, IfSome};
ghost use Rattle.sn_words.specs.Keys.{given, adds, is_good, first_bad, value_of, choices, allows};
ghost use Rattle.sn_words.specs.Choices.{numbers};

use crate::keys::Key;
use sn_pcm::Settings;
use sn_ports::Word;

/// The value that the first word which gives the key a value gives it.
fn given(key: Key, words: &[Word]) -> Option<u32>
    ensures value { result ≡ given key words.now }
    ensures allowed { IfSome result (λ n. IsTrue (allows key n)) }
{
    for word in words {
        let value = key.value_in(word.as_slice());
        if value.is_some() {
            return value;
        }
    }
    None
}

/// Whether the word gives the key a value, and no word before it does.
fn adds(before: &[Word], word: &[u8], key: Key) -> bool
    ensures { result ≡ adds before.now word.now key }
{
    key.value_in(word).is_some() && given(key, before).is_none()
}

/// Whether the word gives a value to one of the keys to which the words before it give none.
fn is_good(keys: &[Key], before: &[Word], word: &[u8]) -> bool
    ensures { result ≡ is_good keys.now before.now word.now }
{
    keys.iter().any(|key| adds(before, word, *key))
}

/// The index of the first bad word. At most one good word for each key stands before it.
pub(crate) fn first_bad(keys: &[Key], words: &[Word]) -> Option<usize>
    ensures value { result ≡ first_bad keys.now [] words.now }
    ensures within { IfSome result (λ i. i < length words.now) }
{
    for (i, word) in words.iter().enumerate() {
        if !is_good(keys, &words[..i], word.as_slice()) {
            return Some(i);
        }
    }
    None
}

/// The value of a key.
pub(crate) fn value_of(words: &[Word], key: Key) -> u32
    ensures value { result ≡ value_of words.now key }
    ensures allowed { IsTrue (allows key result) }
{
    given(key, words).unwrap_or(key.default_value())
}

/// The settings that good words choose.
pub(crate) fn chosen(words: &[Word]) -> Settings
    ensures { numbers result ≡ choices words.now }
{
    Settings {
        rate: value_of(words, Key::Rate),
        channels: value_of(words, Key::Channels),
        bits: value_of(words, Key::Bits),
        workers: value_of(words, Key::Workers),
        memory: value_of(words, Key::Memory),
    }
}
