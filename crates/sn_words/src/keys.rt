//! The settings, the numbers of a drill and of connections, and words `key=value`.
ghost use Rattle.std.specs.Prelude.{◌≡◌, ◌==◌, position, IsTrue, IfSome};
ghost use Rattle.std.specs.Str.{bytes_eq};
ghost use Rattle.sn_words.specs.Keys.{setting_keys, serve_keys, drill_keys, name, allows, default_value, pace_named, number_of, allowed, value_in};

use sn_fixed::natural;
use sn_ports::limits::{
    HIGH_RATE, LEAST_MEMORY, LOW_RATE, MIDDLE_RATE, MOST_CHANNELS, MOST_CLIENTS, MOST_MEMORY,
    MOST_WORKERS,
};

/// What a word may choose.
#[derive(Clone, Copy, Debug)]
pub(crate) enum Key {
    /// Frames a second.
    Rate,
    /// Channels of the sound.
    Channels,
    /// Bits of a sample in the sound.
    Bits,
    /// The number of workers.
    Workers,
    /// Words of 8 bytes in the pool.
    Memory,
    /// How many clients are served at once.
    Clients,
    /// What says when a block is due: the clock, 0, or what takes the sound, 1.
    Pace,
    /// The seed of a drill.
    Seed,
    /// The blocks of a drill.
    Blocks,
}

/// The keys of settings.
pub(crate) fn setting_keys() -> [Key; 5]
    ensures { result ≡ setting_keys }
{
    [
        Key::Rate,
        Key::Channels,
        Key::Bits,
        Key::Workers,
        Key::Memory,
    ]
}

/// The keys of `serve`.
pub(crate) fn serve_keys() -> [Key; 7]
    ensures { result ≡ serve_keys }
{
    [
        Key::Clients,
        Key::Pace,
        Key::Rate,
        Key::Channels,
        Key::Bits,
        Key::Workers,
        Key::Memory,
    ]
}

/// The keys of a drill.
pub(crate) fn drill_keys() -> [Key; 7]
    ensures { result ≡ drill_keys }
{
    [
        Key::Seed,
        Key::Blocks,
        Key::Rate,
        Key::Channels,
        Key::Bits,
        Key::Workers,
        Key::Memory,
    ]
}

impl Key {
    /// What stands before the `=`.
    fn name(self) -> &'static [u8]
        ensures { result.now ≡ name self }
    {
        match self {
            Key::Rate => b"rate",
            Key::Channels => b"channels",
            Key::Bits => b"bits",
            Key::Workers => b"workers",
            Key::Memory => b"memory",
            Key::Clients => b"clients",
            Key::Pace => b"pace",
            Key::Seed => b"seed",
            Key::Blocks => b"blocks",
        }
    }

    fn allows(self, value: u32) -> bool
        ensures { result ≡ allows self value }
    {
        match self {
            Key::Rate => value == LOW_RATE || value == MIDDLE_RATE || value == HIGH_RATE,
            Key::Channels => 1 <= value && value <= MOST_CHANNELS,
            Key::Bits => value == 16 || value == 24,
            Key::Workers => 1 <= value && value <= MOST_WORKERS,
            Key::Memory => LEAST_MEMORY <= value && value <= MOST_MEMORY,
            Key::Clients => 1 <= value && value <= MOST_CLIENTS,
            Key::Pace => value <= 1,
            Key::Seed => true,
            Key::Blocks => 1 <= value && value <= 20_000,
        }
    }

    /// The value if no word gives one.
    pub(crate) fn default_value(self) -> u32
        ensures value { result ≡ default_value self }
        ensures allowed { IsTrue (allows self result) }
    {
        match self {
            Key::Rate => MIDDLE_RATE,
            Key::Channels => 2,
            Key::Bits => 16,
            Key::Workers => 4,
            Key::Memory => 1_048_576,
            Key::Clients => 1,
            Key::Pace => 0,
            Key::Seed => 1,
            Key::Blocks => 1_000,
        }
    }

    /// The number that a text gives: of the pace that of its name, of any other key what its digits spell.
    fn number_of(self, text: &[u8]) -> Option<u32>
        ensures { result ≡ number_of self text.now }
    {
        match self {
            Key::Pace => pace_named(text),
            _ => natural(text),
        }
    }

    fn allowed(self, number: Option<u32>) -> Option<u32>
        ensures value { result ≡ allowed self number }
        ensures allowed { IfSome result (λ n. IsTrue (allows self n)) }
    {
        match number {
            Some(number) if self.allows(number) => Some(number),
            _ => None,
        }
    }

    /// The value that a word `key=value` gives this key, if the key may have it.
    #[tactic(auto, unfolding(crate::specs::Keys::value_in))]
    pub(crate) fn value_in(self, word: &[u8]) -> Option<u32>
        ensures value { result ≡ value_in self word.now }
        ensures allowed { IfSome result (λ n. IsTrue (allows self n)) }
    {
        let at = equals_sign(word)?;
        if &word[..at] == self.name() {
            self.allowed(self.number_of(&word[at + 1..]))
        } else {
            None
        }
    }
}

/// The number of what sets the pace, by its name.
fn pace_named(text: &[u8]) -> Option<u32>
    ensures { result ≡ pace_named text.now }
{
    if text == b"clock".as_slice() {
        Some(0)
    } else if text == b"sound".as_slice() {
        Some(1)
    } else {
        None
    }
}

/// The index of the first `=`.
fn equals_sign(word: &[u8]) -> Option<usize>
    ensures { result ≡ position (λ byte. byte == 61) word.now }
{
    word.iter().position(|byte| *byte == b'=')
}
