//! The words `serve [key=value ..] PORT SOUND`.
ghost use Rattle.std.specs.Prelude.{◌≡◌, ◌≤◌, ◌<◌, ◌^◌, length, Ok, Err, IsTrue, IfOk, IfErr, IfSome};
ghost use Rattle.sn_ports.specs.Limits.{most_clients};
ghost use Rattle.sn_pcm.specs.Allowed.{is_within};
ghost use Rattle.sn_fixed.specs.Natural.{natural};
ghost use Rattle.sn_words.specs.Choices.{numbers};
ghost use Rattle.sn_words.specs.Serving.{pacing_of, port_word, port_of, serve_words_of};

use crate::choices::{chosen, value_of};
use crate::keys::{Key, serve_keys};
use crate::lines::BadWord;
use crate::paths::{bad_word, between};
use sn_fixed::natural;
use sn_pcm::Settings;
use sn_ports::Word;

/// What says when a block is due.
#[derive(Clone, Copy, Debug, PartialEq, Eq)]
pub enum Pacing {
    /// The clock: block k is due k * 64 / rate seconds after the start.
    Clock,
    /// What takes the sound: a block is due as soon as the block before it was taken.
    Sound,
}

/// What the words `serve [key=value ..] PORT SOUND` choose.
#[derive(Clone, Copy, Debug)]
pub struct ServeWords {
    /// How to play.
    pub settings: Settings,
    /// The port on which to listen: 1 to 65,535.
    pub port: u16,
    /// How many clients are served at once: 1 to 4.
    pub clients: u32,
    /// What sets the pace.
    pub pacing: Pacing,
    pub ghost clients_are: { IsTrue (is_within 1 most_clients clients) },
}

/// The word before the last.
fn port_word(words: &[Word]) -> &[u8]
    requires { 3 ≤ length words.now }
    ensures { result.now ≡ port_word words.now }
{
    words[words.len() - 2].as_slice()
}

/// The port that decimal digits without a leading zero name.
fn port_of(word: &[u8]) -> Option<u16>
    ensures value { result ≡ port_of (natural word.now) }
    ensures named { IfSome result (λ n. 0 < n) }
{
    match natural(word) {
        Some(number) if 1 <= number && number <= 65_535 => Some(number as u16),
        _ => None,
    }
}

/// What sets the pace, by the value of its key.
fn pacing_of(value: u32) -> Pacing
    ensures { result ≡ pacing_of value }
{
    if value == 0 {
        Pacing::Clock
    } else {
        Pacing::Sound
    }
}

/// The settings, the port, the number of clients and the pace that the words `serve [key=value ..] PORT SOUND` choose.
///
/// `clients` is 1 to 4 (1 if no word gives it), and `pace` is `clock` or `sound` (`clock`). The other keys are those of [`settings`](crate::settings). A port is 1
/// to 65535, in decimal digits without a leading zero.
///
/// # Errors
///
/// Index 0 if there are no words or the first is not `serve`; the number of words if there are fewer than three; else
/// the index of the first bad word.
#[tactic(auto, unfolding(crate::specs::Serving::serve_words_of))]
pub fn serve_words(words: &[Word]) -> Result<ServeWords, BadWord>
    requires { length words.now < 2 ^ 32 }
    ensures ok { IfOk result (λ s. serve_words_of words.now ≡ Ok (record { settings = numbers s.settings; port = s.port; clients = s.clients; pacing = s.pacing })) }
    ensures err { IfErr result (λ b. serve_words_of words.now ≡ Err b.index) }
    ensures port { IfOk result (λ s. 0 < s.port) }
{
    if let Some(index) = bad_word(&serve_keys(), b"serve", 2, words) {
        return Err(BadWord {
            index: index as u32,
        });
    }
    let given = between(words, 2);
    match port_of(port_word(words)) {
        Some(port) => Ok(ServeWords {
            settings: chosen(given),
            port,
            clients: value_of(given, Key::Clients),
            pacing: pacing_of(value_of(given, Key::Pace)),
        }),
        None => Err(BadWord {
            index: words.len() as u32 - 2,
        }),
    }
}
