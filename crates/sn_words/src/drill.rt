//! The words `drill [seed=N] [blocks=M] [key=value ..]`.
ghost use Rattle.std.specs.Prelude.{◌≡◌, ◌<◌, ◌^◌, length, Ok, Err, IsTrue, IfOk, IfErr};
ghost use Rattle.sn_pcm.specs.Allowed.{is_within};
ghost use Rattle.sn_words.specs.Choices.{numbers};
ghost use Rattle.sn_words.specs.Drilling.{drill_words_of};

use crate::choices::{chosen, value_of};
use crate::keys::{Key, drill_keys};
use crate::lines::BadWord;
use crate::paths::{bad_word, between};
use sn_pcm::Settings;
use sn_ports::Word;

/// What the words `drill [seed=N] [blocks=M] [key=value ..]` choose.
#[derive(Clone, Copy, Debug)]
pub struct DrillWords {
    /// How to play.
    pub settings: Settings,
    /// What the notes are drawn from.
    pub seed: u32,
    /// How many blocks are played: 1 to 20,000.
    pub blocks: u32,
    pub ghost blocks_are: { IsTrue (is_within 1 20000 blocks) },
}

/// The drill that the words `drill [seed=N] [blocks=M] [key=value ..]` choose.
///
/// `seed` is 0 to 4294967295 (1 where no word gives it), and `blocks` 1 to 20000 (1000). The other keys are those of
/// [`settings`](crate::settings). All may stand in any order.
///
/// # Errors
///
/// Index 0 where there are no words or the first is not `drill`; else the index of the first bad word.
#[tactic(auto, unfolding(crate::specs::Drilling::drill_words_of))]
pub fn drill_words(words: &[Word]) -> Result<DrillWords, BadWord>
    requires { length words.now < 2 ^ 32 }
    ensures ok { IfOk result (λ d. drill_words_of words.now ≡ Ok (record { settings = numbers d.settings; seed = d.seed; blocks = d.blocks })) }
    ensures err { IfErr result (λ b. drill_words_of words.now ≡ Err b.index) }
{
    if let Some(index) = bad_word(&drill_keys(), b"drill", 0, words) {
        return Err(BadWord {
            index: index as u32,
        });
    }
    let given = between(words, 0);
    Ok(DrillWords {
        settings: chosen(given),
        seed: value_of(given, Key::Seed),
        blocks: value_of(given, Key::Blocks),
    })
}
