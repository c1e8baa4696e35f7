//! The line of a drill.
ghost use Rattle.std.specs.Prelude.{◌≡◌, IfOk, Some};
ghost use Rattle.sn_drill.specs.Line.{sum_of, played_line, drill_line};

use sn_ports::{NoMemory, Text};
use std::alloc::Global;
use std::fmt;

/// What came of a drill, in numbers.
#[derive(Clone, Copy)]
struct Played {
    blocks: u32,
    /// Bytes of the sound.
    heard: usize,
    /// Bytes of the replies.
    told: usize,
    /// The sum of the sound's bytes modulo 2^32.
    sum: u32,
}

impl fmt::Display for Played {
    ghost output = { λ played. Some (played_line played) };

    fn fmt<W: fmt::Write>(&self, f: &mut fmt::Formatter<W>) -> fmt::Result {
        let Played {
            blocks,
            heard,
            told,
            sum,
        } = self;
        write!(
            f,
            "drill blocks {blocks} sound {heard} replies {told} sum {sum}\n"
        )
    }
}

/// The sum of the bytes modulo 2^32.
fn sum_of(bytes: &[u8]) -> u32
    ensures { result ≡ sum_of bytes.now }
{
    let mut total = 0_u32;
    for byte in bytes {
        total = total.wrapping_add(u32::from(*byte));
    }
    total
}

/// The line of these numbers.
fn line_with(alloc: Global, played: &Played) -> Result<Text, NoMemory>
    ensures { IfOk result (λ line. line.bytes ≡ played_line played.now) }
{
    let line = format!(in alloc; "{played}")?;
    Ok(Text::from_vec(line.into_bytes()))
}

/// The line that says which sound and which replies a drill of `blocks` blocks gave.
pub fn line_of(alloc: Global, blocks: u32, sound: &[u8], replies: &[u8]) -> Result<Text, NoMemory>
    ensures { IfOk result (λ line. line.bytes ≡ drill_line blocks sound.now replies.now) }
{
    let sum = sum_of(sound);
    let played = Played {
        blocks,
        heard: sound.len(),
        told: replies.len(),
        sum,
    };
    line_with(alloc, &played)
}
