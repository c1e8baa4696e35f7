//! WAV files of whole numbers.
ghost use Rattle.std.specs.Prelude.{◌≡◌, ◌≤◌, ◌<◌, ◌+◌, ◌*◌, ◌^◌, ◌||◌, false, Some, None, IfSome, IfNone, IsTrue, length, drop};
ghost use Rattle.sn_ports.specs.Limits.{most_file};
ghost use Rattle.sn_shelf.specs.Waves.{number_16, is_named, size_of, content_of, behind, first_of, is_pcm, is_playable, is_format, is_headed, whole_frames, wave_from, wave_in};
ghost use Rattle.sn_shelf.specs.WaveViews.{heard, IsSaid, IsPlayable, IsWhole, Finds};

use sn_ports::limits::{MOST_CHANNELS, MOST_FILE};

/// The format of whole numbers.
const PCM: u16 = 1;

/// The format that is named further on.
const EXTENDED: u16 = 65534;

/// The name of the chunk that says how the samples are written.
const FORMAT: &[u8] = b"fmt ";

/// The name of the chunk of samples.
const DATA: &[u8] = b"data";

/// How the samples of a file are written.
#[derive(Clone, Copy, Debug)]
struct Format {
    /// How many channels there are, 1 to 8.
    channels: u32,
    /// How many bytes a sample has: 2 or 3.
    width: u32,
}

/// The recording in a WAV file.
#[derive(Clone, Copy, Debug)]
pub struct Recording<'a> {
    /// How many channels there are, 1 to 8.
    pub channels: u32,
    /// How many bytes a sample has: 2 or 3.
    pub width: u32,
    /// How many frames there are, 1 or more.
    pub frames: u32,
    /// The bytes of the frames.
    pub sounding: &'a [u8],
}

/// The number of 16 bits at a place.
fn number_16(bytes: &[u8], at: usize) -> u16
    requires { at + 2 ≤ length bytes.now }
    ensures { result ≡ number_16 at bytes.now }
{
    u16::from_le_bytes([bytes[at], bytes[at + 1]])
}

/// The size of the first chunk.
fn size_of(chunk: &[u8]) -> usize
    requires { 8 ≤ length chunk.now }
    ensures value { result ≡ size_of chunk.now }
    ensures few { result < 2 ^ 32 }
{
    u32::from_le_bytes([chunk[4], chunk[5], chunk[6], chunk[7]]) as usize
}

/// Whether the bytes begin with this name.
fn is_named(name: &[u8], chunk: &[u8]) -> bool
    ensures { result ≡ is_named name.now chunk.now }
{
    chunk.starts_with(name)
}

/// Whether the bytes begin with one of two names.
fn has_name(one: &[u8], other: &[u8], chunk: &[u8]) -> bool
    ensures { result ≡ (is_named one.now chunk.now || is_named other.now chunk.now) }
{
    is_named(one, chunk) || is_named(other, chunk)
}

/// The bytes of the first chunk, as far as they are there.
fn content_of(chunk: &[u8]) -> &[u8]
    requires { 8 ≤ length chunk.now }
    ensures value { result.now ≡ content_of chunk.now }
    ensures few { length result.now ≤ length chunk.now }
{
    let content = &chunk[8..];
    content.get(..size_of(chunk)).unwrap_or(content)
}

/// The chunks after the first.
fn behind(chunk: &[u8]) -> &[u8]
    requires { 8 ≤ length chunk.now }
    ensures value { result.now ≡ behind chunk.now }
    ensures shorter { length result.now < length chunk.now }
{
    let size = size_of(chunk);
    let content = &chunk[8..];
    content.get(size + size % 2..).unwrap_or(&[])
}

/// From the first chunk on that has one of two names.
#[tactic(auto, using(crate::proofs::WaveLemmas::begins))]
fn first_named<'a>(one: &[u8], other: &[u8], chunks: &'a [u8]) -> Option<&'a [u8]>
    ensures found { IfSome result (λ c. first_of one.now other.now chunks.now ≡ Some c.now) }
    ensures none { IfNone result (first_of one.now other.now chunks.now ≡ None) }
    ensures long { IfSome result (λ c. (8 ≤ length c.now) × (length c.now ≤ length chunks.now)) }
{
    let mut rest = chunks;
    while rest.len() >= 8 {
        if has_name(one, other, rest) {
            return Some(rest);
        }
        rest = behind(rest);
    }
    None
}

fn is_pcm(format: &[u8]) -> bool
    requires { 16 ≤ length format.now }
    ensures { result ≡ is_pcm format.now }
{
    let tag = number_16(format, 0);
    tag == PCM || (tag == EXTENDED && format.len() >= 40 && number_16(format, 24) == PCM)
}

fn is_playable(format: &[u8]) -> bool
    requires { 16 ≤ length format.now }
    ensures { result ≡ is_playable format.now }
{
    let channels = u32::from(number_16(format, 2));
    let bits = u32::from(number_16(format, 14));
    channels >= 1
        && channels <= MOST_CHANNELS
        && (bits == 16 || bits == 24)
        && u32::from(number_16(format, 12)) == channels * bits / 8
}

fn is_format(format: &[u8]) -> bool
    ensures { result ≡ is_format format.now }
{
    format.len() >= 16 && is_pcm(format) && is_playable(format)
}

/// How samples are written, if the bytes say that in a way that this server plays.
#[tactic(auto, using(crate::proofs::WaveLemmas::said, crate::proofs::WaveLemmas::playable))]
fn format_in(bytes: &[u8]) -> Option<Format>
    ensures found { IfSome result (λ f. IsSaid f bytes.now) }
    ensures playable { IfSome result IsPlayable }
    ensures none { IfNone result (is_format bytes.now ≡ false) }
{
    if !is_format(bytes) {
        return None;
    }
    Some(Format {
        channels: u32::from(number_16(bytes, 2)),
        width: u32::from(number_16(bytes, 14)) / 8,
    })
}

/// The whole frames of the data, if there is one.
#[tactic(auto, using(crate::proofs::WaveLemmas::align_some, crate::proofs::WaveLemmas::align_few, crate::proofs::WaveLemmas::frames_few, crate::proofs::WaveLemmas::frames_whole, crate::proofs::WaveLemmas::too_few_frames, crate::proofs::WaveLemmas::frames_heard))]
fn whole_frames(format: Format, sounding: &[u8]) -> Option<Recording<'_>>
    requires playable { IsPlayable format }
    requires size { length sounding.now ≤ most_file }
    ensures value { Finds heard result (whole_frames format.channels format.width (format.channels * format.width) sounding.now) }
    ensures whole { IfSome result IsWhole }
{
    let Format { channels, width } = format;
    let align = (channels * width) as usize;
    if sounding.len() < align {
        return None;
    }
    Some(Recording {
        channels,
        width,
        frames: (sounding.len() / align) as u32,
        sounding,
    })
}

/// What a format chunk says of the data after it.
#[tactic(auto, using(crate::proofs::WaveLemmas::data_first, crate::proofs::WaveLemmas::no_format, crate::proofs::WaveLemmas::no_data, crate::proofs::WaveLemmas::finds_data))]
fn recording_from(chunk: &[u8]) -> Option<Recording<'_>>
    requires long { 8 ≤ length chunk.now }
    requires size { length chunk.now ≤ most_file }
    ensures value { Finds heard result (wave_from chunk.now) }
    ensures whole { IfSome result IsWhole }
{
    if is_named(DATA, chunk) {
        return None;
    }
    let format = format_in(content_of(chunk))?;
    let found = first_named(DATA, DATA, behind(chunk))?;
    whole_frames(format, content_of(found))
}

/// The chunks after the head.
fn chunks_of(bytes: &[u8]) -> &[u8]
    requires { 12 ≤ length bytes.now }
    ensures value { result.now ≡ drop 12 bytes.now }
    ensures few { length result.now ≤ length bytes.now }
{
    &bytes[12..]
}

/// At most 33,554,432 bytes, which begin with `RIFF`, four bytes and `WAVE`.
fn is_headed(bytes: &[u8]) -> bool
    ensures value { result ≡ is_headed bytes.now }
    ensures long { IsTrue result → (12 ≤ length bytes.now) × (length bytes.now ≤ most_file) }
{
    bytes.len() <= MOST_FILE
        && bytes.len() >= 12
        && is_named(b"RIFF", bytes)
        && is_named(b"WAVE", &bytes[8..])
}

/// What is heard of the bytes of a WAV file. If they are none that this server plays, it is nothing.
#[tactic(auto, using(crate::proofs::WaveLemmas::no_head))]
pub fn recording_in(bytes: &[u8]) -> Option<Recording<'_>>
    ensures value { Finds heard result (wave_in bytes.now) }
    ensures whole { IfSome result IsWhole }
{
    if !is_headed(bytes) {
        return None;
    }
    let chunk = first_named(FORMAT, DATA, chunks_of(bytes))?;
    recording_from(chunk)
}
