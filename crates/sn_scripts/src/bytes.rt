//! The bytes of messages, as Open Sound Control 1.0 spells them, and of the header of a WAV file.
use sn_pcm::Settings;
use sn_ports::{NoMemory, Text};
use std::alloc::Global;

/// An argument of a message, as a script gives it.
#[derive(Clone, Copy)]
pub enum Given<'a> {
    Int(i32),
    Word(&'a str),
    Blob(&'a [u8]),
}

impl Given<'_> {
    fn tag(&self) -> u8 {
        match self {
            Given::Int(_) => b'i',
            Given::Word(_) => b's',
            Given::Blob(_) => b'b',
        }
    }
}

/// Null bytes up to a multiple of 4, at least `least`.
fn pad(out: &mut Text, len: usize, least: usize) -> Result<(), NoMemory> {
    let zeros = if len % 4 == 0 { least } else { 4 - len % 4 };
    for _ in 0..zeros {
        out.append(&[0])?;
    }
    Ok(())
}

fn put_string(out: &mut Text, text: &[u8]) -> Result<(), NoMemory> {
    out.append(text)?;
    pad(out, text.len(), 4)
}

/// A length as an int32.
pub fn size_of(bytes: &[u8]) -> Result<[u8; 4], NoMemory> {
    match u32::try_from(bytes.len()) {
        Ok(size) => Ok(size.to_be_bytes()),
        Err(_) => Err(NoMemory),
    }
}

/// Bytes after their length.
pub fn put_sized(out: &mut Text, bytes: &[u8]) -> Result<(), NoMemory> {
    out.append(&size_of(bytes)?)?;
    out.append(bytes)
}

fn put_argument(out: &mut Text, argument: Given<'_>) -> Result<(), NoMemory> {
    match argument {
        Given::Int(value) => out.append(&value.to_be_bytes()),
        Given::Word(word) => put_string(out, word.as_bytes()),
        Given::Blob(bytes) => {
            put_sized(out, bytes)?;
            pad(out, bytes.len(), 0)
        }
    }
}

/// A message with all its arguments.
pub fn message(alloc: Global, address: &str, arguments: &[Given<'_>]) -> Result<Text, NoMemory> {
    let mut out = Text::new(alloc);
    put_string(&mut out, address.as_bytes())?;
    let mut tags = Text::new(alloc);
    tags.append(b",")?;
    for argument in arguments {
        tags.append(&[argument.tag()])?;
    }
    put_string(&mut out, tags.as_slice())?;
    for argument in arguments {
        put_argument(&mut out, *argument)?;
    }
    Ok(out)
}

/// The head of a bundle with a time tag.
pub fn bundle_head(alloc: Global, tag: u64) -> Result<Text, NoMemory> {
    let mut out = Text::new(alloc);
    put_string(&mut out, b"#bundle")?;
    out.append(&tag.to_be_bytes())?;
    Ok(out)
}

/// The header of a WAV file of `blocks` blocks.
pub fn header(alloc: Global, settings: &Settings, blocks: u64) -> Result<Text, NoMemory> {
    let width = settings.channels.wrapping_mul(settings.bits) / 8;
    let Ok(len) = u32::try_from(blocks.wrapping_mul(64).wrapping_mul(u64::from(width))) else {
        return Err(NoMemory);
    };
    let mut out = Text::new(alloc);
    // Two numbers of 16 bits stand in a word: PCM and the channels, the width of a frame and the bits of a sample.
    for word in [
        *b"RIFF",
        len.wrapping_add(36).to_le_bytes(),
        *b"WAVE",
        *b"fmt ",
        16_u32.to_le_bytes(),
        settings
            .channels
            .wrapping_mul(65536)
            .wrapping_add(1)
            .to_le_bytes(),
        settings.rate.to_le_bytes(),
        settings.rate.wrapping_mul(width).to_le_bytes(),
        settings
            .bits
            .wrapping_mul(65536)
            .wrapping_add(width)
            .to_le_bytes(),
        *b"data",
        len.to_le_bytes(),
    ] {
        out.append(&word)?;
    }
    Ok(out)
}

/// The FNV-1a sum of bytes, of 64 bits.
pub fn sum_of(bytes: &[u8]) -> u64 {
    let mut sum: u64 = 14695981039346656037;
    for byte in bytes {
        sum = (sum ^ u64::from(*byte)).wrapping_mul(1099511628211);
    }
    sum
}
