//! The header of a WAV file.
ghost use Rattle.std.specs.Prelude.{◌≡◌, ◌≤◌, ◌<◌, ◌+◌, ◌↔◌, IsTrue};
ghost use Rattle.sn_pcm.specs.Sound.{data_len, header_bytes};

use crate::settings::Settings;
use sn_ports::limits::BLOCK_FRAMES;

/// The greatest RIFF size, which is a number of 32 bits.
const MOST_WAV: u128 = 4294967295;

/// The frames of a block.
const FRAMES: u128 = BLOCK_FRAMES as u128;

/// The bytes of the samples of `blocks` blocks.
fn data_bytes(settings: &Settings, blocks: u64) -> u128
    ensures { result ≡ data_len settings.now blocks }
{
    u128::from(blocks) * FRAMES * u128::from(settings.channels) * u128::from(settings.bits) / 8
}

/// Whether the sound of `blocks` blocks is longer than a WAV file may be: the RIFF size, which is 36 more than the
/// bytes of the samples, must be below 2^32.
pub fn too_long(settings: &Settings, blocks: u64) -> bool
    ensures { IsTrue result ↔ (4294967295 < 36 + data_len settings.now blocks) }
{
    36 + data_bytes(settings, blocks) > MOST_WAV
}

/// The header of a WAV file of `blocks` blocks, by RIFF WAVE: the format is PCM, and every number is little-endian.
pub fn header(settings: &Settings, blocks: u64) -> [u8; 44]
    requires { 36 + data_len settings.now blocks ≤ 4294967295 }
    ensures { result ≡ header_bytes settings.now (data_len settings.now blocks) }
{
    let data = data_bytes(settings, blocks) as u32;
    let align = settings.channels * settings.bits / 8;
    let [s0, s1, s2, s3] = (36 + data).to_le_bytes();
    let [c0, c1] = (settings.channels as u16).to_le_bytes();
    let [r0, r1, r2, r3] = settings.rate.to_le_bytes();
    let [p0, p1, p2, p3] = (settings.rate * align).to_le_bytes();
    let [a0, a1] = (align as u16).to_le_bytes();
    let [b0, b1] = (settings.bits as u16).to_le_bytes();
    let [d0, d1, d2, d3] = data.to_le_bytes();
    [
        b'R', b'I', b'F', b'F', s0, s1, s2, s3, b'W', b'A', b'V', b'E', b'f', b'm', b't', b' ', 16,
        0, 0, 0, 1, 0, c0, c1, r0, r1, r2, r3, p0, p1, p2, p3, a0, a1, b0, b1, b'd', b'a', b't',
        b'a', d0, d1, d2, d3,
    ]
}
