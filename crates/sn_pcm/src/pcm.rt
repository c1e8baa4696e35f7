//! Samples as PCM bytes.
ghost use Rattle.std.specs.Prelude.{◌≡◌, ◌≤◌, ◌+◌, ◌*◌, ◌/◌, ◌++◌, ℤ, List, length};
ghost use Rattle.sn_pcm.specs.Pcm.{bytes_16, bytes_24, sample_bytes, pcm, HasPcmLength};
ghost use Rattle.sn_pcm.specs.declared.settings.Settings.{Settings};

use crate::settings::Settings;
use sn_ports::Text;

fn bytes_16(x: i32) -> [u8; 2]
    ensures { result ≡ bytes_16 x }
{
    (x.div_euclid(512).clamp(-32_768, 32_767) as i16).to_le_bytes()
}

fn bytes_24(x: i32) -> [u8; 3]
    ensures { result ≡ bytes_24 x }
{
    let [low, middle, high, _] = x.div_euclid(2).clamp(-8_388_608, 8_388_607).to_le_bytes();
    [low, middle, high]
}

#[tactic(auto, unfolding(crate::specs::Pcm::sample_bytes))]
fn append_sample(settings: &Settings, x: i32, out: &mut Text)
    requires { settings.now.bits / 8 ≤ out.old.spare }
    ensures bytes { out.new.bytes ≡ out.old.bytes ++ sample_bytes settings.now x }
    ensures room { out.old.spare ≤ out.new.spare + settings.now.bits / 8 }
{
    if settings.bits == 16 {
        out.append_within(&bytes_16(x));
    } else {
        out.append_within(&bytes_24(x));
    }
}

/// Appends the samples of whole frames, each frame's in the order of the channels, as little-endian
/// PCM of the settings' bits: a sample `x` becomes `floor(x / 512)` clamped to 16 bits, or
/// `floor(x / 2)` clamped to 24 bits (RIFF WAVE). It takes no memory.
pub fn frames(settings: &Settings, samples: &[i32], out: &mut Text)
    requires { length samples.now * (settings.now.bits / 8) ≤ out.old.spare }
    ensures bytes { out.new.bytes ≡ out.old.bytes ++ pcm settings.now samples.now }
    ensures room { out.old.spare ≤ out.new.spare + length samples.now * (settings.now.bits / 8) }
{
    for x in samples {
        append_sample(settings, *x, out);
    }
}

/// Each sample takes two or three bytes, by the settings' bits.
pub fn pcm_length()
    ensures { (settings : Settings) (samples : List ℤ) → HasPcmLength settings samples }
{}
