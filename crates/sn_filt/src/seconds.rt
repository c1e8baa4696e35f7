//! Times in seconds, of which 1.0 is a second, as places among frames.
ghost use Rattle.std.specs.Prelude.{◌≡◌, ◌<◌, ◌^◌};
ghost use Rattle.sn_filt.specs.Seconds.{span, whole_frames, frame_part};

/// A time in parts of a frame, of which 2^24 are one. Below 0 it is 0.
pub(crate) fn span(time: i32, rate: u32) -> u64
    ensures value { result ≡ span time rate }
    ensures bound { result < 2 ^ 63 }
{
    if time < 0 {
        0
    } else {
        time as u64 * u64::from(rate)
    }
}

/// The whole frames of a place. A place at most 1/256 of a frame before a frame is that frame.
pub(crate) fn whole_frames(place: u64) -> u64
    requires { place < 2 ^ 63 }
    ensures { result ≡ whole_frames place }
{
    (place + 65_536) / 16_777_216
}

/// The part of a place after its whole frames, of which 2^24 are a frame. It is 0 up to 1/256 of a frame after a frame.
pub(crate) fn frame_part(place: u64) -> u32
    requires { place < 2 ^ 63 }
    ensures value { result ≡ frame_part place }
    ensures bound { result < 16777216 }
{
    let part = (place + 65_536) % 16_777_216;
    if part < 131_072 {
        0
    } else {
        (part - 65_536) as u32
    }
}
