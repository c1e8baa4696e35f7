//! What says when a block of a session is due.
ghost use Rattle.std.specs.Prelude.{◌≡◌};
ghost use Rattle.snova.specs.Pacing.{by_sound};

use sn_tcp::Pace;
use sn_words::{Pacing, ServeWords};
use std::fs::{OpenFile, OpenOptions};
use std::rt::Files;
use std::{fs, io};

/// Why a regular file is refused at the pace of the sound.
const NO_PACE: &str = "a file takes all at once and sets no pace, which a pipe or a device does";

/// The pace that the words choose, at the rate of the settings.
pub(crate) fn pace_of(chosen: &ServeWords) -> Pace
    ensures rate { result.rate ≡ chosen.now.settings.rate }
    ensures sound { result.by_sound ≡ by_sound chosen.now.pacing }
{
    match chosen.pacing {
        Pacing::Clock => Pace::by_clock(chosen.settings.rate),
        Pacing::Sound => Pace::by_sound(chosen.settings.rate),
    }
}

/// A file that makes who writes wait. A regular one is refused, and stays as it is.
fn open_paced<H: Files>(rt: &H, path: &str) -> io::Result<H::File> {
    let file = OpenOptions::new().write(true).open(rt, path)?;
    if file.metadata()?.is_file() {
        return Err(io::Error::new(io::ErrorKind::InvalidInput, NO_PACE));
    }
    Ok(file)
}

/// The file of a session's sound.
pub(crate) fn open_sound<H: Files>(rt: &H, path: &str, chosen: &ServeWords) -> io::Result<H::File> {
    match chosen.pacing {
        Pacing::Clock => fs::create(rt, path),
        Pacing::Sound => open_paced(rt, path),
    }
}
