//! Which file is which.
ghost use Rattle.std.specs.Prelude.{◌↔◌, IsTrue};
ghost use Rattle.sn_files.specs.Kept.{AreOne};

use std::fs::{Metadata, OpenFile};
use std::io;
use std::os::unix::fs::MetadataExt;

/// A regular file's device, and its number there.
#[derive(Clone, Copy, Debug, PartialEq, Eq)]
pub struct Identity {
    device: u64,
    number: u64,
}

fn identity_in(metadata: &Metadata) -> Option<Identity> {
    if !metadata.is_file() {
        return None;
    }
    Some(Identity {
        device: metadata.dev(),
        number: metadata.ino(),
    })
}

/// The identity of an open file. A folder, a pipe or a device has none.
pub(crate) fn identity_of<F: OpenFile>(file: &F) -> io::Result<Option<Identity>> {
    Ok(identity_in(&file.metadata()?))
}

/// Whether both are one regular file.
pub fn are_one(file: Option<Identity>, other: Option<Identity>) -> bool
    ensures { IsTrue result ↔ AreOne file other }
{
    match (file, other) {
        (Some(file), Some(other)) => file.device == other.device && file.number == other.number,
        _ => false,
    }
}
