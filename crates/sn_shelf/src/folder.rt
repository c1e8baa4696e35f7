//! A shelf over the files below a folder.
ghost use Rattle.std.specs.Prelude.{◌≡◌, ◌≤◌, None, IfOk, IfSome, length};
ghost use Rattle.std.specs.Io.{ReadsAtMost};
ghost use Rattle.sn_ports.specs.Causes.{Rose};

use crate::traits::{Shelf, Unshelved};
use sn_ports::Text;
use std::alloc::Global;
use std::io::{ErrorKind, Read, Seek, SeekFrom};
use std::rt::Files;
use std::{fs, io};

/// A shelf over the files below the folder in which the program runs.
///
/// A name is a path in UTF-8, with `/` between its parts. It is missing if it is absolute or has a part `..`, or if it
/// names no regular file. Links are followed, even out of the folder. Contracts don't know the content.
#[derive(Drop)]
pub struct FolderShelf<'a, H: Files> {
    rt: &'a H,
    alloc: Global,
    faults: u64,
    unread: Option<Unread>,
}

/// A file that failed, and why.
#[derive(Drop)]
pub struct Unread {
    /// Its name, or no byte if there was no memory for it.
    pub name: Text,
    /// Why it failed.
    pub error: io::Error,
}

impl<'a, H: Files> FolderShelf<'a, H> {
    /// A shelf that has not failed.
    pub fn new(rt: &'a H, alloc: Global) -> Self
        ensures { result.faults ≡ 0 }
    {
        FolderShelf {
            rt,
            alloc,
            faults: 0,
            unread: None,
        }
    }

    /// The file that failed last, if one did.
    pub fn unread(&self) -> &Option<Unread>
        ensures { result.now ≡ self.now.unread }
    {
        &self.unread
    }

    /// Counts a failure, and notes the file and why it failed.
    fn note(&mut self, name: &Text, error: io::Error)
        ensures later { self.old.faults ≤ self.new.faults }
        ensures rose { Rose self.old.faults self.new.faults }
    {
        self.faults = self.faults.saturating_add(1);
        let name = Text::from_slice(self.alloc, name.as_slice());
        self.unread = Some(Unread {
            name: name.unwrap_or(Text::new(self.alloc)),
            error,
        });
    }
}

/// Whether the name stays inside the folder, apart from links.
fn is_inside(name: &str) -> bool {
    !name.starts_with('/') && name.split('/').all(|part| part != "..")
}

/// Whether a file that can't be looked at isn't there.
fn is_absent(kind: ErrorKind) -> bool {
    matches!(
        kind,
        ErrorKind::NotFound | ErrorKind::NotADirectory | ErrorKind::InvalidFilename
    )
}

/// Whether there is a regular file at the path.
fn is_there<H: Files>(rt: &H, path: &str) -> io::Result<bool> {
    match fs::metadata(rt, path) {
        Ok(metadata) => Ok(metadata.is_file()),
        Err(e) if is_absent(e.kind()) => Ok(false),
        Err(e) => Err(e),
    }
}

/// Moves bytes of the file at the path, from a place on.
fn read_at<H: Files>(rt: &H, path: &str, at: u32, into: &mut [u8]) -> io::Result<usize>
    ensures { ReadsAtMost result into.new }
{
    let mut file = fs::open(rt, path)?;
    file.seek(SeekFrom::Start(u64::from(at)))?;
    file.read(into)
}

/// What a file below the folder gives, or nothing if there is none.
fn read_inside<H: Files>(rt: &H, name: &[u8], at: u32, into: &mut [u8]) -> io::Result<Option<usize>>
    ensures { IfOk result (λ o. IfSome o (λ n. n ≤ length into.new)) }
{
    let Ok(path) = str::from_utf8(name) else {
        return Ok(None);
    };
    if !is_inside(path) || !is_there(rt, path)? {
        return Ok(None);
    }
    Ok(Some(read_at(rt, path, at, into)?))
}

impl<'a, H: Files> Shelf for FolderShelf<'a, H> {
    ghost files = { λ _. None };

    ghost faults = { λ s. s.faults };

    fn read(&mut self, name: &Text, at: u32, into: &mut [u8]) -> Result<usize, Unshelved> {
        match read_inside(self.rt, name.as_slice(), at, into) {
            Ok(Some(count)) => Ok(count),
            Ok(None) => Err(Unshelved::Missing),
            Err(error) => {
                self.note(name, error);
                Err(Unshelved::Failed)
            }
        }
    }
}
