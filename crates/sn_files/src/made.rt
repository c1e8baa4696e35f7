//! Files that are opened to be read, and files that are emptied at their first byte.
ghost use Rattle.std.specs.Prelude.{◌≡◌, false, OnOk, IfOk, is_some, length};
ghost use Rattle.std.specs.Io.{ReadsAtMost, WritesAtMost};
ghost use Rattle.std.specs.Io.KnownBytes.{Keeps, ReadConsumes, WriteAppends};

use crate::identity::{Identity, identity_of};
use std::fs::{OpenFile, OpenOptions};
use std::io::{Read, Write};
use std::rt::Files;
use std::{fs, io};

/// A file that is read.
#[derive(Drop)]
pub struct GivenFile<F: Read + OpenFile + Drop> {
    file: F,
    identity: Option<Identity>,
}

impl<F: Read + OpenFile + Drop> GivenFile<F> {
    /// The file at the path.
    pub fn open<H: Files<File = F>>(rt: &H, path: &str) -> io::Result<Self> {
        let file = fs::open(rt, path)?;
        let identity = identity_of(&file)?;
        Ok(GivenFile { file, identity })
    }

    /// Which regular file it is, if it is one.
    pub fn identity(&self) -> Option<Identity>
        ensures { result ≡ self.now.identity }
    {
        self.identity
    }
}

impl<F: Read + OpenFile + Drop> Read for GivenFile<F> {
    ghost remaining = { λ given. F.remaining given.file };

    fn read(&mut self, into: &mut [u8]) -> io::Result<usize>
        ensures bound { ReadsAtMost result into.new }
        ensures bytes { ReadConsumes (F.remaining self.old.file) (F.remaining self.new.file) result into.new }
        ensures identity { self.new.identity ≡ self.old.identity }
    {
        self.file.read(into)
    }
}

/// A file that is written from its start on. What it held when it was opened stays until the first byte is written, or
/// until `finish`.
///
/// Only a regular file is emptied; a pipe or a device keeps nothing.
#[derive(Drop)]
pub struct MadeFile<F: Write + OpenFile + Drop> {
    file: F,
    identity: Option<Identity>,
    /// Whether it holds what it held when it was opened.
    is_kept: bool,
}

impl<F: Write + OpenFile + Drop> MadeFile<F> {
    /// The file at the path, which is made if there is none.
    pub fn open<H: Files<File = F>>(rt: &H, path: &str) -> io::Result<Self>
        ensures kept { IfOk result (λ made. made.is_kept ≡ is_some made.identity) }
    {
        let file = OpenOptions::new().write(true).create(true).open(rt, path)?;
        let identity = identity_of(&file)?;
        Ok(MadeFile {
            file,
            identity,
            is_kept: identity.is_some(),
        })
    }

    /// Which regular file it is, if it is one.
    pub fn identity(&self) -> Option<Identity>
        ensures { result ≡ self.now.identity }
    {
        self.identity
    }

    /// Empties it, unless that was done or a byte was written.
    pub fn finish(&mut self) -> io::Result<()>
        ensures emptied { OnOk result (self.new.is_kept ≡ false) }
        ensures file { self.new.file ≡ self.old.file }
        ensures identity { self.new.identity ≡ self.old.identity }
    {
        if self.is_kept {
            self.file.set_len(0)?;
            self.is_kept = false;
        }
        Ok(())
    }
}

impl<F: Write + OpenFile + Drop> Write for MadeFile<F> {
    ghost contents = { λ made. F.contents made.file };

    fn write(&mut self, piece: &[u8]) -> io::Result<usize>
        ensures bound { WritesAtMost result piece.now }
        ensures bytes { WriteAppends (F.contents self.old.file) (F.contents self.new.file) result piece.now }
        ensures identity { self.new.identity ≡ self.old.identity }
        // Nothing is lost for no byte, and no byte is put on what was there before.
        ensures none { length piece.now ≡ 0 → self.new.is_kept ≡ self.old.is_kept }
        ensures some { OnOk result ((length piece.now ≡ 0 → ⊥) → self.new.is_kept ≡ false) }
    {
        if !piece.is_empty() {
            self.finish()?;
        }
        self.file.write(piece)
    }

    fn flush(&mut self) -> io::Result<()>
        ensures bytes { Keeps (F.contents self.old.file) (F.contents self.new.file) }
        ensures identity { self.new.identity ≡ self.old.identity }
        ensures kept { self.new.is_kept ≡ self.old.is_kept }
    {
        self.file.flush()
    }
}
