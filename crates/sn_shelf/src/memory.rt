ghost use Rattle.std.specs.Prelude.{◌≡◌, ◌⊎◌, ◌↔◌, ◌≤◌, Some, None, Err, IsTrue, IfOk, IfSome, IfNone, length, take, drop, min};
ghost use Rattle.std.specs.Io.{ReadsAtMost};
ghost use Rattle.sn_ports.specs.Causes.{Rose};
ghost use Rattle.sn_ports.specs.Fake.{FailsNext, counted};
ghost use Rattle.sn_shelf.specs.Files.{ReadsNamed, AreDistinct, bytes_named, files_of};

use crate::traits::{Shelf, Unshelved};
use sn_ports::{Calls, Text};
use std::marker::Model;

/// A file in memory.
#[derive(Debug, Drop)]
pub struct ShelfFile {
    /// Its name.
    pub name: Text,
    /// What it holds.
    pub bytes: Text,
}

/// Files with names that differ.
pub type Files = Vec<ShelfFile>;

/// A shelf of files in memory. The calls whose numbers, from 0, stand in `fails` fail.
#[derive(Debug, Drop)]
pub struct MemoryShelf {
    files: Files,
    fails: Calls,
    /// How many calls there have been, up to 2^32 - 1, which is the number of each later call.
    calls: u32,
    faults: u64,
}

impl Model for MemoryShelf {
    ghost use Rattle.sn_shelf.specs.Files.{Stocked, files_of};

    ghost Value = { Stocked };

    ghost view = { λ s. record { files = files_of s.files.items; fails = s.fails; calls = s.calls; faults = s.faults } };
}

/// The bytes of the file with this name.
fn bytes_named<'a>(files: &'a [ShelfFile], name: &[u8]) -> Option<&'a [u8]>
    ensures found { IfSome result (λ b. bytes_named name.now (files_of files.now) ≡ Some b.now) }
    ensures none { IfNone result (bytes_named name.now (files_of files.now) ≡ None) }
{
    for file in files {
        if file.name.as_slice() == name {
            return Some(file.bytes.as_slice());
        }
    }
    None
}

/// Moves as many of the bytes as there is room for, and returns how many.
fn give(bytes: &[u8], into: &mut [u8]) -> usize
    ensures count { result ≡ min (length bytes.now) (length into.new) }
    ensures bytes { take result into.new ≡ take result bytes.now }
{
    let count = bytes.len().min(into.len());
    into[..count].copy_from_slice(&bytes[..count]);
    count
}

/// The bytes from a place on.
fn from_place(bytes: &[u8], at: u32) -> &[u8]
    ensures { result.now ≡ drop at bytes.now }
{
    bytes.get(at as usize..).unwrap_or(&[])
}

impl MemoryShelf {
    /// A shelf of these files. No call was made yet.
    pub fn new(files: Files, fails: Calls) -> Self
        requires { AreDistinct (files_of files.items) }
        ensures { result ≡ record { files = files_of files.items; fails = fails; calls = 0; faults = 0 } }
    {
        MemoryShelf {
            files,
            fails,
            calls: 0,
            faults: 0,
        }
    }

    /// How many calls failed.
    pub fn faults(&self) -> u64
        ensures { result ≡ self.now.faults }
    {
        self.faults
    }
}

impl Shelf for MemoryShelf {
    ghost files = { λ s. Some s.files };

    ghost faults = { λ s. s.faults };

    fn read(&mut self, name: &Text, at: u32, into: &mut [u8]) -> Result<usize, Unshelved>
        ensures bound { ReadsAtMost result into.new }
        ensures bytes { ReadsNamed (Some self.old.files) name.now.bytes at result into.new }
        ensures kept { Some self.new.files ≡ Some self.old.files }
        ensures later { self.old.faults ≤ self.new.faults }
        ensures failed { result ≡ Err Unshelved.Failed → Rose self.old.faults self.new.faults }
        ensures unfailed { (result ≡ Err Unshelved.Failed) ⊎ (self.new.faults ≡ self.old.faults) }
        // It fails exactly if the number of the call is one of those that fail.
        ensures fails { (result ≡ Err Unshelved.Failed) ↔ FailsNext self.old.fails self.old.calls }
        ensures calls { self.new.calls ≡ counted 32 self.old.calls }
        ensures listed { self.new.fails ≡ self.old.fails }
    {
        let call = self.calls;
        self.calls = call.saturating_add(1);
        if self.fails.contains(call) {
            self.faults = self.faults.saturating_add(1);
            return Err(Unshelved::Failed);
        }
        match bytes_named(&self.files, name.as_slice()) {
            None => Err(Unshelved::Missing),
            Some(bytes) => Ok(give(from_place(bytes, at), into)),
        }
    }
}
