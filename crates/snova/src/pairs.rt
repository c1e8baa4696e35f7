//! A file that is read, and another that is made of it.
ghost use Rattle.std.specs.Prelude.{◌≡◌, IfOk, IsTrue, is_some};
ghost use Rattle.sn_files.specs.Kept.{AreOne};
ghost use Rattle.snova.specs.Paths.{is_other};

use crate::reasons::{named_twice, stands_once, told};
use sn_files::{GivenFile, MadeFile};
use std::fs::OpenFile;
use std::io;
use std::io::{Eprint, Read, Write};
use std::rt::Files;

/// The paths of a file that is read, and of one that is made of it.
#[derive(Clone, Copy)]
pub(crate) struct Paths<'a> {
    pub(crate) given: &'a str,
    pub(crate) made: &'a str,
}

/// The files at two paths. Neither was read or written.
#[derive(Drop)]
pub(crate) struct Pair<F: Read + Write + OpenFile + Drop> {
    pub(crate) given: GivenFile<F>,
    pub(crate) made: MadeFile<F>,
}

/// Whether the two paths are not spelled alike.
fn is_other(given: &str, made: &str) -> bool
    ensures { result ≡ is_other given.now made.now }
{
    given != made
}

/// Opens the files at two paths. They are not one file.
fn open_both<H: Files + Eprint>(rt: &H, paths: &Paths<'_>) -> io::Result<Pair<H::File>>
    requires apart { IsTrue (is_other paths.now.given.now paths.now.made.now) }
    ensures kept { IfOk result (λ pair. pair.made.is_kept ≡ is_some pair.made.identity) }
    ensures apart { IfOk result (λ pair. AreOne pair.made.identity pair.given.identity → ⊥) }
{
    let given = told(rt, paths.given, GivenFile::open(rt, paths.given))?;
    let made = told(rt, paths.made, MadeFile::open(rt, paths.made))?;
    stands_once(rt, paths.made, made.identity(), given.identity())?;
    Ok(Pair { given, made })
}

/// Opens the files at two paths, unless they are one file.
pub(crate) fn open_pair<H: Files + Eprint>(rt: &H, paths: &Paths<'_>) -> io::Result<Pair<H::File>>
    ensures kept { IfOk result (λ pair. pair.made.is_kept ≡ is_some pair.made.identity) }
    ensures apart { IfOk result (λ pair. AreOne pair.made.identity pair.given.identity → ⊥) }
{
    if !is_other(paths.given, paths.made) {
        return Err(named_twice(rt, paths.made));
    }
    open_both(rt, paths)
}
