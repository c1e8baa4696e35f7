//! Which file or connection failed, and why, on the standard error.
ghost use Rattle.std.specs.Prelude.{◌≡◌, OnOk};
ghost use Rattle.sn_files.specs.Kept.{AreOne};

use sn_files::{Identity, are_one};
use std::io;
use std::io::Eprint;

/// What is said of a file that two words name.
const TWICE: &str = "the words name this file twice";

/// Says what failed, and why.
pub(crate) fn tell<H: Eprint>(rt: &H, what: &str, error: io::Error) {
    // If nothing can be said, the line on the standard output and the status stand.
    let _ = eprintln!(rt; "snova: {what}: {error}");
}

/// Says what failed, and why, if it did.
pub(crate) fn tell_last<H: Eprint>(rt: &H, what: &str, error: Option<io::Error>) {
    if let Some(error) = error {
        tell(rt, what, error);
    }
}

/// Answers what was answered of a file or a connection, and says why if it is an error.
pub(crate) fn told<H: Eprint, T: Drop>(rt: &H, what: &str, answer: io::Result<T>) -> io::Result<T>
    ensures { result ≡ answer }
{
    match answer {
        Ok(value) => Ok(value),
        Err(error) => {
            tell(rt, what, error);
            Err(error)
        }
    }
}

/// What is answered of a path that the words name twice. It is said.
pub(crate) fn named_twice<H: Eprint>(rt: &H, path: &str) -> io::Error {
    let error = io::Error::new(io::ErrorKind::InvalidInput, TWICE);
    tell(rt, path, error);
    error
}

/// Refuses the file at a path if it is another file of the words.
pub(crate) fn stands_once<H: Eprint>(
    rt: &H,
    path: &str,
    file: Option<Identity>,
    other: Option<Identity>,
) -> io::Result<()>
    ensures { OnOk result (AreOne file other → ⊥) }
{
    if are_one(file, other) {
        return Err(named_twice(rt, path));
    }
    Ok(())
}
