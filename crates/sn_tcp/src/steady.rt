//! Calls on a socket that are tried again if they were interrupted.
ghost use Rattle.std.specs.Prelude.{◌≡◌};
ghost use Rattle.std.specs.Io.{ReadsAtMost, WritesAtMost};
ghost use Rattle.std.specs.Io.KnownBytes.{Keeps, ReadConsumes, WriteAppends};

use std::io;
use std::io::{Read, Write};

/// What is said of a call that was interrupted each time.
const TOO_OFTEN: &str = "interrupted too often";

/// Writes a prefix of the piece. A write that was interrupted is tried again.
pub(crate) fn write_again<W: Write>(writer: &mut W, piece: &[u8]) -> io::Result<usize>
    ensures bound { WritesAtMost result piece.now }
    ensures bytes { WriteAppends (W.contents writer.old) (W.contents writer.new) result piece.now }
{
    for _ in 0..u64::MAX {
        match writer.write(piece) {
            Err(error) if error.kind() == io::ErrorKind::Interrupted => {}
            told => return told,
        }
    }
    Err(io::Error::other(TOO_OFTEN))
}

/// Reads what comes. A read that was interrupted is tried again.
fn read_again<R: Read>(reader: &mut R, into: &mut [u8]) -> io::Result<usize>
    ensures bound { ReadsAtMost result into.new }
    ensures bytes { ReadConsumes (R.remaining reader.old) (R.remaining reader.new) result into.new }
{
    for _ in 0..u64::MAX {
        match reader.read(into) {
            Err(error) if error.kind() == io::ErrorKind::Interrupted => {}
            given => return given,
        }
    }
    Err(io::Error::other(TOO_OFTEN))
}

/// A socket whose calls are tried again if they were interrupted, as by a stop of the program that was continued.
#[derive(Drop)]
pub struct Steady<S> {
    socket: S,
}

impl<S> Steady<S> {
    /// The calls of this socket.
    pub fn new(socket: S) -> Self
        ensures { result.socket ≡ socket }
    {
        Steady { socket }
    }
}

impl<S: Read> Read for Steady<S> {
    ghost remaining = { λ steady. S.remaining steady.socket };

    fn read(&mut self, into: &mut [u8]) -> io::Result<usize> {
        read_again(&mut self.socket, into)
    }
}

impl<S: Write> Write for Steady<S> {
    ghost contents = { λ steady. S.contents steady.socket };

    fn write(&mut self, piece: &[u8]) -> io::Result<usize> {
        write_again(&mut self.socket, piece)
    }

    fn flush(&mut self) -> io::Result<()>
        ensures { Keeps (S.contents self.old.socket) (S.contents self.new.socket) }
    {
        self.socket.flush()
    }
}
