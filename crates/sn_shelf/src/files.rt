//! Whole files, read from a shelf in pieces.
ghost use Rattle.std.specs.Prelude.{◌≡◌, ◌⊎◌, ◌≤◌, ◌<◌, ◌+◌, Ok, Err, IfOk, IfSome, length, option_map};
ghost use Rattle.sn_ports.specs.Limits.{most_file};
ghost use Rattle.sn_ports.specs.Causes.{Rose};
ghost use Rattle.sn_shelf.specs.Files.{IsReadNamed, AnswersPiece, within_limit, bytes_named};

use crate::fault::Unexpanded;
use crate::traits::{Shelf, Unshelved};
use sn_ports::Text;
use sn_ports::limits::MOST_FILE;
use std::alloc::{AllocError, Global};

/// How many bytes are asked for at once.
pub(crate) const PIECE: usize = 1048576;

/// What came of a file.
#[derive(Clone, Copy, Debug, PartialEq, Eq)]
enum Piece {
    /// Some of its bytes.
    More,
    /// Nothing, since all of it was read.
    End,
    /// Nothing, since there is no such file.
    NoFile,
}

/// `len` bytes to write over.
pub(crate) fn zeroed(alloc: Global, len: usize) -> Result<Vec<u8>, AllocError>
    ensures { IfOk result (λ v. length v.items ≡ len) }
{
    vec![in alloc; 0; len]
}

/// Reads what comes next of a file, and puts it at the end of what was read.
#[tactic(auto, using(crate::proofs::FileLemmas::reads_more, crate::proofs::FileLemmas::reads_none))]
fn read_piece<H: Shelf>(
    shelf: &mut H,
    name: &Text,
    piece: &mut [u8],
    bytes: &mut Text,
) -> Result<Piece, Unexpanded>
    requires some { 0 < length piece.old }
    requires few { length bytes.old.bytes ≤ most_file }
    ensures told { IfSome (H.files shelf.old) (λ fs. AnswersPiece (bytes_named name.now.bytes fs) result bytes.old.bytes bytes.new.bytes) }
    ensures more { result ≡ Ok Piece.More → length bytes.old.bytes < length bytes.new.bytes }
    ensures end { result ≡ Ok Piece.End → bytes.new.bytes ≡ bytes.old.bytes }
    ensures bound { length bytes.new.bytes ≤ length bytes.old.bytes + length piece.old }
    ensures size { length piece.new ≡ length piece.old }
    ensures kept { H.files shelf.new ≡ H.files shelf.old }
    ensures later { H.faults shelf.old ≤ H.faults shelf.new }
    ensures failed { result ≡ Err Unexpanded.Failed → Rose (H.faults shelf.old) (H.faults shelf.new) }
    ensures unfailed { (result ≡ Err Unexpanded.Failed) ⊎ (H.faults shelf.new ≡ H.faults shelf.old) }
{
    match shelf.read(name, bytes.len() as u32, piece) {
        Ok(0) => Ok(Piece::End),
        Ok(count) => {
            bytes.append(&piece[..count])?;
            Ok(Piece::More)
        }
        Err(Unshelved::Missing) => Ok(Piece::NoFile),
        Err(Unshelved::Failed) => Err(Unexpanded::Failed),
    }
}

/// The bytes of the file with this name, if there is one of at most 33,554,432 bytes, read by way of a piece. A longer
/// one is not read to its end.
#[tactic(auto, using(crate::proofs::FileLemmas::read_whole, crate::proofs::FileLemmas::read_nothing, crate::proofs::FileLemmas::read_some, crate::proofs::FileLemmas::read_too_much, crate::proofs::FileLemmas::none_read))]
pub(crate) fn read_by<H: Shelf>(
    alloc: Global,
    shelf: &mut H,
    piece: &mut [u8],
    name: &Text,
) -> Result<Option<Text>, Unexpanded>
    requires { length piece.old ≡ 1048576 }
    ensures told { IfSome (H.files shelf.old) (λ fs. IfOk result (λ o. option_map (λ t. t.bytes) o ≡ within_limit (bytes_named name.now.bytes fs))) }
    ensures kept { H.files shelf.new ≡ H.files shelf.old }
    ensures later { H.faults shelf.old ≤ H.faults shelf.new }
    ensures failed { result ≡ Err Unexpanded.Failed → Rose (H.faults shelf.old) (H.faults shelf.new) }
    ensures unfailed { (result ≡ Err Unexpanded.Failed) ⊎ (H.faults shelf.new ≡ H.faults shelf.old) }
{
    let mut bytes = Text::new(alloc);
    while bytes.len() <= MOST_FILE {
        match read_piece(shelf, name, piece, &mut bytes)? {
            Piece::More => {}
            Piece::End => return Ok(Some(bytes)),
            Piece::NoFile => return Ok(None),
        }
    }
    Ok(None)
}

/// The bytes of the file with this name, if there is one of at most 33,554,432 bytes. A longer one is not read to its
/// end.
pub fn read_file<H: Shelf>(
    alloc: Global,
    shelf: &mut H,
    name: &Text,
) -> Result<Option<Text>, Unexpanded>
    ensures told { IfSome (H.files shelf.old) (λ fs. IfOk result (λ o. option_map (λ t. t.bytes) o ≡ within_limit (bytes_named name.now.bytes fs))) }
    ensures kept { H.files shelf.new ≡ H.files shelf.old }
    ensures later { H.faults shelf.old ≤ H.faults shelf.new }
    ensures failed { result ≡ Err Unexpanded.Failed → Rose (H.faults shelf.old) (H.faults shelf.new) }
    ensures unfailed { (result ≡ Err Unexpanded.Failed) ⊎ (H.faults shelf.new ≡ H.faults shelf.old) }
{
    let mut piece = zeroed(alloc, PIECE)?;
    read_by(alloc, shelf, &mut piece, name)
}
