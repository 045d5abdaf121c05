ghost use Rattle.std.specs.Prelude.{◌≡◌, ◌+◌, ◌<◌, ◌≤◌, IfOk, OnErr, OnOk, false, length, true};
ghost use Rattle.std.specs.Io.KnownBytes.{IsAtEnd};
ghost use Rattle.ct_base.specs.Outside.{Adds, AddsPrefix, Becomes};
ghost use Rattle.ct_edge.specs.Transfer.{Moves, ReadsUpTo};

use ct_base::{Blob, FilesFault};
use std::alloc::Global;
use std::io;
use std::io::{ErrorKind, Read, Write};

/// Reads to the end, but at most one byte more than `most`, however few bytes come at a time.
///
/// It takes memory only for what has been read.
pub fn read_up_to<R: Read>(alloc: Global, reader: &mut R, most: u64) -> Result<Blob, FilesFault>
    ensures whole { IfOk result (ReadsUpTo most (R.remaining reader.old)) }
    ensures bound { IfOk result (λ bytes. length bytes ≤ most + 1) }
{
    let mut bytes = Blob::new(alloc);
    for _ in 0..u64::MAX {
        let so_far = bytes.bytes().len() as u64;
        if so_far > most || !read_piece(reader, &mut bytes, most - so_far)? {
            return Ok(bytes);
        }
    }
    Err(FilesFault::Failed)
}

/// Reads one piece, of at most one byte more than `most`, and returns whether there was one.
pub fn read_piece<R: Read>(reader: &mut R, bytes: &mut Blob, most: u64) -> Result<bool, FilesFault>
    ensures moved { OnOk result (Moves (R.remaining reader.old) bytes.old (R.remaining reader.new) bytes.new) }
    ensures end { IfOk result (λ more. more ≡ false → IsAtEnd (R.remaining reader.new)) }
    ensures more { IfOk result (λ more. more ≡ true → length bytes.old < length bytes.new) }
    ensures bound { OnOk result (length bytes.new ≤ length bytes.old + most + 1) }
{
    let mut room = [0u8; 8192];
    let wanted = if most < 8191 { most as usize + 1 } else { 8192 };
    match reader.read(&mut room[..wanted]) {
        Ok(got) => {
            bytes.append(&room[..got])?;
            Ok(got > 0)
        }
        Err(_) => Err(FilesFault::Failed),
    }
}

/// Writes the whole piece, however few bytes the writer takes at a time.
///
/// A writer that takes no byte has failed. After an error some
/// first part of the piece was written, which may be empty.
pub fn write_whole<W: Write>(writer: &mut W, piece: &[u8]) -> io::Result<()>
    ensures ok { OnOk result (Becomes (W.contents writer.old) (W.contents writer.new) (Adds piece.now)) }
    ensures err { OnErr result (Becomes (W.contents writer.old) (W.contents writer.new) (AddsPrefix piece.now)) }
{
    let mut left = piece;
    for _ in 0..u64::MAX {
        if left.is_empty() {
            return Ok(());
        }
        match writer.write(left)? {
            0 => break,
            taken => left = &left[taken..],
        }
    }
    Err(io::Error::from(ErrorKind::WriteZero))
}
