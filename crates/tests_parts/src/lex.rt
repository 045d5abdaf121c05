//! A text of 16 MiB is read to its end.

use ct_lex::{LexFault, Lexer};
use std::alloc::{AllocError, Global};
use std::test::Fail;

/// How many times the load repeats its piece: 16 MiB together.
const PIECES: u32 = 131_072;

/// A piece of 128 bytes and three lines.
const PIECE: &[u8] =
    b"add_test([=[unit one]=] \"/home/u/demo/unit\" --faster a\\;b ${x}y)\n# a comment up to the end of its line\nset_property(a \"b;c\" x)\n\n";

/// Returns the piece, again and again.
fn pieces(alloc: Global) -> Result<Vec<u8>, AllocError> {
    let mut text = Vec::new(alloc);
    for _ in 0..PIECES {
        text.extend_from_slice(PIECE)?;
    }
    Ok(text)
}

/// Reads up to the end of the pieces, and returns the line of the last command.
fn last_line(alloc: Global, lexer: &mut Lexer) -> Result<u32, LexFault> {
    let mut last = 0;
    for _ in 0..=2 * PIECES {
        match lexer.next(alloc)? {
            Some(call) => last = call.line,
            None => return Ok(last),
        }
    }
    Ok(0)
}

#[test]
fn reads_sixteen_mebibytes(rt: HostRuntime) -> Result<(), Fail> {
    let text = pieces(rt.alloc())?;
    assert!(rt; text.len() == 16 * 1024 * 1024);
    let last = last_line(rt.alloc(), &mut Lexer::new(text.as_slice()))?;
    assert!(rt; last == 4 * PIECES - 1, "{last}");
    Ok(())
}
