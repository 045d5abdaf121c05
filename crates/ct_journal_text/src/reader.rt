ghost use Rattle.std.specs.Prelude.{◌≡◌, IfOk, bytes_eq};
ghost use Rattle.ct_journal_text.specs.Journal.{Says, journal_line_text};
ghost use Rattle.ct_journal_text.specs.Guess.{said_in};

use crate::JournalLine;
use crate::guess::guess_of;
use crate::writer::line_text;
use ct_base::NoMemory;
use std::alloc::Global;

/// Reads one line of a journal, without its line feed. A text that is no line of a journal is `None`.
///
/// The line that the text could be is written once more, and is the answer where that gives the text.
///
/// Source: this project's choice.
pub fn read_line(alloc: Global, line: &[u8]) -> Result<Option<JournalLine>, NoMemory>
    ensures { IfOk result (λ said. Says line.now said) }
{
    Ok(said_of(alloc, line)?)
}

fn said_of(alloc: Global, line: &[u8]) -> Result<Option<JournalLine>, NoMemory>
    ensures { IfOk result (λ said. said ≡ said_in line.now) }
{
    let guess = guess_of(alloc, line)?;
    if is_text_of(alloc, &guess, line)? {
        Ok(Some(guess))
    } else {
        Ok(None)
    }
}

/// Returns whether a text is that of a line of a journal, without its line feed.
fn is_text_of(alloc: Global, line: &JournalLine, text: &[u8]) -> Result<bool, NoMemory>
    ensures { IfOk result (λ same. same ≡ bytes_eq (journal_line_text line.now) text.now) }
{
    let written = line_text(alloc, line)?;
    Ok(written.bytes() == text)
}
