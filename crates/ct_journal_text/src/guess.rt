ghost use Rattle.std.specs.Prelude.{◌≡◌, IfOk, map};
ghost use Rattle.ct_journal_text.specs.Guess.{end_in as end_by, guess_by as guess_of_words, guess_in, placement_in as placement_by, places_in_word as places_by, seen_in as seen_by, settle_in as settle_by, short_in as short_by, start_in as start_by, word_at as word_of};

use crate::numbers::{number_in, short_in};
use crate::pieces::pieces_of;
use crate::words::{cause_in, hit_in, how_in};
use crate::{EntryLine, JournalLine};
use ct_base::{List, Name, NoMemory};
use ct_verdict::Seen;
use std::alloc::Global;

/// Gives the line that a text could be. It is that line, or no line of a journal at all.
pub(crate) fn guess_of(alloc: Global, text: &[u8]) -> Result<JournalLine, NoMemory>
    ensures { IfOk result (λ guess. guess ≡ guess_in text.now) }
{
    let words = pieces_of(alloc, text, b' ')?;
    guess_by(alloc, words.as_slice())
}

fn guess_by(alloc: Global, words: &[Name]) -> Result<JournalLine, NoMemory>
    ensures { IfOk result (λ guess. guess ≡ guess_of_words words.now) }
{
    let name = word_at(words, 0);
    if name == b"start".as_slice() {
        Ok(JournalLine::Entry(start_in(alloc, words)?))
    } else if name == b"end".as_slice() {
        Ok(JournalLine::Entry(end_in(words)))
    } else if name == b"settle".as_slice() {
        Ok(JournalLine::Entry(settle_in(words)))
    } else if name == b"stop".as_slice() {
        Ok(JournalLine::Entry(EntryLine::Stop))
    } else if name == b"done".as_slice() {
        Ok(JournalLine::Done(number_in(word_at(words, 1))))
    } else {
        Ok(JournalLine::First)
    }
}

fn start_in(alloc: Global, words: &[Name]) -> Result<EntryLine, NoMemory>
    ensures { IfOk result (λ line. line ≡ start_by words.now) }
{
    Ok(EntryLine::Start {
        test: short_in(word_at(words, 1)),
        attempt: short_in(word_at(words, 2)),
        worker: short_in(word_at(words, 3)),
        places: placement_in(alloc, words)?,
    })
}

fn placement_in(alloc: Global, words: &[Name]) -> Result<Option<List<u32>>, NoMemory>
    ensures { IfOk result (λ places. places ≡ placement_by words.now) }
{
    if words.len() > 4 {
        Ok(Some(places_in(alloc, word_at(words, 5))?))
    } else {
        Ok(None)
    }
}

fn places_in(alloc: Global, word: &[u8]) -> Result<List<u32>, NoMemory>
    ensures { IfOk result (λ places. places ≡ places_by word.now) }
{
    if word.is_empty() {
        return Ok(List::new(alloc));
    }
    let pieces = pieces_of(alloc, word, b',')?;
    shorts_in(alloc, pieces.as_slice())
}

fn shorts_in(alloc: Global, pieces: &[Name]) -> Result<List<u32>, NoMemory>
    ensures { IfOk result (λ numbers. numbers ≡ map short_by pieces.now) }
{
    let mut numbers = List::new(alloc);
    for piece in pieces {
        numbers.push(short_in(piece.bytes()))?;
    }
    Ok(numbers)
}

fn end_in(words: &[Name]) -> EntryLine
    ensures { result ≡ end_by words.now }
{
    EntryLine::End {
        test: short_in(word_at(words, 1)),
        attempt: short_in(word_at(words, 2)),
        worker: short_in(word_at(words, 3)),
        seen: seen_in(words),
    }
}

fn seen_in(words: &[Name]) -> Seen
    ensures { result ≡ seen_by words.now }
{
    let hits = word_at(words, 5);
    Seen {
        how: how_in(word_at(words, 4)),
        fail_hit: hit_in(hits, 0),
        pass_hit: hit_in(hits, 1),
        skip_hit: hit_in(hits, 2),
        micros: number_in(word_at(words, 6)),
    }
}

fn settle_in(words: &[Name]) -> EntryLine
    ensures { result ≡ settle_by words.now }
{
    EntryLine::Settle {
        test: short_in(word_at(words, 1)),
        cause: cause_in(word_at(words, 2)),
    }
}

/// Lends the word at a place, from 0. There the empty one stands for none.
fn word_at(words: &[Name], place: usize) -> &[u8]
    ensures { result.now ≡ word_of words.now place }
{
    if place < words.len() {
        words[place].bytes()
    } else {
        &[]
    }
}
