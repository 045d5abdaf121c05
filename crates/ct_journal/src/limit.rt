ghost use Rattle.std.specs.Prelude.{◌<◌, ◌≤◌, ◌^◌, ℕ, List, length, Some};
ghost use Rattle.ct_journal.specs.CheckFound.{IsLongJournal};
ghost use Rattle.ct_journal.specs.File.{HasJournalSize};

/// The greatest number of bytes of a journal: 256 MiB.
///
/// Source: this project's choice.
pub const MOST_JOURNAL_BYTES: u64 = 268_435_456;

/// A law, for readers: a text of up to 256 MiB may be a journal, and one of a byte more is too long.
pub fn a_journal_has_up_to_256_mib()
    ensures last { (text : List ℕ) → length text ≤ 2 ^ 28 → HasJournalSize text }
    ensures first { (text : List ℕ) → 2 ^ 28 < length text → IsLongJournal (Some text) }
{}
