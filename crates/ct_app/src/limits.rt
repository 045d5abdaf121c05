//! The limits of the files that a call reads, for readers: each function does nothing, and its clauses say
//! what comes of the last size that is taken, and of the first one that is not.

ghost use Rattle.std.specs.Prelude.{◌≡◌, ◌<◌, ◌≤◌, ◌^◌, ℕ, List, [], length, Some, Err};
ghost use Rattle.ct_select.specs.FailedLog.{failed_in};
ghost use Rattle.ct_app.specs.Rerun.{names_in_text};
ghost use Rattle.ct_app.specs.SpecFile.{declared_by, declared_in};
ghost use Rattle.ct_app.specs.declared.outcome.SpecRefusal.TheVariants.{TooLong};

/// A log of at most 64 MiB counts, and one of a byte more counts as empty.
pub fn a_log_of_64_mib_counts()
    ensures last { (text : List ℕ) → length text ≤ 2 ^ 26 → names_in_text (Some text) ≡ failed_in text }
    ensures first { (text : List ℕ) → 2 ^ 26 < length text → names_in_text (Some text) ≡ [] }
{}

/// A specification of at most 16 MiB is read, and one of a byte more is refused.
pub fn a_specification_of_16_mib_is_read()
    ensures last { (text : List ℕ) → length text ≤ 2 ^ 24 → declared_in (Some text) ≡ declared_by text }
    ensures first { (text : List ℕ) → 2 ^ 24 < length text → declared_in (Some text) ≡ Err TooLong }
{}
