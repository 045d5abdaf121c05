//! The limit of a load, for readers: the function does nothing, and its clauses say what comes of the last
//! number that is taken, and of the first one that is not.

ghost use Rattle.std.specs.Prelude.{◌≡◌, Some, None};
ghost use Rattle.ct_load.specs.Load.{count_within};

/// A load has up to 100,000 tests, and one more is refused.
pub fn a_load_has_up_to_100_000_tests()
    ensures last { count_within 100000 ≡ Some 100000 }
    ensures first { count_within 100001 ≡ None }
{}
