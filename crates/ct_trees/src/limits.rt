//! The limit of the tests of all trees, for readers: the function does nothing, and its clauses say which
//! numbers of tests are refused.

ghost use Rattle.std.specs.Prelude.{◌≡◌, ◌<◌, ◌≤◌, ℕ, List};
ghost use Rattle.ct_testfile.specs.Commands.{test_file};
ghost use Rattle.ct_testfile.specs.declared.fault.ReadKind.TheVariants.{TooManyTests};
ghost use Rattle.ct_app.specs.declared.outcome.Outcome.{Outcome};
ghost use Rattle.ct_app.specs.declared.outcome.Outcome.TheVariants.{Memory, Refused};
ghost use Rattle.ct_app.specs.declared.outcome.Refusal.TheVariants.{TestFile};
ghost use Rattle.ct_trees.specs.Planning.{RefusesNumber};

/// All trees define up to 400,000 tests together, and one more is refused. For want of memory either may be.
pub fn all_trees_define_up_to_400_000_tests()
    ensures last { (count : ℕ) (dir : List ℕ) (outcome : Outcome) → count ≤ 400000 →
        RefusesNumber count dir outcome → outcome ≡ Memory }
    ensures first { (count : ℕ) (dir : List ℕ) → 400000 < count →
        RefusesNumber count dir (Refused (TestFile (test_file dir).path 0 TooManyTests)) }
{}
