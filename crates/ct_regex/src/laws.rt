//! Laws of patterns, for readers: each function does nothing, and its clause is the law.

ghost use Rattle.std.specs.Prelude.{◌≡◌, ◌≤◌, ◌||◌, ◌↔◌, ℕ, List, [], ◌∷◌, ◌++◌, length, IsTrue, Ok};
ghost use Rattle.std.specs.Result.{IsOkAnd};
ghost use Rattle.ct_regex.specs.Bytes.{open_group, close_group};
ghost use Rattle.ct_regex.specs.Limits.{most_pattern_bytes};
ghost use Rattle.ct_regex.specs.Tree.{Tree, choice, sequence_of, branch_of};
ghost use Rattle.ct_regex.specs.Ends.{hits};
ghost use Rattle.ct_regex.specs.Reading.{reading};
ghost use Rattle.ct_regex.specs.Laws.{are_plain, HasPart, HitsAlike};

/// Brackets alone change nothing. A choice of one branch with one part hits what that part hits. A
/// whole pattern between `(` and `)` hits what it hits without them.
pub fn brackets_change_nothing()
    ensures trees { (tree : Tree) (text : List ℕ) →
        hits (branch_of (sequence_of (tree ∷ []) ∷ [])) text ≡ hits tree text }
    ensures patterns { (pattern text : List ℕ) (tree : Tree) → reading pattern ≡ Ok tree →
        HitsAlike tree text (reading (open_group ∷ pattern ++ close_group ∷ [])) }
{}

/// `x|y` hits where `x` or `y` hits.
pub fn choice_hits_where_either_does()
    ensures { (left right : Tree) (text : List ℕ) →
        hits (choice left right) text ≡ (hits left text || hits right text) }
{}

/// A pattern of bytes without special meaning hits exactly the texts that contain them.
pub fn plain_bytes_hit_what_has_them()
    ensures { (bytes text : List ℕ) → IsTrue (are_plain bytes) → length bytes ≤ most_pattern_bytes →
        IsOkAnd (reading bytes) (λ tree. IsTrue (hits tree text) ↔ HasPart bytes text) }
{}
