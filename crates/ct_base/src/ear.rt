ghost use Rattle.std.specs.Prelude.{◌≡◌, List, ℕ, ◌++◌};

/// Hears the output of a test's program. It cannot fail.
///
/// `stands_for` holds for each text that may be all that was heard. `kept` has what an ear was
/// made for, such as the patterns that it looks for.
pub trait Ear {
    ghost stands_for: { Self → List ℕ → Type 0 };

    ghost Kept: { Type 0 } = { Unit {0} };

    ghost kept: { Self → Kept };

    /// Hears one more piece.
    fn hear(&mut self, piece: &[u8])
        ensures text { (text : List ℕ) → stands_for self.old text → stands_for self.new (text ++ piece.now) }
        ensures kept { kept self.new ≡ kept self.old };
}
