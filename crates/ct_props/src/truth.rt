ghost use Rattle.std.specs.Prelude.{◌≡◌};
ghost use Rattle.ct_props.specs.Values.{is_same_word as is_same, is_true_text};

/// Returns whether a text is a true value: `1`, `ON`, `YES`, `TRUE` or `Y`, in any case.
///
/// Source: this project's choice, after the constants of CMake's `if`.
pub fn is_true(text: &[u8]) -> bool
    ensures { result ≡ is_true_text text.now }
{
    is_same_word(text, b"1")
        || is_same_word(text, b"ON")
        || is_same_word(text, b"YES")
        || is_same_word(text, b"TRUE")
        || is_same_word(text, b"Y")
}

fn is_same_word(text: &[u8], word: &[u8]) -> bool
    ensures { result ≡ is_same text.now word.now }
{
    text.eq_ignore_ascii_case(word)
}
