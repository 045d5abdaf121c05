ghost use Rattle.std.specs.Prelude.{◌≡◌};
ghost use Rattle.std.specs.List.{list_all};
ghost use Rattle.ct_base.specs.TypeNames.{begins_type as may_begin, is_name_byte, is_type_name as is_name};

/// Returns whether a text is the name of a resource type: `a` to `z`, `_` and digits, with no digit in front.
///
/// Source: CMake manual, ctest(1), Resource Specification File.
pub fn is_type_name(text: &[u8]) -> bool
    ensures { result ≡ is_name text.now }
{
    match text {
        [] => false,
        [first, rest @ ..] => begins_type(*first) && has_name_bytes(rest),
    }
}

/// Returns whether each byte of a text may stand in a name or an id: `a` to `z`, `_` or a digit.
pub fn has_name_bytes(text: &[u8]) -> bool
    ensures { result ≡ list_all is_name_byte text.now }
{
    text.iter()
        .all(|byte| begins_type(*byte) || byte.is_ascii_digit())
}

fn begins_type(byte: u8) -> bool
    ensures { result ≡ may_begin byte }
{
    byte.is_ascii_lowercase() || byte == b'_'
}
