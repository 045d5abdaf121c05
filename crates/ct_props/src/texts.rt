ghost use Rattle.std.specs.Prelude.{◌≡◌, bytes_eq};
ghost use Rattle.std.specs.List.{find};
ghost use Rattle.std.specs.Option.{option_copied};
ghost use Rattle.ct_props.specs.Values.{value_of_key as value_by, text_of_key};

use ct_base::Pair;

/// Looks up the value of a key.
pub fn value_of<'a>(props: &'a [Pair], key: &[u8]) -> Option<&'a [u8]>
    ensures { option_copied result ≡ value_by props.now key.now }
{
    match props.iter().find(|pair| pair.name.bytes() == key) {
        None => None,
        Some(pair) => Some(pair.value.bytes()),
    }
}

/// Returns the value of a key, or an empty text where the test does not have the key.
pub fn text_of<'a>(props: &'a [Pair], key: &[u8]) -> &'a [u8]
    ensures { result.now ≡ text_of_key props.now key.now }
{
    match value_of(props, key) {
        None => &[],
        Some(text) => text,
    }
}
