ghost use Rattle.std.specs.Prelude.{◌≡◌, ◌==◌, ◌≤◌, [], min, IsTrue, OnOk};
ghost use Rattle.std.specs.List.{list_all, position};
ghost use Rattle.std.specs.Char.{is_ascii_digit};
ghost use Rattle.std.specs.Str.Parse.{digits_value_after};
ghost use Rattle.ct_base.specs.Seconds.{is_numeral as is_digits, most_micros, six_decimals as decimals_of, micros_of_digits as value_of, micros_in, number_in, plain_micros as micros_of_plain};

/// The greatest time, in microseconds.
///
/// Source: this project's choice.
pub const MOST_MICROS: u64 = 1_000_000_000_000_000;

/// Reads a time in seconds as whole microseconds: an optional `-`, digits, and optionally a `.` and digits.
///
/// Decimals behind the sixth are dropped. A time below zero becomes 0, and one above 10^15
/// microseconds becomes 10^15. Any other text is `None`.
///
/// Source: CMake manual, cmake-properties(7), TIMEOUT and COST. The bounds are this project's
/// choice.
pub fn micros(text: &[u8]) -> Option<u64>
    ensures { result ≡ micros_in text.now }
{
    match text {
        [] => None,
        [first, rest @ ..] => {
            if *first == b'-' {
                plain_micros(rest).map(|_| 0)
            } else {
                plain_micros(text)
            }
        }
    }
}

/// Returns whether a text has one digit or more, and nothing else.
pub fn is_numeral(text: &[u8]) -> bool
    ensures { result ≡ is_digits text.now }
{
    !text.is_empty() && has_only_digits(text)
}

/// Reads a text of digits alone as a number; a number above 10^15 becomes 10^15.
pub fn number(text: &[u8]) -> Option<u64>
    ensures { result ≡ number_in text.now }
{
    if !is_numeral(text) {
        return None;
    }
    Some(with_digits(0, text))
}

fn has_only_digits(text: &[u8]) -> bool
    ensures { result ≡ list_all is_ascii_digit text.now }
{
    text.iter().all(|byte| byte.is_ascii_digit())
}

fn plain_micros(text: &[u8]) -> Option<u64>
    ensures { result ≡ micros_of_plain text.now }
{
    match first_place(text, b'.') {
        None => {
            if !is_numeral(text) {
                return None;
            }
            Some(micros_of_digits(text, &[]))
        }
        Some(at) => {
            let (whole, decimals) = (&text[..at], &text[at + 1..]);
            if !is_numeral(whole) || !is_numeral(decimals) {
                return None;
            }
            Some(micros_of_digits(whole, decimals))
        }
    }
}

/// Finds the first place of a byte in a text, from 0.
pub fn first_place(text: &[u8], byte: u8) -> Option<usize>
    ensures { result ≡ position (λ other. other == byte) text.now }
{
    text.iter().position(|other| *other == byte)
}

fn micros_of_digits(whole: &[u8], decimals: &[u8]) -> u64
    requires whole { IsTrue (list_all is_ascii_digit whole.now) }
    requires decimals { IsTrue (list_all is_ascii_digit decimals.now) }
    ensures { result ≡ value_of whole.now decimals.now }
{
    with_six_decimals(with_digits(0, whole), decimals)
}

/// Returns the number followed by its first six decimals, with zeros where there are fewer.
fn with_six_decimals(before: u64, decimals: &[u8]) -> u64
    requires few { before ≤ most_micros }
    requires digits { IsTrue (list_all is_ascii_digit decimals.now) }
    ensures { result ≡ min (digits_value_after 10 before (decimals_of decimals.now)) most_micros }
{
    if decimals.len() < 6 {
        let zeros = b"000000".as_slice();
        return with_digits(with_digits(before, decimals), &zeros[decimals.len()..]);
    }
    with_digits(before, &decimals[..6])
}

/// Returns the number with the digits of `before` followed by `digits`, at most the greatest time.
fn with_digits(before: u64, digits: &[u8]) -> u64
    requires few { before ≤ most_micros }
    requires digits { IsTrue (list_all is_ascii_digit digits.now) }
    ensures { result ≡ min (digits_value_after 10 before digits.now) most_micros }
{
    let mut value = before;
    for digit in digits {
        value = (value * 10 + u64::from(*digit - b'0')).min(MOST_MICROS);
    }
    value
}
