ghost use Rattle.std.specs.Prelude.{◌≡◌, ◌++◌, OnOk};
ghost use Rattle.std.specs.Fmt.{signed_decimal};
ghost use Rattle.ct_journal_text.specs.Guess.{code_written as code_by, number_written as number_by, short_in as short_by};

use ct_base::{Blob, NoMemory};
use std::alloc::Global;

/// Puts a number with its sign in decimal behind the text.
pub(crate) fn append_code(alloc: Global, text: &mut Blob, code: i32) -> Result<(), NoMemory>
    ensures { OnOk result (text.new ≡ text.old ++ signed_decimal code) }
{
    let digits = code.to_string(alloc)?;
    text.append(digits.as_bytes())
}

/// Takes a text for the digits of a number. Other bytes give some number.
pub(crate) fn number_in(text: &[u8]) -> u64
    ensures { result ≡ number_by text.now }
{
    let mut number: u64 = 0;
    for byte in text {
        number = number
            .saturating_mul(10)
            .saturating_add(u64::from(byte.saturating_sub(b'0')));
    }
    number
}

/// The same for a number of 32 bits.
pub(crate) fn short_in(text: &[u8]) -> u32
    ensures { result ≡ short_by text.now }
{
    number_in(text).min(4_294_967_295) as u32
}

/// The same for an exit code.
pub(crate) fn code_in(text: &[u8]) -> i32
    ensures { result ≡ code_by text.now }
{
    match text {
        [] => 0,
        [first, rest @ ..] => {
            if *first == b'-' {
                let below = number_in(rest).min(2_147_483_648);
                -(below as i64) as i32
            } else {
                number_in(text).min(2_147_483_647) as i32
            }
        }
    }
}
