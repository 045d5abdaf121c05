ghost use Rattle.std.specs.Prelude.{◌≡◌, ◌<◌, IfOk, map, string_bytes};
ghost use Rattle.ct_info.specs.Text.{shown, shown_byte};

use ct_base::{Name, NoMemory};
use std::alloc::Global;
use std::str;

/// Copies a name as text; a name that is not UTF-8 has `?` in place of each byte from 128 up.
#[tactic(auto, using(crate::proofs::TextLemmas::is_text, crate::proofs::TextLemmas::is_no_text))]
pub(crate) fn text_of(alloc: Global, name: &Name) -> Result<String, NoMemory>
    ensures { IfOk result (λ text. string_bytes text ≡ shown name.now) }
{
    match str::from_utf8(name.bytes()) {
        Ok(text) => Ok(String::from_str(alloc, text)?),
        Err(_) => ascii_of(alloc, name.bytes()),
    }
}

/// Copies bytes as text, with `?` in place of each byte from 128 up.
fn ascii_of(alloc: Global, bytes: &[u8]) -> Result<String, NoMemory>
    ensures { IfOk result (λ text. string_bytes text ≡ map shown_byte bytes.now) }
{
    let mut text = String::with_capacity(alloc, bytes.len())?;
    for byte in bytes {
        text.push(ascii_char(*byte))?;
    }
    Ok(text)
}

fn ascii_char(byte: u8) -> char
    ensures is { result ≡ shown_byte byte }
    ensures ascii { result < 128 }
{
    if byte < 128 { byte as char } else { '?' }
}
