ghost use Rattle.std.specs.Prelude.{◌≡◌, ◌≤◌, ◌++◌, length, OnOk};
ghost use Rattle.ct_explain.specs.Escaped as Text;

use ct_base::{Blob, NoMemory};

/// The character U+FFFD, which stands for what may not be shown.
const REPLACEMENT: &[u8] = &[0xEF, 0xBF, 0xBD];

/// Puts bytes behind the text as they may stand in an XML document: `&`, `<`, `>` and quotes as references,
/// and U+FFFD for each byte of a control character, of U+FFFE or U+FFFF, and of what is no UTF-8.
///
/// Source: this project's own.
pub(crate) fn append_escaped(text: &mut Blob, bytes: &[u8]) -> Result<(), NoMemory>
    ensures { OnOk result (text.new ≡ text.old ++ Text.escaped_text bytes.now) }
{
    let mut left: usize = 0;
    for at in 0..bytes.len() {
        let behind = &bytes[at..];
        text.append(shown_text(left, behind))?;
        left = left_behind(left, behind);
    }
    Ok(())
}

/// Returns what stands for the first of these bytes, where `left` bytes of a character are still to come.
fn shown_text(left: usize, bytes: &[u8]) -> &[u8]
    ensures { result.now ≡ Text.shown_text left bytes.now }
{
    let len = char_len(bytes);
    if left > 0 || len > 1 {
        first_of(bytes)
    } else if len == 1 {
        reference(byte_at(bytes, 0), first_of(bytes))
    } else {
        REPLACEMENT
    }
}

/// Returns how many bytes of a character are still to come behind the first of these bytes.
fn left_behind(left: usize, bytes: &[u8]) -> usize
    ensures { result ≡ Text.left_behind left bytes.now }
{
    if left > 0 {
        left - 1
    } else {
        char_len(bytes).saturating_sub(1)
    }
}

/// Returns the first of these bytes, or none.
fn first_of(bytes: &[u8]) -> &[u8]
    ensures { result.now ≡ Text.first_of bytes.now }
{
    match bytes {
        [] => bytes,
        [_, ..] => &bytes[..1],
    }
}

/// Returns the reference that stands for a character of one byte, or the character itself.
fn reference(byte: u8, same: &[u8]) -> &[u8]
    ensures { result.now ≡ Text.reference byte same.now }
{
    if byte == b'&' {
        b"&amp;"
    } else if byte == b'<' {
        b"&lt;"
    } else if byte == b'>' {
        b"&gt;"
    } else if byte == b'"' {
        b"&quot;"
    } else if byte == b'\'' {
        b"&apos;"
    } else {
        same
    }
}

/// Returns how many bytes the character takes at the front, 0 where none stands there that may be shown.
fn char_len(bytes: &[u8]) -> usize
    ensures { result ≡ Text.char_len bytes.now }
{
    if is_one(bytes) {
        1
    } else if is_two(bytes) {
        2
    } else if is_three(bytes) {
        3
    } else if is_four(bytes) {
        4
    } else {
        0
    }
}

fn is_one(bytes: &[u8]) -> bool
    ensures { result ≡ Text.is_one bytes.now }
{
    is_within(byte_at(bytes, 0), 32, 126)
}

/// U+00A0 to U+07FF.
fn is_two(bytes: &[u8]) -> bool
    ensures { result ≡ Text.is_two bytes.now }
{
    let first = byte_at(bytes, 0);
    is_within(first, 0xC2, 0xDF)
        && is_within(
            byte_at(bytes, 1),
            if first == 0xC2 { 0xA0 } else { 0x80 },
            0xBF,
        )
}

/// U+0800 to U+FFFD without the surrogates.
fn is_three(bytes: &[u8]) -> bool
    ensures { result ≡ Text.is_three bytes.now }
{
    let first = byte_at(bytes, 0);
    let second = byte_at(bytes, 1);
    let last = if first == 0xEF && second == 0xBF {
        0xBD
    } else {
        0xBF
    };
    is_within(first, 0xE0, 0xEF)
        && is_within(
            second,
            if first == 0xE0 { 0xA0 } else { 0x80 },
            if first == 0xED { 0x9F } else { 0xBF },
        )
        && is_within(byte_at(bytes, 2), 0x80, last)
}

/// U+10000 to U+10FFFF.
fn is_four(bytes: &[u8]) -> bool
    ensures { result ≡ Text.is_four bytes.now }
{
    let first = byte_at(bytes, 0);
    is_within(first, 0xF0, 0xF4)
        && is_within(
            byte_at(bytes, 1),
            if first == 0xF0 { 0x90 } else { 0x80 },
            if first == 0xF4 { 0x8F } else { 0xBF },
        )
        && is_within(byte_at(bytes, 2), 0x80, 0xBF)
        && is_within(byte_at(bytes, 3), 0x80, 0xBF)
}

fn is_within(byte: u8, least: u8, most: u8) -> bool
    ensures { result ≡ Text.is_within least most byte }
{
    least <= byte && byte <= most
}

/// Returns the byte at a place, 0 where there is none.
fn byte_at(bytes: &[u8], place: usize) -> u8
    ensures { result ≡ Text.byte_at bytes.now place }
{
    bytes.get(place).copied().unwrap_or(0)
}
