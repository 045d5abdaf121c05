ghost use Rattle.std.specs.Prelude.{◌≡◌, length};
ghost use Rattle.ct_lex.specs.Bytes.{is_space, is_blank, is_gap, begins_word, is_word, is_name, stands, feeds};

/// Returns whether a byte is a space or a tab.
pub fn is_space(byte: u8) -> bool
    ensures { result ≡ is_space byte }
{
    byte == b' ' || byte == b'\t'
}

/// Returns whether a byte is a blank: a space, a tab or a carriage return.
pub fn is_blank(byte: u8) -> bool
    ensures { result ≡ is_blank byte }
{
    is_space(byte) || byte == b'\r'
}

/// Returns whether a byte is a blank or a line feed, which separate arguments and commands.
pub fn is_gap(byte: u8) -> bool
    ensures { result ≡ is_gap byte }
{
    is_blank(byte) || byte == b'\n'
}

/// Returns whether an identifier can begin with a byte.
pub fn begins_word(byte: u8) -> bool
    ensures { result ≡ begins_word byte }
{
    byte.is_ascii_alphabetic() || byte == b'_'
}

/// Returns whether an identifier can go on with a byte.
pub fn is_word(byte: u8) -> bool
    ensures { result ≡ is_word byte }
{
    byte.is_ascii_alphanumeric() || byte == b'_'
}

/// Returns whether a byte can stand in a variable's name in a reference.
pub fn is_name(byte: u8) -> bool
    ensures { result ≡ is_name byte }
{
    is_word(byte) || byte == b'.' || byte == b'/' || byte == b'+' || byte == b'-'
}

/// Returns whether a text has that byte at that place, counted from 0.
pub fn stands(text: &[u8], at: usize, byte: u8) -> bool
    ensures { result ≡ stands byte at text.now }
{
    at < text.len() && text[at] == byte
}

/// Counts the line feeds of a text.
pub fn feeds(text: &[u8]) -> usize
    ensures { result ≡ feeds text.now }
{
    let mut count = 0;
    for byte in text {
        if *byte == b'\n' {
            count += 1;
        }
    }
    count
}
