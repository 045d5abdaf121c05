//! Patterns of CMake: what is refused, and what hits.

use crate::row::{Given, RowFault};
use ct_base::NoMemory;
use ct_regex::{Matcher, Regex, RegexFault, Scan};
use std::alloc::{AllocError, Global};

/// Tells whether the pattern hits the text, or why it is refused.
pub(crate) fn hit(alloc: Global, given: Given<'_>) -> Result<String, RowFault> {
    Ok(hit_told(alloc, given.bytes("pattern")?, given.bytes("text")?)?)
}

fn hit_told(alloc: Global, pattern: &[u8], text: &[u8]) -> Result<String, AllocError> {
    let found = comes_to(alloc, pattern, text);
    if found.is_ok() && agrees(alloc, pattern, text) != Ok(true) {
        return format!(in alloc; "{found:?}, but not in pieces");
    }
    format!(in alloc; "{found:?}")
}

/// Returns whether the pattern hits the text, or why it is refused.
fn comes_to(alloc: Global, pattern: &[u8], text: &[u8]) -> Result<bool, RegexFault> {
    let regex = Regex::parse(alloc, pattern)?;
    Ok(regex.hit(alloc, text)?)
}

/// Returns whether the pattern says the same of the text in one piece, in each two pieces, and byte
/// by byte. Between two pieces a scan has to tell what the first one hits.
fn agrees(alloc: Global, pattern: &[u8], text: &[u8]) -> Result<bool, RegexFault> {
    let regex = Regex::parse(alloc, pattern)?;
    let whole = regex.hit(alloc, text)?;
    let mut bytes = Scan::new(alloc, &regex)?;
    let mut agrees = true;
    for cut in 0..text.len() {
        let front = &text[..cut];
        let mut scan = Scan::new(alloc, &regex)?;
        scan.feed(front);
        let between = scan.ended();
        scan.feed(&text[cut..]);
        agrees &= between == regex.hit(alloc, front)? && scan.ended() == whole;
        agrees &= bytes.ended() == between;
        bytes.feed(&text[cut..cut + 1]);
    }
    Ok(agrees && bytes.ended() == whole)
}

/// Tells of each of the texts, with a `,` between, whether it is hit: `+` or `-`. One scan, set back
/// for each text, and one matcher are asked. Where they differ it is `?`.
pub(crate) fn each(alloc: Global, given: Given<'_>) -> Result<String, RowFault> {
    match Regex::parse(alloc, given.bytes("pattern")?) {
        Ok(regex) => Ok(signs_of(alloc, &regex, given.text("texts")?)?),
        Err(_) => Err(RowFault::Unfit("pattern")),
    }
}

fn signs_of(alloc: Global, regex: &Regex, texts: &str) -> Result<String, NoMemory> {
    let mut scan = Scan::new(alloc, regex)?;
    let mut matcher = Matcher::new(alloc, regex)?;
    let mut signs = String::new(alloc);
    for text in texts.split(',') {
        let is_hit = matcher.hit(text.as_bytes());
        let sign = if is_hit { "+" } else { "-" };
        let is_same = scan_says(&mut scan, text.as_bytes(), is_hit);
        signs.push_str(if is_same { sign } else { "?" })?;
    }
    Ok(signs)
}

/// Returns whether a scan, set back for the text, says this of it.
fn scan_says(scan: &mut Scan, text: &[u8], is_hit: bool) -> bool {
    let (front, rest) = text.split_at(text.len() / 2);
    scan.restart();
    scan.feed(front);
    scan.feed(rest);
    scan.ended() == is_hit
}
