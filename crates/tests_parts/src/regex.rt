//! Patterns over long texts, long patterns, and sets that a scan forgets.

use ct_regex::{Regex, RegexFault, Scan};
use std::alloc::{AllocError, Global};
use std::process::Abort;
use std::test::Fail;

/// Returns whether the pattern hits the text, or why it is refused.
fn comes_to(alloc: Global, pattern: &[u8], text: &[u8]) -> Result<bool, RegexFault> {
    let regex = Regex::parse(alloc, pattern)?;
    Ok(regex.hit(alloc, text)?)
}

/// Fails unless what a row comes to is `true`.
fn is_right(rt: &impl Abort, row: &str, found: &Result<bool, RegexFault>) {
    assert!(rt; *found == Ok(true), "{row}: {found:?}");
}

/// Returns what a scan of the pattern says of many pieces of `x` and then these two pieces.
fn behind_many(alloc: Global, pattern: &[u8], ends: [&[u8]; 2]) -> Result<bool, RegexFault> {
    let regex = Regex::parse(alloc, pattern)?;
    let mut scan = Scan::new(alloc, &regex)?;
    let piece = [b'x'; 65_536];
    for _ in 0..1_024 {
        scan.feed(&piece);
    }
    scan.feed(ends[0]);
    scan.feed(ends[1]);
    Ok(scan.ended())
}

/// A pattern, the two pieces behind the many, and whether it hits them all.
const BEHIND_MANY: [(&[u8], [&[u8]; 2], bool); 5] = [
    (b"done$", [b"do", b"ne"], true),
    (b"^done", [b"do", b"ne"], false),
    (b"xdo", [b"do", b"ne"], true),
    (b"error", [b"er", b"ror"], true),
    (b"error", [b"er", b""], false),
];

#[test]
fn finds_what_is_cut_behind_64_mebibytes(rt: HostRuntime) {
    for (pattern, ends, want) in &BEHIND_MANY {
        let found = behind_many(rt.alloc(), pattern, *ends);
        comes_so(&rt, pattern, &found, *want);
    }
}

/// Fails unless the pattern is right, and comes to what is wanted.
fn comes_so(rt: &impl Abort, pattern: &[u8], found: &Result<bool, RegexFault>, want: bool) {
    assert!(rt; *found == Ok(want), "{pattern:?}: {found:?}");
}

/// Feeds bytes `a` and `b` as a shift register yields them. Tells whether a scan knows after each
/// byte whether the ninth byte from the end is `a`. The scan meets more sets than it remembers.
fn knows_the_ninth(alloc: Global) -> Result<bool, RegexFault> {
    let regex = Regex::parse(alloc, b"a........$")?;
    let mut scan = Scan::new(alloc, &regex)?;
    let mut bits: u32 = 0xbeef;
    let mut knows = true;
    for taken in 1..5_000 {
        let bit = (bits ^ (bits >> 2) ^ (bits >> 3) ^ (bits >> 5)) & 1;
        bits = (bits >> 1) | (bit << 15);
        scan.feed(if bit == 1 { b"a" } else { b"b" });
        knows &= scan.ended() == (9 <= taken && (bits >> 7) & 1 == 1);
    }
    Ok(knows)
}

#[test]
fn stays_right_when_it_forgets(rt: HostRuntime) {
    is_right(&rt, "the ninth byte", &knows_the_ninth(rt.alloc()));
}

/// Compares what the pattern comes to on the text with what is wanted.
fn hits_so(rt: &impl Abort, alloc: Global, pattern: &[u8], text: &[u8], want: bool) {
    let found = comes_to(alloc, pattern, text);
    comes_so(rt, pattern, &found, want);
}

/// Returns `count` times the byte, and then the tail.
fn run_of(alloc: Global, byte: u8, count: usize, tail: &[u8]) -> Result<Vec<u8>, AllocError> {
    let mut bytes = vec![in alloc; byte; count]?;
    bytes.extend_from_slice(tail)?;
    Ok(bytes)
}

/// A byte, how often it stands, what follows, and what that pattern comes to on the text `x`.
const LONG: [(u8, usize, &[u8], Result<bool, RegexFault>); 5] = [
    (b'|', 65_536, b"", Ok(true)),
    (b'a', 65_536, b"", Ok(false)),
    (b'|', 65_536, b"|", Err(RegexFault::TooLarge(65_536))),
    (b'(', 200, b"", Err(RegexFault::OpenGroup(199))),
    (b'(', 200, b"(", Err(RegexFault::TooLarge(200))),
];

#[test]
fn keeps_to_its_limits(rt: HostRuntime) -> Result<(), Fail> {
    for (byte, count, tail, want) in &LONG {
        let pattern = run_of(rt.alloc(), *byte, *count, tail)?;
        let is_so = comes_to(rt.alloc(), &pattern, b"x") == *want;
        assert!(rt; is_so, "{count} times {byte}");
    }
    Ok(())
}

/// Returns a pattern of `depth` groups, one in the other and each
/// repeated, with a byte behind them.
fn nested(alloc: Global, depth: usize) -> Result<Vec<u8>, AllocError> {
    let mut pattern = run_of(alloc, b'(', depth, b"a")?;
    for _ in 0..depth {
        pattern.extend_from_slice(b"+)")?;
    }
    pattern.push(b'c')?;
    Ok(pattern)
}

#[test]
fn takes_no_more_than_a_moment(rt: HostRuntime) -> Result<(), Fail> {
    let text = run_of(rt.alloc(), b'a', 300, b"")?;
    let deep = nested(rt.alloc(), 200)?;
    hits_so(&rt, rt.alloc(), b"(a|a)*b", &text, false);
    hits_so(&rt, rt.alloc(), b"^(a|a)*$", &text, true);
    hits_so(&rt, rt.alloc(), &deep, &text, false);
    Ok(())
}
