//! Whether a file has a match for a pattern, fed to a scan in pieces.

mod pieces;

use crate::words::{count, lacks_memory};
use anyhow::{anyhow, bail};
use ct_regex::Regex;
use std::fs;
use std::fs::Files;
use std::io::Print;

/// Scans the file that the words name.
pub fn measure(rt: &(impl AllocGlobal + Files + Print), words: &[String]) -> anyhow::Result<()> {
    let [pattern, file, piece] = words else {
        bail!("measure scan wants three words: PATTERN FILE PIECE");
    };
    let piece = count(piece) as usize;
    if piece == 0 {
        bail!("a piece is a number of bytes from 1");
    }
    let alloc = rt.alloc();
    let regex = Regex::parse(alloc, pattern.as_bytes())?;
    let text = fs::read(rt, file.as_str()).map_err(|why| anyhow!("{file}: {why}"))?;
    let found = pieces::is_hit(alloc, &regex, text.as_slice(), piece).map_err(lacks_memory)?;
    if found {
        println!(rt; "hit")?;
    } else {
        println!(rt; "no hit")?;
    }
    Ok(())
}
