//! What the words of a call have in common.

use anyhow::anyhow;
use ct_base::NoMemory;

/// Returns the number that a word is, or 0 where it is none from 0 to 4,294,967,295.
pub fn count(word: &String) -> u32 {
    word.as_str().parse().unwrap_or(0)
}

/// Returns whether a word asks for the times beside the counts.
pub fn is_timed(word: &String) -> bool {
    word.as_str() == "times"
}

/// Returns what a call says that lacked memory.
pub fn lacks_memory(_fault: NoMemory) -> anyhow::Error {
    anyhow!("memory was wanting")
}
