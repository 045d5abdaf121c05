ghost use Rattle.std.specs.Prelude.{◌≡◌, ◌<◌, IfOk};
ghost use Rattle.ct_regex.specs.TreeOf.{regex_tree};
ghost use Rattle.ct_regex.specs.Ends.{hits};

use ct_base::NoMemory;
use ct_regex::{Regex, Scan};
use std::alloc::Global;

/// Returns whether the text has a match anywhere, fed to a scan in pieces of `piece` bytes.
///
/// Source: CMake manual, string(REGEX), Regex Specification.
pub fn is_hit(alloc: Global, regex: &Regex, text: &[u8], piece: usize) -> Result<bool, NoMemory>
    requires some { 0 < piece }
    ensures { IfOk result (λ found. found ≡ hits (regex_tree regex.now) text.now) }
{
    let mut scan = Scan::new(alloc, regex)?;
    let mut rest = text;
    'rest: while !rest.is_empty() {
        let size = piece.min(rest.len());
        scan.feed(&rest[..size]);
        rest = &rest[size..];
    }
    Ok(scan.ended())
}
