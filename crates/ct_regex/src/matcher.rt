ghost use Rattle.std.specs.Prelude.{◌≡◌, IfOk, option_map};
ghost use Rattle.ct_regex.specs.TreeOf.{regex_tree};
ghost use Rattle.ct_regex.specs.Scan.{IsScanOf};

use crate::{Regex, Scan};
use ct_base::NoMemory;
use std::alloc::Global;

/// A pattern that is tried on many texts, with one scan for all of them. In contracts `pattern_of` is
/// its pattern.
///
/// Source: CMake manual, string(REGEX), Regex Specification.
#[derive(Drop)]
pub struct Matcher<'a> {
    regex: &'a Regex,
    scan: Scan,
    ghost right: { IsScanOf (regex_tree regex.now) scan },
}

impl<'a> Matcher<'a> {
    ghost use Rattle.ct_regex.specs.Ends.{hits};
    ghost use Rattle.ct_regex.specs.PatternOf.{pattern_of};

    /// Makes the scan of a pattern. It takes here all the memory that it ever takes.
    pub fn new(alloc: Global, regex: &'a Regex) -> Result<Matcher<'a>, NoMemory>
        ensures { IfOk result (λ matcher. pattern_of matcher ≡ regex.now) }
    {
        let scan = Scan::new(alloc, regex)?;
        Ok(Matcher { regex, scan })
    }

    /// Makes the matcher of a pattern, where there is one.
    pub fn of(alloc: Global, pattern: &'a Option<Regex>) -> Result<Option<Matcher<'a>>, NoMemory>
        ensures { IfOk result (λ matcher. option_map pattern_of matcher ≡ pattern.now) }
    {
        match pattern {
            Some(pattern) => Ok(Some(Matcher::new(alloc, pattern)?)),
            None => Ok(None),
        }
    }

    /// Returns whether the text has a match anywhere. What the scan learns serves the next texts too.
    pub fn hit(&mut self, text: &[u8]) -> bool
        ensures hit { result ≡ hits (regex_tree (pattern_of self.old)) text.now }
        ensures kept { pattern_of self.new ≡ pattern_of self.old }
    {
        self.scan.restart();
        self.scan.feed(text);
        self.scan.ended()
    }
}
