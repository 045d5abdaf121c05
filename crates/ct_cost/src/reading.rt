ghost use Rattle.std.specs.Prelude.{◌≡◌, IfOk, OnOk, fold};
ghost use Rattle.ct_cost.specs.Text.{ends_line, is_divider as divides, is_mark as marks, lines_in};
ghost use Rattle.ct_cost.specs.Reading.{after_line, after_lines, parts_from, unread};

use crate::line::Version;
use crate::lines::Lines;
use crate::names::Names;
use crate::parts::part_len;
use ct_base::NoMemory;
use std::alloc::Global;

/// What was read of a text of cost data so far.
#[derive(Drop)]
pub(crate) struct Reading {
    pub version: Version,
    pub lines: Lines,
    pub failed: Names,
    /// Whether the line `---` was read.
    pub is_behind: bool,
}

impl Reading {
    /// Reads all lines of a text.
    pub(crate) fn of(alloc: Global, text: &[u8]) -> Result<Reading, NoMemory>
        ensures { IfOk result (λ reading. reading ≡ after_lines (lines_in text.now)) }
    {
        let end = part_len(text, b'\n');
        if is_mark(&text[..end]) {
            return Reading::of_lines(alloc, Version::Two, text, end + 1);
        }
        Reading::of_lines(alloc, Version::One, text, 0)
    }

    /// Reads the lines of a version from a place on.
    fn of_lines(
        alloc: Global,
        version: Version,
        text: &[u8],
        start: usize,
    ) -> Result<Reading, NoMemory>
        ensures { IfOk result (λ reading. reading ≡ fold after_line (unread version) (parts_from ends_line text.now start)) }
    {
        let mut reading = Reading::new(alloc, version);
        reading.add_lines(alloc, text, start)?;
        Ok(reading)
    }

    fn new(alloc: Global, version: Version) -> Reading
        ensures { result ≡ unread version }
    {
        Reading {
            version,
            lines: Lines::new(alloc),
            failed: Names::new(alloc),
            is_behind: false,
        }
    }

    /// Reads the lines from a place on.
    fn add_lines(&mut self, alloc: Global, text: &[u8], start: usize) -> Result<(), NoMemory>
        ensures { OnOk result (self.new ≡ fold after_line self.old (parts_from ends_line text.now start)) }
    {
        let mut at = start;
        while at <= text.len() {
            let end = at + part_len(&text[at..], b'\n');
            self.add_line(alloc, &text[at..end])?;
            at = end + 1;
        }
        Ok(())
    }

    /// Reads one more line.
    fn add_line(&mut self, alloc: Global, line: &[u8]) -> Result<(), NoMemory>
        ensures { OnOk result (self.new ≡ after_line self.old line.now) }
    {
        if self.is_behind {
            return self.failed.add_line(alloc, line);
        }
        if is_divider(line) {
            self.is_behind = true;
            return Ok(());
        }
        self.lines.add_line(alloc, self.version, line)
    }
}

fn is_divider(line: &[u8]) -> bool
    ensures { result ≡ divides line.now }
{
    line == b"---".as_slice()
}

fn is_mark(line: &[u8]) -> bool
    ensures { result ≡ marks line.now }
{
    line == b"version 2".as_slice()
}
