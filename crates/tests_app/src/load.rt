//! Loads: runs of many generated tests.

use crate::calls::{Machine, status_told};
use ct_base::NoMemory;
use ct_load::load_main;
use std::alloc::Global;
use std::test::Fail;
use tests_calls::{sink_failing_at, words_of};

/// Loads. The cells of a row are:
/// - the number of the put that fails, if one does;
/// - the words;
/// - the status;
/// - the counts of the summary, or the line that is put.
const LOADS: &str = "\
|1|0|100% tests passed, 0 tests failed out of 1
|96|0|100% tests passed, 0 tests failed out of 96
|97|8|98% tests passed, 1 tests failed out of 97
|1000|8|99% tests passed, 10 tests failed out of 1000
|10000|8|98% tests passed, 103 tests failed out of 10000
1|10|4|
||1|usage: ct_load n
|0|1|usage: ct_load n
|100001|1|usage: ct_load n
|x|1|usage: ct_load n
|10 10|1|usage: ct_load n
1|x|1|
";

/// A row of the table.
#[derive(Clone, Copy)]
struct Load<'a> {
    fails: &'a str,
    words: &'a str,
    status: u8,
    line: &'a str,
}

impl<'a> Load<'a> {
    fn of(row: &'a str) -> Load<'a> {
        let mut cells = row.splitn(4, '|');
        Load {
            fails: cells.next().unwrap_or(""),
            words: cells.next().unwrap_or(""),
            status: cells.next().unwrap_or("").parse().unwrap_or(255),
            line: cells.next().unwrap_or(""),
        }
    }

    /// Makes the report that is wanted.
    fn report(self, alloc: Global) -> Result<String, NoMemory> {
        let text = self.text(alloc)?;
        Ok(format!(in alloc; "status {}\n{text}", self.status)?)
    }

    /// Makes the text that is to be written.
    fn text(self, alloc: Global) -> Result<String, NoMemory> {
        let line = self.line;
        match self.status {
            0 => Ok(format!(in alloc; "\n{line}\n")?),
            8 => {
                let failed = failed_lines(alloc, self.words.parse().unwrap_or(0))?;
                Ok(format!(in alloc;
                    "\n{line}\n\nThe following tests FAILED:\n{failed}Errors while running CTest\n"
                )?)
            }
            1 if self.fails.is_empty() => Ok(format!(in alloc; "{line}\n")?),
            _ => Ok(String::new(alloc)),
        }
    }
}

/// Makes the lines of the failed tests in a run of `count` tests.
fn failed_lines(alloc: Global, count: u32) -> Result<String, NoMemory> {
    let mut lines = String::new(alloc);
    for number in 1..=count {
        if number % 97 == 0 {
            lines = format!(in alloc; "{lines}\t{number} - t{number} (Failed)\n")?;
        }
    }
    Ok(lines)
}

/// Runs a load, and reports the status and what was written.
fn report(rt: &impl Machine, load: Load<'_>) -> Result<String, NoMemory> {
    let words = words_of(rt.alloc(), load.words)?;
    let sink = sink_failing_at(rt.alloc(), load.fails)?;
    let loaded = load_main(rt, rt.alloc(), words.as_slice(), sink);
    status_told(rt.alloc(), loaded.status, &loaded.sink)
}

#[test]
fn puts_the_same_summary_at_each_run(rt: HostRuntime) -> Result<(), Fail> {
    for row in LOADS.lines() {
        let load = Load::of(row);
        let want = load.report(rt.alloc())?;
        for _ in 0..2 {
            let text = report(&rt, load)?;
            assert_eq!(rt; text.as_str(), want.as_str(), "{row}");
        }
    }
    Ok(())
}
