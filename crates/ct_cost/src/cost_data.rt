ghost use Rattle.std.specs.Prelude.{◌≡◌, ◌++◌, IfOk, OnOk, true, codes, flat_map};
ghost use Rattle.ct_history.specs.Verdicts.{are_all_final};
ghost use Rattle.ct_cost.specs.CostLine.{AreCosts};
ghost use Rattle.ct_cost.specs.Text.{cost_line_text, failed_text};
ghost use Rattle.ct_cost.specs.Costs.{cost_of_name, costs_after, costs_in, costs_text, failed_last};

use crate::lines::Lines;
use crate::names::Names;
use crate::reading::Reading;
use ct_base::{Blob, Name, NoMemory};
use ct_history::{History, Plan, courses_of};
use std::alloc::Global;
use std::marker::Model;

/// What is known of earlier runs: what the tests cost, and which of them failed last time.
///
/// Names may hold spaces. A name has one line at most, and the lines keep their order. Contracts see the
/// lines and the failed names.
///
/// Source: this project's choice, after the files that ctest writes.
#[derive(Drop)]
pub struct CostData {
    lines: Lines,
    failed: Names,
}

impl Model for CostData {
    ghost use Rattle.ct_cost.specs.CostLine.{AreCosts, Costs};

    ghost Value = { Costs };

    ghost view = { λ c. record { lines = c.lines; failed = c.failed } };

    ghost invariant = { λ c. AreCosts (record { lines = c.lines; failed = c.failed }) };
}

impl CostData {
    /// Reads cost data: lines of costs up to a line `---`, and behind it the names of failed tests.
    ///
    /// Where the first line is `version 2`, the others are a name, a space, and durations in seconds
    /// that are joined by `,`. The last eight are kept. In every other text they are a name, a space,
    /// runs, a space and a cost in seconds, which becomes the one duration.
    ///
    /// No text is refused: every other line is passed over, and so is a second line of a name.
    pub fn read(alloc: Global, text: &[u8]) -> Result<CostData, NoMemory>
        ensures is { IfOk result (λ costs. costs ≡ costs_in text.now) }
        ensures sound { IfOk result AreCosts }
    {
        let reading = Reading::of(alloc, text)?;
        Ok(CostData {
            lines: reading.lines,
            failed: reading.failed,
        })
    }

    /// Looks up what a test of this name costs: its greatest duration, in microseconds.
    pub fn cost(&self, name: &Name) -> Option<u64>
        ensures { result ≡ cost_of_name self.now name.now }
    {
        self.lines.cost(name.bytes())
    }

    /// Returns whether a test of this name failed last time.
    pub fn failed(&self, name: &Name) -> bool
        ensures { result ≡ failed_last self.now name.now }
    {
        self.failed.has(name.bytes())
    }

    /// Makes the cost data after a run: the time of each test that passed goes behind the durations of
    /// its name, and the failed names are those of this run.
    ///
    /// The last eight durations of a name are kept. Lines of names that did not run stay.
    pub fn after(&self, alloc: Global, plan: &Plan, history: &History) -> Result<CostData, NoMemory>
        requires ended { are_all_final plan.now history.now.entries.items ≡ true }
        ensures is { IfOk result (λ costs. costs ≡ costs_after plan.now history.now.entries.items self.now) }
        ensures sound { IfOk result AreCosts }
    {
        let courses = courses_of(alloc, history.entries.as_slice())?;
        let tests = plan.parts().tests.as_slice();
        let mut lines = self.lines.copy()?;
        lines.add_tests(alloc, tests, &courses)?;
        let mut failed = Names::new(alloc);
        failed.add_failed(alloc, tests, &courses)?;
        Ok(CostData { lines, failed })
    }

    /// Writes the text of version 2 that `read` reads, with durations as seconds with six decimals.
    pub fn text(&self, alloc: Global) -> Result<Blob, NoMemory>
        ensures { IfOk result (λ text. text ≡ costs_text self.now) }
    {
        let mut text = Blob::of(alloc, b"version 2\n")?;
        self.append_to(alloc, &mut text)?;
        Ok(text)
    }

    /// Puts the lines, and behind `---` the failed names, behind the text.
    fn append_to(&self, alloc: Global, text: &mut Blob) -> Result<(), NoMemory>
        ensures { OnOk result (text.new
            ≡ text.old ++ flat_map cost_line_text self.now.lines ++ codes "---\n" ++ flat_map failed_text self.now.failed) }
    {
        self.lines.append_to(alloc, text)?;
        text.append(b"---\n")?;
        self.failed.append_to(text)
    }
}
