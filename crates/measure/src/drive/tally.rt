use ct_verdict::Verdict;

/// How many attempts started, and how many tests passed and failed.
#[derive(Drop)]
pub struct Tally {
    pub starts: u64,
    pub passed: u64,
    pub failed: u64,
}

impl Tally {
    pub fn new() -> Tally {
        Tally {
            starts: 0,
            passed: 0,
            failed: 0,
        }
    }

    /// Counts a start.
    pub fn start(&mut self) {
        self.starts = self.starts.saturating_add(1);
    }

    /// Counts the verdict of a test that is now final.
    pub fn end(&mut self, verdict: Option<Verdict>) {
        match verdict {
            Some(Verdict::Passed) => self.passed = self.passed.saturating_add(1),
            Some(_) => self.failed = self.failed.saturating_add(1),
            None => {}
        }
    }
}
