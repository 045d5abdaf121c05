ghost use Rattle.std.specs.Prelude.{◌≡◌};
ghost use Rattle.ct_core.specs.Parts.{AreCurrent};
ghost use Rattle.ct_core.specs.Run.{history_of_run};
ghost use Rattle.ct_history.specs.Verdicts.{verdict_of_test};

use crate::run::Run;
use ct_history::place_of;
use ct_verdict::Verdict;

impl Run {
    /// Returns the verdict of the test with this number, if it is final.
    pub(crate) fn verdict(&self, number: u32) -> Option<Verdict>
        requires { AreCurrent self.now.plan (history_of_run self.now) self.now.parts }
        ensures { result ≡ verdict_of_test self.now.plan (history_of_run self.now) number }
    {
        match place_of(self.plan.parts().tests.as_slice(), number) {
            Some(place) => self.parts.states[place].verdict(),
            None => None,
        }
    }
}
