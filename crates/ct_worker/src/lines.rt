ghost use Rattle.std.specs.Prelude.{◌≡◌, None};
ghost use Rattle.ct_core.specs.Gate.{is_no_memory};
ghost use Rattle.ct_history.specs.Verdicts.{verdict_of_test};
ghost use Rattle.ct_worker.specs.Kept.{KnowsSome};
ghost use Rattle.ct_worker.specs.Lines.{PutsEnd, PutsFor, PutsNext};

use ct_base::{NoMemory, Sink, SinkFault};
use ct_core::{Core, Next, lacks_memory};
use ct_report::TestLines;
use ct_verdict::{How, Verdict};

/// The sink of a run, and how far its lines have come.
#[derive(Drop)]
pub(crate) struct Lines<S: Sink> {
    pub(crate) sink: S,
    /// What the lines need of the history so far; `None` in front of the first line.
    known: Option<TestLines>,
    /// How many lines were put.
    count: u32,
}

impl<S: Sink> Lines<S> {
    /// Makes the lines of a run of which no line was put yet.
    pub(crate) fn new(sink: S) -> Lines<S>
        ensures { result ≡ record { sink = sink; known = None; count = 0 } }
    {
        Lines {
            sink,
            known: None,
            count: 0,
        }
    }

    /// Puts the line that an answer of the core brings: the line of a test that was settled.
    ///
    /// It returns `NoMemory` also if memory was wanting for the answer.
    pub(crate) fn put_for(&mut self, core: &Core, next: &Next) -> Result<(), SinkFault>
        requires { KnowsSome core.now self.old.known }
        ensures { PutsFor S.tells next.now core.now self.old self.new result }
    {
        match next {
            Next::Settled(test) => self.put(core, *test, core.verdict(*test)),
            Next::NoMemory => Err(SinkFault::NoMemory),
            Next::Start(_) | Next::Wait | Next::Done | Next::Aborted => Ok(()),
        }
    }

    /// Puts the line that the end of an attempt brings: the line of its test, if the test is final.
    ///
    /// It returns `NoMemory` also if memory was wanting for the attempt.
    pub(crate) fn put_end(
        &mut self,
        core: &Core,
        test: u32,
        verdict: Option<Verdict>,
        how: How,
    ) -> Result<(), SinkFault>
        requires known { KnowsSome core.now self.old.known }
        requires verdict { verdict ≡ verdict_of_test core.now.plan core.now.entries test }
        ensures { PutsEnd S.tells (is_no_memory how) test core.now self.old self.new result }
    {
        if lacks_memory(how) {
            Err(SinkFault::NoMemory)
        } else {
            self.put(core, test, verdict)
        }
    }

    /// Puts the line of a test, if the test is final, behind the lines of the others, and counts it.
    ///
    /// It returns `NoMemory` also if the count of lines is at its last value.
    fn put(&mut self, core: &Core, test: u32, verdict: Option<Verdict>) -> Result<(), SinkFault>
        requires known { KnowsSome core.now self.old.known }
        requires verdict { verdict ≡ verdict_of_test core.now.plan core.now.entries test }
        ensures { PutsNext S.tells test core.now self.old self.new result }
    {
        let Some(verdict) = verdict else {
            return Ok(());
        };
        let place = self.count.checked_add(1).ok_or(NoMemory)?;
        let alloc = *core.history().entries.allocator();
        let mut known = match self.known.take() {
            Some(known) => known,
            None => TestLines::new(alloc, core.plan())?,
        };
        let put = known.put(
            alloc,
            &mut self.sink,
            core.plan(),
            core.history(),
            test,
            place,
            verdict,
        );
        self.known = Some(known);
        put?;
        self.count = place;
        Ok(())
    }
}
