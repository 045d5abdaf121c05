//! Four workers over one core, in one thread.

ghost use Rattle.std.specs.Prelude.{◌<◌};

use ct_base::NoMemory;
use ct_core::{Core, Next, Ticket};
use ct_history::{History, Plan, PlanParts, holds_start, is_busy, judge};
use ct_verdict::{How, Seen, Verdict};
use std::alloc::Global;
use std::mem;
use std::process::Abort;
use tests_samples::plan_of;

/// The tickets that each of four workers has to finish.
pub(crate) struct Hands {
    tickets: [Option<Ticket>; 4],
}

impl Hands {
    fn new() -> Hands {
        Hands {
            tickets: [None, None, None, None],
        }
    }

    pub(crate) fn is_free(&self, worker: u32) -> bool
        requires { worker < 4 }
    {
        self.tickets[worker as usize].is_none()
    }

    pub(crate) fn are_free(&self) -> bool {
        self.tickets.iter().all(|ticket| ticket.is_none())
    }

    fn take(&mut self, worker: u32) -> Option<Ticket>
        requires { worker < 4 }
    {
        self.tickets[worker as usize].take()
    }

    fn put(&mut self, rt: &impl Abort, worker: u32, ticket: Ticket)
        requires { worker < 4 }
    {
        match mem::replace(&mut self.tickets[worker as usize], Some(ticket)) {
            None => {}
            Some(_old) => panic!(rt; "a worker has two starts"),
        }
    }
}

/// A run in progress.
pub(crate) struct Run {
    pub(crate) core: Core,
    pub(crate) hands: Hands,
}

/// What a worker does, and what comes of it.
#[derive(Clone, Copy, Debug, PartialEq, Eq)]
pub(crate) enum Step {
    Starts {
        worker: u32,
        test: u32,
    },
    Ends {
        worker: u32,
        how: How,
        verdict: Option<Verdict>,
    },
    Waits {
        worker: u32,
    },
    Settles {
        worker: u32,
        test: u32,
    },
    IsDone,
    IsAborted,
}

/// Begins the run of a plan of sound parts.
pub(crate) fn open(rt: &impl Abort, alloc: Global, parts: PlanParts) -> Result<Run, NoMemory> {
    match plan_of(alloc, parts)? {
        Some(plan) => begin(alloc, plan),
        None => panic!(rt; "the parts are no plan"),
    }
}

fn begin(alloc: Global, plan: Plan) -> Result<Run, NoMemory> {
    match Core::open(alloc, plan) {
        Ok(core) => Ok(Run {
            core,
            hands: Hands::new(),
        }),
        Err(_plan) => Err(NoMemory),
    }
}

pub(crate) fn next(rt: &impl Abort, run: &mut Run, worker: u32) -> Step
    requires { worker < 4 }
{
    assert!(rt; !is_busy(run.core.history().entries.as_slice(), worker));
    match run.core.next(worker) {
        Next::Start(ticket) => {
            let test = ticket.test();
            run.hands.put(rt, worker, ticket);
            Step::Starts { worker, test }
        }
        Next::Settled(test) => Step::Settles { worker, test },
        Next::Wait => Step::Waits { worker },
        Next::Done => Step::IsDone,
        Next::Aborted => Step::IsAborted,
        Next::NoMemory => panic!(rt; "memory is wanting"),
    }
}

pub(crate) fn end(rt: &impl Abort, run: &mut Run, worker: u32, seen: Seen) -> Step
    requires { worker < 4 }
{
    match run.hands.take(worker) {
        Some(ticket) => Step::Ends {
            worker,
            how: seen.how,
            verdict: finish(rt, &mut run.core, ticket, seen),
        },
        None => panic!(rt; "nothing to end"),
    }
}

fn finish(rt: &impl Abort, core: &mut Core, ticket: Ticket, seen: Seen) -> Option<Verdict> {
    let entries = core.history().entries.as_slice();
    assert!(rt; holds_start(entries, ticket.test(), ticket.attempt(), ticket.worker()));
    core.finish(ticket, seen)
}

pub(crate) fn seen(how: How) -> Seen {
    Seen {
        how,
        fail_hit: false,
        pass_hit: false,
        skip_hit: false,
        micros: 0,
    }
}

/// Ends the open attempts, and returns the plan and the history, which it checks to be legal.
pub(crate) fn close(rt: &impl Abort, alloc: Global, run: Run) -> Result<(Plan, History), NoMemory> {
    let Run { core, hands } = run;
    let Hands { tickets } = hands;
    let (plan, history) = end_all(rt, core, tickets).into_parts();
    assert!(rt; judge(alloc, &plan, &history)?);
    Ok((plan, history))
}

fn end_all(rt: &impl Abort, mut core: Core, tickets: [Option<Ticket>; 4]) -> Core {
    let [first, second, third, fourth] = tickets;
    close_one(rt, &mut core, first);
    close_one(rt, &mut core, second);
    close_one(rt, &mut core, third);
    close_one(rt, &mut core, fourth);
    core
}

fn close_one(rt: &impl Abort, core: &mut Core, ticket: Option<Ticket>) {
    match ticket {
        Some(ticket) => {
            let _verdict = finish(rt, core, ticket, seen(How::Exited(0)));
        }
        None => {}
    }
}
