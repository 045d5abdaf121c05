ghost use Rattle.std.specs.Prelude.{◌≡◌, ◌-◌, ◌^◌, ℕ, false, min};
ghost use Rattle.ct_testfile.specs.Says.{Follows};
ghost use Rattle.ct_testfile.specs.Commands.{begun, with_command, evaluated, taken, value_limits};
ghost use Rattle.ct_suite.specs.Readers.{are_too_long};

use crate::fault::{ReadKind, Stop};
use crate::limits::{Limits, value_limits};
use ct_base::List;
use ct_lex::Args;
use ct_suite::{Suite, Table, Value, raised, size, values_of};
use std::alloc::Global;

/// The state of a tree behind a command: its tests and variables so far, and the counts.
#[derive(Drop)]
pub(crate) struct State {
    pub(crate) tests: Suite,
    pub(crate) variables: Table,
    /// The commands that were carried out.
    pub(crate) commands: u64,
    /// The bytes of the test files that were read.
    pub(crate) file_bytes: u64,
    /// The bytes of all values of arguments, and of the values and folders that tests took.
    pub(crate) value_bytes: u64,
}

impl State {
    /// Counts one more command that is carried out.
    pub(crate) fn counted(self, limits: &Limits) -> Result<State, Stop>
        ensures { Follows result (with_command limits.now self) }
    {
        match raised(limits.commands, self.commands, 1) {
            None => Err(Stop::Refused(ReadKind::TooManyCommands)),
            Some(commands) => Ok(State { commands, ..self }),
        }
    }

    /// Counts bytes that values take. If `bytes` is 2^64 - 1, the real number may be greater.
    pub(crate) fn taken(self, limits: &Limits, bytes: u64) -> Result<State, Stop>
        ensures { (real : ℕ) → bytes ≡ min real (2 ^ 64 - 1) → Follows result (taken limits.now real self) }
    {
        match raised(limits.all_value_bytes, self.value_bytes, bytes) {
            None => Err(Stop::Refused(ReadKind::TooLong)),
            Some(value_bytes) => Ok(State {
                value_bytes,
                ..self
            }),
        }
    }

    /// Begins a command: it is counted, and then its arguments are evaluated.
    pub(crate) fn begin(
        self,
        alloc: Global,
        limits: &Limits,
        args: &Args,
    ) -> Result<(List<Value>, State), Stop>
        ensures { Follows result (begun limits.now args.now self) }
    {
        let state = self.counted(limits)?;
        let values = values_of(alloc, &value_limits(limits), &state.variables, args)?;
        state.evaluated(limits, values)
    }

    /// Counts the bytes of values, unless all of the tree are too long.
    #[tactic(auto, using(crate::proofs::BegunLemmas::evaluated_within))]
    fn evaluated(self, limits: &Limits, values: List<Value>) -> Result<(List<Value>, State), Stop>
        requires { are_too_long (value_limits limits.now) values ≡ false }
        ensures { Follows result (evaluated limits.now values self) }
    {
        let bytes = size(values.as_slice());
        let state = self.taken(limits, bytes)?;
        Ok((values, state))
    }
}
