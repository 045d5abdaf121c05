ghost use Rattle.ct_app.specs.declared.outcome.Outcome.TheVariants as Ends;
ghost use Rattle.std.specs.Prelude.{◌≡◌};

use crate::run_files::RunFileFault;
use crate::spec_file::SpecFileFault;
use ct_args::{UsageFault, UsageKind};
use ct_base::{List, Name, NoMemory, SinkFault};
use ct_history::{History, Plan};
use ct_props::PropKind;
use ct_spec::SpecFault;
use ct_testfile::{ReadFault, ReadKind};

/// Why the file that declares the resources of the machine is refused.
///
/// Source: CMake manual, ctest(1), Resource Specification File. That it is refused is this project's
/// choice.
#[derive(Debug, Drop)]
pub enum SpecRefusal {
    /// The file is absent.
    Absent,
    /// The file has more than 16 MiB.
    TooLong,
    /// The text is no specification. The fault is never `NoMemory`.
    Fault(SpecFault),
}

/// What a call refuses.
#[derive(Debug, Drop)]
pub enum Refusal {
    /// A line of a test file, counted from 1, or the file as a whole at line 0.
    TestFile {
        file: Name,
        line: u32,
        kind: ReadKind,
    },
    /// The property with this key, of the test with this number. The kind never holds a `NoMemory`.
    Prop {
        test: u32,
        key: Name,
        kind: PropKind,
    },
    /// The file that declares the resources of the machine.
    Spec(SpecRefusal),
    /// The numbers of the tests of a cycle: each must run after the next one in the list, and the
    /// last after the first. Which of several cycles it is, is left open.
    Cycle(List<u32>),
    /// More than `ct_graph::MOST_EDGES` tests come before the tests of the run, summed over these
    /// tests.
    TooManyEdges,
}

/// How a top call ended.
#[derive(Debug, Drop)]
pub enum Outcome {
    /// The test files were read to their ends, each test is final, and the files of the run were
    /// written.
    Completed,
    /// The list that the words ask for was put.
    Listed,
    /// A word of the command line, counted from 1, is refused.
    Usage { word: u32, kind: UsageKind },
    /// A test file, a property, the specification or the order of the tests is refused.
    Refused(Refusal),
    /// The path could not be read or written. If there is a history, the run is complete and was
    /// reported.
    FilesFault { path: Name },
    /// The sink failed at the report or the list.
    OutputFault,
    /// Memory ran out.
    Memory,
}

/// What `ctest_main` returns: how the call ended, and the files, gates and sink that it took.
#[derive(Drop)]
pub struct Finished<F, G, S> {
    pub outcome: Outcome,
    /// The exit status of the program.
    pub status: u8,
    /// The plan of the run, if one was made.
    pub plan: Option<Plan>,
    /// The history of the run, if a plan was made.
    pub history: Option<History>,
    pub files: F,
    pub gates: Vec<G>,
    pub sink: S,
}

/// What `list_main` returns: how the call ended, and the files and sink that it took.
#[derive(Drop)]
pub struct Listed<F, S> {
    pub outcome: Outcome,
    /// The exit status of the program.
    pub status: u8,
    pub files: F,
    pub sink: S,
}

impl From<NoMemory> for Outcome {
    ghost from_gives = { λ _ e. e ≡ Ends.Memory };

    fn from(_e: NoMemory) -> Outcome {
        Outcome::Memory
    }
}

impl From<UsageFault> for Outcome {
    ghost use Rattle.ct_app.specs.Outcome.{outcome_of_usage};

    ghost from_gives = { λ fault e. e ≡ outcome_of_usage fault };

    fn from(fault: UsageFault) -> Outcome {
        match fault {
            UsageFault::At { word, kind } => Outcome::Usage { word, kind },
            UsageFault::NoMemory => Outcome::Memory,
        }
    }
}

impl From<ReadFault> for Outcome {
    ghost use Rattle.ct_app.specs.Outcome.{outcome_of};

    ghost from_gives = { λ fault e. e ≡ outcome_of fault };

    fn from(fault: ReadFault) -> Outcome {
        match fault {
            ReadFault::At { file, line, kind } => {
                Outcome::Refused(Refusal::TestFile { file, line, kind })
            }
            ReadFault::FilesFailed { path } => Outcome::FilesFault { path },
            ReadFault::NoMemory => Outcome::Memory,
        }
    }
}

impl From<RunFileFault> for Outcome {
    ghost use Rattle.ct_app.specs.Outcome.{outcome_of_file};

    ghost from_gives = { λ fault e. e ≡ outcome_of_file fault };

    fn from(fault: RunFileFault) -> Outcome {
        match fault {
            RunFileFault::Failed { path } => Outcome::FilesFault { path },
            RunFileFault::NoMemory => Outcome::Memory,
        }
    }
}

impl From<SpecFileFault> for Outcome {
    ghost use Rattle.ct_app.specs.Outcome.{outcome_of_spec};

    ghost from_gives = { λ fault e. e ≡ outcome_of_spec fault };

    fn from(fault: SpecFileFault) -> Outcome {
        match fault {
            SpecFileFault::Refused(why) => Outcome::Refused(Refusal::Spec(why)),
            SpecFileFault::Failed { path } => Outcome::FilesFault { path },
            SpecFileFault::NoMemory => Outcome::Memory,
        }
    }
}

impl From<SinkFault> for Outcome {
    ghost use Rattle.ct_app.specs.Outcome.{outcome_of_sink};

    ghost from_gives = { λ fault e. e ≡ outcome_of_sink fault };

    fn from(fault: SinkFault) -> Outcome {
        match fault {
            SinkFault::Failed => Outcome::OutputFault,
            SinkFault::NoMemory => Outcome::Memory,
        }
    }
}
