ghost use Rattle.std.specs.Prelude.{◌≡◌, ◌^◌, ◌-◌, ◌<◌, length, unwrap_or, IfOk, OnOk, IfErr};
ghost use Rattle.ct_args.specs.Fault.{why_refused};
ghost use Rattle.ct_args.specs.Given.{options_in};
ghost use Rattle.ct_args.specs.Invocation.{invocation_seen, task_by};
ghost use Rattle.ct_args.specs.Read.{IsRefusedAs, IsRead};
ghost use Rattle.ct_args.specs.declared.usage.UsageFault.TheVariants.{At as refused_at};
ghost use Rattle.ct_args.specs.Seen.{given_seen};
ghost use Rattle.ct_args.specs.Slots.{slots_of_settings, no_slots, is_slot_full, with_text, with_flag, after_given, slots_behind, made_of};

use crate::given::Given;
use crate::invocation::{Invocation, Task};
use crate::numbers::numbers;
use crate::option::CommandOption;
use crate::usage::{UsageFault, UsageKind, ValueFault};
use crate::values::{is_error, json, level, limit, pattern, repeat};
use ct_base::{List, Name, NoMemory};
use ct_props::{Choice, Wanted};
use ct_verdict::{Mode, Repeat};
use std::alloc::Global;

/// How long a test may run without --timeout, in microseconds: 1500 seconds.
///
/// Source: this project's choice.
const USUAL_LIMIT: u64 = 1_500_000_000;

/// What the options read so far say. Each option that may be given once has a slot.
#[derive(Drop)]
pub struct Settings {
    choice: Choice,
    level: Option<u32>,
    repeat: Option<Repeat>,
    dir: Option<Name>,
    config: Option<Name>,
    spec_file: Option<Name>,
    timeout: Option<u64>,
    empty_is_error: Option<bool>,
    stop_on_failure: bool,
    show_only: bool,
    show_json: bool,
    print_labels: bool,
    rerun: bool,
}

impl Settings {
    fn nothing(alloc: Global) -> Settings
        ensures { slots_of_settings result ≡ no_slots }
    {
        Settings {
            choice: Choice {
                name: None,
                not_name: None,
                labels: List::new(alloc),
                not_labels: List::new(alloc),
                numbers: None,
                union: false,
                keep_any: None,
                keep_setup: None,
                keep_cleanup: None,
                only: None,
            },
            level: None,
            repeat: None,
            dir: None,
            config: None,
            spec_file: None,
            timeout: None,
            empty_is_error: None,
            stop_on_failure: false,
            show_only: false,
            show_json: false,
            print_labels: false,
            rerun: false,
        }
    }

    /// Reads the options of a command line, or finds the first that is refused.
    #[tactic(auto, using(crate::proofs::LoopLemmas::option_taken, crate::proofs::LoopLemmas::option_refused, crate::proofs::LoopLemmas::all_taken))]
    pub fn read(alloc: Global, words: &[Name]) -> Result<Settings, UsageFault>
        requires few { length words.now < 2 ^ 32 - 1 }
        ensures { IsRead slots_of_settings (slots_behind no_slots (options_in words.now)) result }
    {
        let mut settings = Settings::nothing(alloc);
        let mut count = 0;
        'words: while count < words.len() {
            let given = Given::behind(words, count);
            settings.take(alloc, &given)?;
            count = given.end() as usize;
        }
        Ok(settings)
    }

    /// Makes the invocation, with the usual value in place of each that was not given.
    pub fn into_invocation(self, alloc: Global) -> Result<Invocation, NoMemory>
        ensures { IfOk result (λ made. invocation_seen made ≡ made_of (slots_of_settings self)) }
    {
        let task = self.task();
        let choice = self.choice;
        let once = Repeat {
            mode: Mode::Once,
            times: 1,
        };
        Ok(Invocation {
            task,
            wanted: Wanted {
                dir: or_text(alloc, self.dir, b".")?,
                choice: Choice {
                    only: None,
                    ..choice
                },
                level: self.level.unwrap_or(1),
                repeat: self.repeat.unwrap_or(once),
                stop_on_failure: self.stop_on_failure,
            },
            config: or_text(alloc, self.config, b"")?,
            timeout: self.timeout.unwrap_or(USUAL_LIMIT),
            spec_file: self.spec_file,
            empty_is_error: self.empty_is_error.unwrap_or(false),
            rerun: self.rerun,
        })
    }

    fn task(&self) -> Task
        ensures { result ≡ task_by self.now.print_labels self.now.show_json self.now.show_only }
    {
        if self.print_labels {
            Task::ListLabels
        } else if self.show_json {
            Task::ListJson
        } else if self.show_only {
            Task::ListTests
        } else {
            Task::Run
        }
    }

    /// Takes one option. The checks are, in order: given twice, no value, bad value.
    fn take(&mut self, alloc: Global, given: &Given) -> Result<(), UsageFault>
        ensures { IsRead (λ done. slots_of_settings self.new) (after_given (slots_of_settings self.old) (given_seen given.now)) result }
    {
        let word = given.word;
        let Some(option) = given.option else {
            return Err(refused(word, UsageKind::UnknownOption));
        };
        if self.is_full(option) {
            return Err(refused(word, UsageKind::Twice));
        }
        if !option.takes_value() {
            self.raise(option);
            return Ok(());
        }
        let Some(value) = given.value else {
            return Err(refused(word, UsageKind::NoValue));
        };
        match self.fill(alloc, option, value.text) {
            Ok(()) => Ok(()),
            Err(fault) => Err(fault.at(value.word)),
        }
    }

    /// Returns whether the slot of an option is full.
    fn is_full(&self, option: CommandOption) -> bool
        ensures { result ≡ is_slot_full (slots_of_settings self.now) option }
    {
        match option {
            CommandOption::TestsRegex => self.choice.name.is_some(),
            CommandOption::ExcludeRegex => self.choice.not_name.is_some(),
            CommandOption::FixtureExcludeAny => self.choice.keep_any.is_some(),
            CommandOption::FixtureExcludeSetup => self.choice.keep_setup.is_some(),
            CommandOption::FixtureExcludeCleanup => self.choice.keep_cleanup.is_some(),
            CommandOption::TestsInformation => self.choice.numbers.is_some(),
            CommandOption::Parallel => self.level.is_some(),
            CommandOption::BuildConfig => self.config.is_some(),
            CommandOption::TestDir => self.dir.is_some(),
            CommandOption::ResourceSpecFile => self.spec_file.is_some(),
            CommandOption::Timeout => self.timeout.is_some(),
            CommandOption::Repeat => self.repeat.is_some(),
            CommandOption::NoTests => self.empty_is_error.is_some(),
            CommandOption::LabelRegex
            | CommandOption::LabelExclude
            | CommandOption::Union
            | CommandOption::StopOnFailure
            | CommandOption::ShowOnly
            | CommandOption::ShowOnlyAs
            | CommandOption::PrintLabels
            | CommandOption::RerunFailed
            | CommandOption::Verbosity => false,
        }
    }

    /// Takes an option without a value.
    fn raise(&mut self, option: CommandOption)
        ensures { slots_of_settings self.new ≡ with_flag option (slots_of_settings self.old) }
    {
        match option {
            CommandOption::Union => self.choice.union = true,
            CommandOption::StopOnFailure => self.stop_on_failure = true,
            CommandOption::ShowOnly => self.show_only = true,
            CommandOption::PrintLabels => self.print_labels = true,
            CommandOption::RerunFailed => self.rerun = true,
            CommandOption::Verbosity
            | CommandOption::TestsRegex
            | CommandOption::ExcludeRegex
            | CommandOption::LabelRegex
            | CommandOption::LabelExclude
            | CommandOption::FixtureExcludeAny
            | CommandOption::FixtureExcludeSetup
            | CommandOption::FixtureExcludeCleanup
            | CommandOption::TestsInformation
            | CommandOption::Parallel
            | CommandOption::BuildConfig
            | CommandOption::TestDir
            | CommandOption::ResourceSpecFile
            | CommandOption::Timeout
            | CommandOption::Repeat
            | CommandOption::NoTests
            | CommandOption::ShowOnlyAs => {}
        }
    }

    /// Reads the value of an option into its slot.
    fn fill(&mut self, alloc: Global, option: CommandOption, text: &[u8]) -> Result<(), ValueFault>
        ensures good { OnOk result (why_refused option text.now ≡ None) }
        ensures ok { OnOk result (slots_of_settings self.new ≡ with_text option text.now (slots_of_settings self.old)) }
        ensures bad { IfErr result (λ fault. IsRefusedAs (why_refused option text.now) fault) }
    {
        match option {
            CommandOption::TestsRegex => self.choice.name = Some(pattern(alloc, text)?),
            CommandOption::ExcludeRegex => self.choice.not_name = Some(pattern(alloc, text)?),
            CommandOption::LabelRegex => self.choice.labels.push(pattern(alloc, text)?)?,
            CommandOption::LabelExclude => self.choice.not_labels.push(pattern(alloc, text)?)?,
            CommandOption::FixtureExcludeAny => self.choice.keep_any = Some(pattern(alloc, text)?),
            CommandOption::FixtureExcludeSetup => self.choice.keep_setup = Some(pattern(
                alloc, text,
            )?),
            CommandOption::FixtureExcludeCleanup => self.choice.keep_cleanup = Some(pattern(
                alloc, text,
            )?),
            CommandOption::TestsInformation => self.choice.numbers = Some(numbers(alloc, text)?),
            CommandOption::Parallel => self.level = Some(level(text)?),
            CommandOption::BuildConfig => self.config = Some(Name::of(alloc, text)?),
            CommandOption::TestDir => self.dir = Some(Name::of(alloc, text)?),
            CommandOption::ResourceSpecFile => self.spec_file = Some(Name::of(alloc, text)?),
            CommandOption::Timeout => self.timeout = Some(limit(text)?),
            CommandOption::Repeat => self.repeat = Some(repeat(text)?),
            CommandOption::NoTests => self.empty_is_error = Some(is_error(text)?),
            CommandOption::ShowOnlyAs => {
                json(text)?;
                self.show_json = true
            }
            CommandOption::Union
            | CommandOption::StopOnFailure
            | CommandOption::ShowOnly
            | CommandOption::PrintLabels
            | CommandOption::RerunFailed
            | CommandOption::Verbosity => {}
        }
        Ok(())
    }
}

fn refused(word: u32, kind: UsageKind) -> UsageFault
    ensures { result ≡ refused_at word kind }
{
    UsageFault::At { word, kind }
}

fn or_text(alloc: Global, given: Option<Name>, usual: &[u8]) -> Result<Name, NoMemory>
    ensures { IfOk result (λ text. text ≡ unwrap_or given usual.now) }
{
    match given {
        Some(text) => Ok(text),
        None => Name::of(alloc, usual),
    }
}
