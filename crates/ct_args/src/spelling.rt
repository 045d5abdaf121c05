ghost use Rattle.std.specs.Prelude.{◌≡◌, ◌+◌, map, length, IfSome};
ghost use Rattle.ct_args.specs.Seen.{FitsIn};
ghost use Rattle.ct_args.specs.Spelling.{said_of, first_said as first_of, spelling_of, place_in_word, place_behind};

use crate::option::CommandOption;
use ct_base::is_numeral;

/// How a value goes with a word that names an option.
#[derive(Clone, Copy)]
pub enum Form {
    /// The option takes none.
    Flag,
    /// It is the next word.
    Short,
    /// It is the next word, or stands in the same one behind a `=`.
    Long,
    /// It is the next word, or stands in the same one and is digits.
    Digits,
    /// It stands in the same word behind a `=`.
    Inside,
}

/// Where the value of an option stands.
#[derive(Clone, Copy)]
pub enum ValuePlace {
    /// The option takes none.
    Nowhere,
    /// It is the next word.
    NextWord,
    /// It stands in the same word behind so many bytes.
    Behind(usize),
}

/// What a word says: an option, and where the value of the option stands.
#[derive(Clone, Copy)]
pub struct Said {
    pub option: CommandOption,
    pub value: ValuePlace,
}

/// The words that name options.
///
/// Source: CMake manual, ctest(1), Options.
const SPELLINGS: [(&[u8], CommandOption, Form); 39] = [
    (b"-R", CommandOption::TestsRegex, Form::Short),
    (b"--tests-regex", CommandOption::TestsRegex, Form::Long),
    (b"-E", CommandOption::ExcludeRegex, Form::Short),
    (b"--exclude-regex", CommandOption::ExcludeRegex, Form::Long),
    (b"-L", CommandOption::LabelRegex, Form::Short),
    (b"--label-regex", CommandOption::LabelRegex, Form::Long),
    (b"-LE", CommandOption::LabelExclude, Form::Short),
    (b"--label-exclude", CommandOption::LabelExclude, Form::Long),
    (b"-FA", CommandOption::FixtureExcludeAny, Form::Short),
    (
        b"--fixture-exclude-any",
        CommandOption::FixtureExcludeAny,
        Form::Long,
    ),
    (b"-FS", CommandOption::FixtureExcludeSetup, Form::Short),
    (
        b"--fixture-exclude-setup",
        CommandOption::FixtureExcludeSetup,
        Form::Long,
    ),
    (b"-FC", CommandOption::FixtureExcludeCleanup, Form::Short),
    (
        b"--fixture-exclude-cleanup",
        CommandOption::FixtureExcludeCleanup,
        Form::Long,
    ),
    (b"-I", CommandOption::TestsInformation, Form::Short),
    (
        b"--tests-information",
        CommandOption::TestsInformation,
        Form::Long,
    ),
    (b"-U", CommandOption::Union, Form::Flag),
    (b"--union", CommandOption::Union, Form::Flag),
    (b"-j", CommandOption::Parallel, Form::Digits),
    (b"--parallel", CommandOption::Parallel, Form::Long),
    (b"-C", CommandOption::BuildConfig, Form::Short),
    (b"--build-config", CommandOption::BuildConfig, Form::Long),
    (b"--test-dir", CommandOption::TestDir, Form::Long),
    (
        b"--resource-spec-file",
        CommandOption::ResourceSpecFile,
        Form::Long,
    ),
    (b"--timeout", CommandOption::Timeout, Form::Long),
    (b"--repeat", CommandOption::Repeat, Form::Long),
    (b"--no-tests", CommandOption::NoTests, Form::Inside),
    (
        b"--stop-on-failure",
        CommandOption::StopOnFailure,
        Form::Flag,
    ),
    (b"-N", CommandOption::ShowOnly, Form::Flag),
    (b"--show-only", CommandOption::ShowOnly, Form::Flag),
    (b"--show-only", CommandOption::ShowOnlyAs, Form::Inside),
    (b"--print-labels", CommandOption::PrintLabels, Form::Flag),
    (b"--rerun-failed", CommandOption::RerunFailed, Form::Flag),
    (b"-V", CommandOption::Verbosity, Form::Flag),
    (b"--verbose", CommandOption::Verbosity, Form::Flag),
    (b"-VV", CommandOption::Verbosity, Form::Flag),
    (b"--extra-verbose", CommandOption::Verbosity, Form::Flag),
    (b"--output-on-failure", CommandOption::Verbosity, Form::Flag),
    (b"--progress", CommandOption::Verbosity, Form::Flag),
];

impl Said {
    /// Finds the option that a word names, and where the value of the option stands.
    ///
    /// Source: CMake manual, ctest(1), Options.
    #[tactic(auto, unfolding(crate::specs::Spelling::said_of, crate::specs::Spelling::spellings))]
    pub fn by(word: &[u8]) -> Option<Said>
        ensures value { result ≡ said_of word.now }
        ensures fits { IfSome result (λ said. FitsIn (length word.now) said.value) }
    {
        first_said(&SPELLINGS, word)
    }
}

fn first_said(rows: &[(&[u8], CommandOption, Form)], word: &[u8]) -> Option<Said>
    ensures value { result ≡ first_of word.now (map spelling_of rows.now) }
    ensures fits { IfSome result (λ said. FitsIn (length word.now) said.value) }
{
    for row in rows {
        if let Some(value) = value_place(row.2, row.0, word) {
            return Some(Said {
                option: row.1,
                value,
            });
        }
    }
    None
}

/// Finds where the value stands, by the name and the form of an option. `None`: the word does not name it so.
fn value_place(form: Form, name: &[u8], word: &[u8]) -> Option<ValuePlace>
    ensures value { result ≡ place_in_word form name.now word.now }
    ensures fits { IfSome result (FitsIn (length word.now)) }
{
    if !word.starts_with(name) {
        return None;
    }
    value_behind(form, name, &word[name.len()..])
}

fn value_behind(form: Form, name: &[u8], rest: &[u8]) -> Option<ValuePlace>
    ensures value { result ≡ place_behind form name.now rest.now }
    ensures fits { IfSome result (FitsIn (length name.now + length rest.now)) }
{
    match (form, rest) {
        (Form::Flag, []) => Some(ValuePlace::Nowhere),
        (Form::Short | Form::Long | Form::Digits, []) => Some(ValuePlace::NextWord),
        (Form::Long | Form::Inside, [b'=', ..]) => Some(ValuePlace::Behind(name.len() + 1)),
        (Form::Digits, digits) if is_numeral(digits) => Some(ValuePlace::Behind(name.len())),
        _ => None,
    }
}
