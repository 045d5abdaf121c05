ghost use Rattle.std.specs.Prelude.{◌≡◌, ◌+◌, ◌<◌, ◌≤◌, [], ◌∷◌, All, None, Ok, IfOk, IfErr, IfSome, IsSomeAnd, OnOk, length, option_map, take};
ghost use Rattle.ct_base.specs.Outside.{Becomes, SameHeld};
ghost use Rattle.ct_lex.specs.Place.{beginning};
ghost use Rattle.ct_lex.specs.Reads.{commands_read};
ghost use Rattle.ct_testfile.specs.Asks.{AsksWithin, Blames, BlamesBy, CarriedAsk, NestedAsks, OpenedAsk, OpeningAsks, TreeAsks};
ghost use Rattle.ct_testfile.specs.TreeCalls.{MakesCalls, MakesCallsBy, calls_within, carried_calls, held_calls, nested_calls, opened_calls, opening_calls, tree_calls};
ghost use Rattle.ct_base.specs.declared.file_call.FileCall.TheVariants.{Read};
ghost use Rattle.ct_testfile.specs.Says.{AreBounded, Follows, HasFilesCause, IfFilesFailed, IsAnswerOf, IsAt, IsFaultIn, IsNextOf, IsRefusalOf, Over, Unfailed, inside};
ghost use Rattle.ct_testfile.specs.Commands.{openings, test_file};
ghost use Rattle.ct_testfile.specs.Tree.{absent, admitted, beginning_with, carried, ended, nested, all_opened, opened_by, top, tree_of, tree_within};
ghost use Rattle.ct_suite.specs.Tests.{HasShortValues, most_bytes, most_tests};

use crate::fault::{ReadFault, ReadKind, Stop, files_fault};
use crate::ifs::Ifs;
use crate::limits::{LIMITS, Limits};
use crate::open_file::OpenFile;
use crate::opening::{Opening, Opens, TestFile, opening_of, test_file};
use crate::state::State;
use crate::step::{Step, advance};
use ct_base::{Blob, Files, List, Name, NoMemory, TestDef};
use ct_lex::{Call, LexFault, Lexer};
use ct_suite::{Suite, Table, raised};
use std::alloc::Global;

/// Reads the tests that the tree of test files under a folder defines.
///
/// A folder without a test file defines no tests. `config` is the configuration that the tests are
/// built in, or empty. Source: CMake manual, ctest(1). The limits, the order of the refusals and
/// the part of the language that is read are this project's choice.
pub fn read_tree<F: Files>(
    alloc: Global,
    files: &mut F,
    dir: &Name,
    config: &Name,
) -> Result<List<TestDef>, ReadFault>
    ensures ok { IfOk result (λ defs. IfSome (F.tells files.old).held (λ held. tree_of held dir.now config.now ≡ Ok defs)) }
    ensures few { IfOk result (λ defs. length defs ≤ most_tests) }
    ensures within { IfOk result (λ defs. All (HasShortValues most_bytes) defs) }
    ensures refused { IfErr result (λ fault. IfSome (F.tells files.old).held (λ held. IsRefusalOf (tree_of held dir.now config.now) fault)) }
    ensures asks { IfErr result (λ fault. IfSome (F.tells files.old).held (λ held. IfFilesFailed fault (TreeAsks held dir.now config.now))) }
    ensures calls { IfSome (F.tells files.old).held (λ held.
        MakesCalls (tree_calls held dir.now config.now) (F.calls files.old) (F.calls files.new) result) }
    ensures cause { HasFilesCause (F.tells files.old) (F.tells files.new) result }
    ensures kept { Becomes (F.tells files.old).held (F.tells files.new).held SameHeld }
{
    read_tree_within(alloc, files, &LIMITS, dir, config)
}

/// Reads the tests as `read_tree` does, within these limits.
pub fn read_tree_within<F: Files>(
    alloc: Global,
    files: &mut F,
    limits: &Limits,
    dir: &Name,
    config: &Name,
) -> Result<List<TestDef>, ReadFault>
    requires { AreBounded limits.now }
    ensures ok { IfOk result (λ defs. IfSome (F.tells files.old).held (λ held. tree_within limits.now held dir.now config.now ≡ Ok defs)) }
    ensures few { IfOk result (λ defs. length defs ≤ most_tests) }
    ensures within { IfOk result (λ defs. All (HasShortValues most_bytes) defs) }
    ensures refused { IfErr result (λ fault. IfSome (F.tells files.old).held (λ held. IsRefusalOf (tree_within limits.now held dir.now config.now) fault)) }
    ensures asks { IfErr result (λ fault. IfSome (F.tells files.old).held (λ held. IfFilesFailed fault (AsksWithin limits.now held dir.now config.now))) }
    ensures calls { IfSome (F.tells files.old).held (λ held.
        MakesCalls (calls_within limits.now held dir.now config.now)
        (F.calls files.old) (F.calls files.new) result) }
    ensures cause { HasFilesCause (F.tells files.old) (F.tells files.new) result }
    ensures kept { Becomes (F.tells files.old).held (F.tells files.new).held SameHeld }
{
    read_through(alloc, files, limits, dir, config)
}

fn read_through<F: Files>(
    alloc: Global,
    files: &mut F,
    limits: &Limits,
    dir: &Name,
    config: &Name,
) -> Result<List<TestDef>, ReadFault>
    requires { AreBounded limits.now }
    ensures says { Over (F.tells files.old) (F.tells files.new) (λ held. tree_within limits.now held dir.now config.now) result }
    ensures asks { BlamesBy (F.tells files.old).held (λ held. AsksWithin limits.now held dir.now config.now) result }
    ensures calls { MakesCallsBy (F.tells files.old).held
        (λ held. calls_within limits.now held dir.now config.now)
        (F.calls files.old) (F.calls files.new) result }
    ensures few { IfOk result (λ defs. length defs ≤ most_tests) }
    ensures within { IfOk result (λ defs. All (HasShortValues most_bytes) defs) }
{
    let state = begin(alloc, config)?;
    let state = open_top(alloc, files, limits, dir, state)?;
    Ok(define(alloc, state)?)
}

/// Opens the test file of the folder at the top.
fn open_top<F: Files>(
    alloc: Global,
    files: &mut F,
    limits: &Limits,
    dir: &Name,
    state: State,
) -> Result<State, ReadFault>
    requires { AreBounded limits.now }
    ensures says { Over (F.tells files.old) (F.tells files.new) (λ held. opened_by (nested limits.now held limits.now.open_files) (test_file dir.now).path 0 (top dir.now) state (held (test_file dir.now).path)) result }
    ensures asks { BlamesBy (F.tells files.old).held (λ held. OpeningAsks (NestedAsks limits.now held limits.now.open_files) held (top dir.now) state) result }
    ensures calls { MakesCallsBy (F.tells files.old).held
        (λ held. opening_calls (nested_calls limits.now held limits.now.open_files) limits.now held
        (top dir.now) state)
        (F.calls files.old) (F.calls files.new) result }
{
    let opening = top(alloc, dir)?;
    let here = OpenFile {
        alloc,
        limits,
        file: &opening.file,
        more: limits.open_files,
    };
    open(files, &here, 0, &opening, state)
}

/// Returns the test file of the folder at the top, which is passed over if it is absent.
fn top(alloc: Global, dir: &Name) -> Result<Opening, NoMemory>
    ensures { IfOk result (λ opening. opening ≡ top dir.now) }
{
    let file = test_file(alloc, dir.copy(alloc)?)?;
    Ok(Opening {
        file,
        required: false,
    })
}

fn define(alloc: Global, state: State) -> Result<List<TestDef>, NoMemory>
    ensures is { IfOk result (λ defs. defs ≡ state.tests) }
    ensures few { IfOk result (λ defs. length defs ≤ most_tests) }
    ensures within { IfOk result (λ defs. All (HasShortValues most_bytes) defs) }
{
    let State {
        tests,
        variables: _,
        commands: _,
        file_bytes: _,
        value_bytes: _,
    } = state;
    tests.define(alloc)
}

/// Returns the state before the first command: only the variable CTEST_CONFIGURATION_TYPE is set.
///
/// Source: CMake manual, ctest(1), `--build-config`.
fn begin(alloc: Global, config: &Name) -> Result<State, NoMemory>
    ensures { IfOk result (λ state. state ≡ beginning_with config.now) }
{
    let name = Name::of(alloc, b"CTEST_CONFIGURATION_TYPE")?;
    let value = config.copy(alloc)?;
    Ok(State {
        tests: Suite::new(alloc)?,
        variables: Table::new(alloc)?.with(name, Some(value))?,
        commands: 0,
        file_bytes: 0,
        value_bytes: 0,
    })
}

/// Opens, one after the other, the files that a command on a line of a file opens.
#[cycle(tree)]
fn open_each<F: Files>(
    files: &mut F,
    here: &OpenFile<'_>,
    line: u32,
    opens: &Opens,
    state: State,
) -> Result<State, ReadFault>
    requires { AreBounded here.now.limits.now }
    ensures says { Over (F.tells files.old) (F.tells files.new)
        (λ held. all_opened (inside here.now held) held here.now.file.now.path line
        (openings here.now.file.now.dir opens.now) state) result }
    ensures asks { BlamesBy (F.tells files.old).held
        (λ held. OpenedAsk (inside here.now held) (NestedAsks here.now.limits.now held here.now.more) held
        here.now.file.now.path line (openings here.now.file.now.dir opens.now) state) result }
    ensures calls { MakesCallsBy (F.tells files.old).held
        (λ held. opened_calls (inside here.now held) (nested_calls here.now.limits.now held here.now.more)
        here.now.limits.now held here.now.file.now.path line (openings here.now.file.now.dir opens.now) state)
        (F.calls files.old) (F.calls files.new) result }
{
    let mut known = state;
    for name in opens.names.as_slice() {
        let opening = opening_of(here.alloc, &here.file.dir, opens.required, name)?;
        known = open(files, here, line, &opening, known)?;
    }
    Ok(known)
}

/// Opens one file for a command on a line of another one.
#[cycle(tree)]
fn open<F: Files>(
    files: &mut F,
    here: &OpenFile<'_>,
    line: u32,
    opening: &Opening,
    state: State,
) -> Result<State, ReadFault>
    requires { AreBounded here.now.limits.now }
    ensures says { Over (F.tells files.old) (F.tells files.new)
        (λ held. opened_by (inside here.now held) here.now.file.now.path line opening.now state
        (held opening.now.file.path)) result }
    ensures asks { BlamesBy (F.tells files.old).held
        (λ held. OpeningAsks (NestedAsks here.now.limits.now held here.now.more) held opening.now state) result }
    ensures calls { MakesCallsBy (F.tells files.old).held
        (λ held. opening_calls (nested_calls here.now.limits.now held here.now.more) here.now.limits.now held
        opening.now state) (F.calls files.old) (F.calls files.new) result }
{
    let most = here.limits.file_bytes;
    let got = fetch(here.alloc, files, &opening.file.path, most)?;
    enter(files, here, line, opening, state, got)
}

/// Reads what a path held as a file that a command on a line of another file opens.
#[cycle(tree)]
fn enter<F: Files>(
    files: &mut F,
    here: &OpenFile<'_>,
    line: u32,
    opening: &Opening,
    state: State,
    got: Option<Blob>,
) -> Result<State, ReadFault>
    requires { AreBounded here.now.limits.now }
    ensures says { Over (F.tells files.old) (F.tells files.new)
        (λ held. opened_by (inside here.now held) here.now.file.now.path line opening.now state got) result }
    ensures asks { BlamesBy (F.tells files.old).held
        (λ held path. IsSomeAnd got (λ text. NestedAsks here.now.limits.now held here.now.more opening.now.file state text path)) result }
    ensures calls { MakesCallsBy (F.tells files.old).held
        (λ held. held_calls (nested_calls here.now.limits.now held here.now.more) opening.now.file state got)
        (F.calls files.old) (F.calls files.new) result }
{
    let Some(text) = got else {
        return here.at_line(line, absent(opening, state));
    };
    if here.more == 0 {
        return here.at_line(line, Err(Stop::Refused(ReadKind::TooDeep)));
    }
    let inner = OpenFile {
        alloc: here.alloc,
        limits: here.limits,
        file: &opening.file,
        more: here.more - 1,
    };
    let admitted = admit(here.limits, text.bytes(), state);
    let state = inner.at_line(0, admitted)?;
    carry(files, &inner, state, text.bytes())
}

/// Reads what a path holds; of a file longer than `most` bytes, it reads `most + 1` bytes.
fn fetch<F: Files>(
    alloc: Global,
    files: &mut F,
    path: &Name,
    most: u32,
) -> Result<Option<Blob>, ReadFault>
    ensures says { Over (F.tells files.old) (F.tells files.new) (λ held. Ok (option_map (take (most + 1)) (held path.now))) result }
    ensures asks { Blames (λ refused. refused ≡ path.now) result }
    ensures calls { MakesCalls (Read path.now most ∷ []) (F.calls files.old) (F.calls files.new) result }
{
    let asked = path.copy(alloc)?;
    match files.read(alloc, &asked, u64::from(most)) {
        Ok(got) => Ok(got),
        Err(fault) => Err(files_fault(asked, fault)),
    }
}

/// Passes over a file that is absent, or refuses it if it is required.
fn absent(opening: &Opening, state: State) -> Result<State, Stop>
    ensures { Follows result (absent opening.now state) }
{
    if opening.required {
        Err(Stop::Refused(ReadKind::MissingInclude))
    } else {
        Ok(state)
    }
}

/// Counts the bytes of a text that is read as a file.
fn admit(limits: &Limits, text: &[u8], state: State) -> Result<State, Stop>
    ensures { Follows result (admitted limits.now text.now state) }
{
    if text.len() > limits.file_bytes as usize {
        return Err(Stop::Refused(ReadKind::TooLong));
    }
    match raised(limits.all_file_bytes, state.file_bytes, text.len() as u64) {
        None => Err(Stop::Refused(ReadKind::TooLong)),
        Some(file_bytes) => Ok(State {
            file_bytes,
            ..state
        }),
    }
}

/// Carries out the commands of a text that is read as a file.
#[cycle(tree)]
fn carry<F: Files>(
    files: &mut F,
    here: &OpenFile<'_>,
    state: State,
    text: &[u8],
) -> Result<State, ReadFault>
    requires limits { AreBounded here.now.limits.now }
    requires lines { length text.now < 4294967295 }
    ensures says { Over (F.tells files.old) (F.tells files.new)
        (λ held. carried (inside here.now held) here.now.limits.now held here.now.file.now [] state
        (commands_read (beginning text.now)).0 (commands_read (beginning text.now)).1) result }
    ensures asks { BlamesBy (F.tells files.old).held
        (λ held. CarriedAsk (inside here.now held) (NestedAsks here.now.limits.now held here.now.more)
        here.now.limits.now held here.now.file.now [] state (commands_read (beginning text.now)).0) result }
    ensures calls { MakesCallsBy (F.tells files.old).held
        (λ held. carried_calls (inside here.now held) (nested_calls here.now.limits.now held here.now.more)
        here.now.limits.now held here.now.file.now [] state (commands_read (beginning text.now)).0)
        (F.calls files.old) (F.calls files.new) result }
{
    let alloc = here.alloc;
    let mut lexer = Lexer::new(text);
    let mut ifs = Ifs::new(alloc);
    let mut known = state;
    'calls: while let Some(call) = next_call(alloc, &mut lexer, &here.file.path)? {
        let step = advance(files, here, ifs, known, &call)?;
        let Step {
            ifs: behind,
            state,
            opens,
        } = step;
        ifs = behind;
        known = open_each(files, here, call.line, &opens, state)?;
    }
    end(here, ifs, known)
}

/// Reads the next command of a file.
fn next_call(alloc: Global, lexer: &mut Lexer<'_>, file: &Name) -> Result<Option<Call>, ReadFault>
    ensures { IsNextOf file.now lexer.old lexer.new result }
{
    match lexer.next(alloc) {
        Ok(call) => Ok(call),
        Err(fault) => Err(fault_in(alloc, file, fault)),
    }
}

/// Ends a file. Each `if` has to be ended in the same file.
fn end(here: &OpenFile<'_>, ifs: Ifs, state: State) -> Result<State, ReadFault>
    ensures says { IsAnswerOf (ended here.now.file.now.path ifs state None) result }
    ensures unfailed { Unfailed result }
{
    match ifs.take_inner() {
        None => Ok(state),
        Some((inner, _)) => here.at_line(inner.line, Err(Stop::Refused(ReadKind::UnpairedIf))),
    }
}

/// Places a fault of a text in its file.
fn fault_in(alloc: Global, file: &Name, fault: LexFault) -> ReadFault
    ensures { IsFaultIn file.now fault result }
{
    match fault {
        LexFault::OpenString { line } => refused(alloc, file, line, ReadKind::OpenString),
        LexFault::OpenBracket { line } => refused(alloc, file, line, ReadKind::OpenBracket),
        LexFault::OpenCall { line } => refused(alloc, file, line, ReadKind::OpenCall),
        LexFault::BadEscape { line } => refused(alloc, file, line, ReadKind::BadEscape),
        LexFault::BadChar { line } => refused(alloc, file, line, ReadKind::BadChar),
        LexFault::BadReference { line } => refused(alloc, file, line, ReadKind::BadReference),
        LexFault::NoMemory => ReadFault::NoMemory,
    }
}

fn refused(alloc: Global, file: &Name, line: u32, kind: ReadKind) -> ReadFault
    ensures { IsAt file.now line kind result }
{
    match file.copy(alloc) {
        Ok(file) => ReadFault::At { file, line, kind },
        Err(NoMemory) => ReadFault::NoMemory,
    }
}
