//! What a call is given: its words, its environment, its files, its sink and its gates.

ghost use Rattle.std.specs.Prelude.{◌≡◌, ◌<◌, IfOk, length, vec_len};

use crate::row::{CallRow, text_behind};
use ct_base::{Blob, List, MemFiles, MemSink, Name, NoMemory, Pair};
use ct_core::{Ended, ScriptGate, Told};
use ct_verdict::How;
use std::alloc::Global;

/// The cost file.
const COSTS: &str = "./Testing/Temporary/CTestCostData.txt";

/// The log of failed tests.
const LOG: &str = "./Testing/Temporary/LastTestsFailed.log";

/// The number of words from which on a call is not made.
const TOO_MANY_WORDS: usize = 200;

/// What a call is given, but for its gates.
#[derive(Drop)]
pub struct Inputs {
    pub words: List<Name>,
    pub env: List<Pair>,
    pub files: MemFiles,
    pub sink: MemSink,
}

/// Makes what a call is given. Of 200 words or more it gives none.
pub fn inputs_of(alloc: Global, call: &CallRow<'_>) -> Result<Inputs, NoMemory>
    ensures { IfOk result (λ inputs. length inputs.words < 200) }
{
    Ok(Inputs {
        words: words_of(alloc, call.words)?,
        env: env_of(alloc, call)?,
        files: files_of(alloc, call)?,
        sink: sink_of(alloc, call)?,
    })
}

/// Reads the words of a line. Of 200 or more it gives none.
pub fn words_of(alloc: Global, line: &str) -> Result<List<Name>, NoMemory>
    ensures { IfOk result (λ words. length words < 200) }
{
    let words = read_words(alloc, line)?;
    if words.len() < TOO_MANY_WORDS {
        Ok(words)
    } else {
        Ok(List::new(alloc))
    }
}

fn read_words(alloc: Global, line: &str) -> Result<List<Name>, NoMemory> {
    let mut words = List::new(alloc);
    for word in line.split(' ') {
        if !word.is_empty() {
            words.push(Name::of(alloc, word.as_bytes())?)?;
        }
    }
    Ok(words)
}

/// Reads the variables of the environment.
fn env_of(alloc: Global, call: &CallRow<'_>) -> Result<List<Pair>, NoMemory> {
    let mut env = List::new(alloc);
    for part in call.parts() {
        push_env(alloc, &mut env, part)?;
    }
    Ok(env)
}

/// Adds the variables of a part.
fn push_env(alloc: Global, env: &mut List<Pair>, part: &str) -> Result<(), NoMemory> {
    for fact in part.lines().skip(1) {
        if let Some((name, value)) = fact
            .strip_prefix("env ")
            .and_then(|said| said.split_once('='))
        {
            env.push(pair_of(alloc, name, value)?)?;
        }
    }
    Ok(())
}

/// Makes the files of a call, with the files that the last run left.
fn files_of(alloc: Global, call: &CallRow<'_>) -> Result<MemFiles, NoMemory> {
    let mut held = named_files(alloc, call)?;
    if let Some(costs) = call.fact("costs ") {
        held.push(file(alloc, COSTS, costs_of(alloc, call, costs)?)?)?;
    }
    if let Some(log) = call.fact("log ") {
        held.push(file(alloc, LOG, lines_in(alloc, log)?)?)?;
    }
    Ok(MemFiles::new(held, failing(alloc, call, "fails call ")?))
}

/// Makes the files that the row of a call names.
pub(crate) fn named_files(alloc: Global, call: &CallRow<'_>) -> Result<List<Pair>, NoMemory> {
    let mut files = List::new(alloc);
    for file in call.files().split("\nfile ").skip(1) {
        files.push(named_file(alloc, file)?)?;
    }
    Ok(files)
}

/// Makes a file from its path and the lines behind it.
fn named_file(alloc: Global, file: &str) -> Result<Pair, NoMemory> {
    let (path, lines) = file.split_once('\n').unwrap_or((file, ""));
    pair_of(alloc, path, text_behind(alloc, lines)?.as_str())
}

/// Makes the text of the cost file from its fact.
fn costs_of(alloc: Global, call: &CallRow<'_>, costs: &str) -> Result<Vec<u8>, NoMemory> {
    let mut text = lines_in(alloc, costs)?;
    if let Some(len) = call.fact("fill ") {
        text.resize(len.parse().unwrap_or(0), b'x')?;
    }
    Ok(text)
}

fn file(alloc: Global, path: &str, text: Vec<u8>) -> Result<Pair, NoMemory> {
    Ok(Pair {
        name: Name::of(alloc, path.as_bytes())?,
        value: Name::from_vec(text),
    })
}

/// Makes a pair.
fn pair_of(alloc: Global, name: &str, value: &str) -> Result<Pair, NoMemory> {
    file(alloc, name, Vec::from_slice(alloc, value.as_bytes())?)
}

/// Makes the text of a file from a fact.
fn lines_in(alloc: Global, fact: &str) -> Result<Vec<u8>, NoMemory> {
    let mut text = Vec::new(alloc);
    for byte in fact.as_bytes() {
        text.push(if *byte == b';' { b'\n' } else { *byte })?;
    }
    Ok(text)
}

/// Reads the numbers, from 1, of the calls of a kind that fail.
fn failing(alloc: Global, call: &CallRow<'_>, kind: &str) -> Result<List<u64>, NoMemory> {
    let mut failing = List::new(alloc);
    for part in call.parts() {
        push_failing(&mut failing, part, kind)?;
    }
    Ok(failing)
}

/// Adds the numbers of a part.
fn push_failing(failing: &mut List<u64>, part: &str, kind: &str) -> Result<(), NoMemory> {
    for fact in part.lines().skip(1) {
        if let Some(number) = fact.strip_prefix(kind) {
            failing.push(number.parse().unwrap_or(0))?;
        }
    }
    Ok(())
}

/// Makes the sink of a call.
pub fn sink_of(alloc: Global, call: &CallRow<'_>) -> Result<MemSink, NoMemory> {
    Ok(MemSink::new(alloc, failing(alloc, call, "fails put ")?))
}

/// Makes a sink whose put with this number fails; without a number no put fails.
pub fn sink_failing_at(alloc: Global, number: &str) -> Result<MemSink, NoMemory> {
    let mut failing = List::new(alloc);
    if let Ok(number) = number.parse() {
        failing.push(number)?;
    }
    Ok(MemSink::new(alloc, failing))
}

/// Makes so many gates that play the attempts of the facts.
pub fn gates_of(
    alloc: Global,
    call: &CallRow<'_>,
    count: usize,
) -> Result<Vec<ScriptGate>, NoMemory>
    ensures { IfOk result (λ gates. vec_len gates ≡ count) }
{
    let mut gates = Vec::new(alloc);
    for _ in 0..count {
        gates.push(gate_of(alloc, call)?)?;
    }
    Ok(gates)
}

/// Makes a gate that plays the attempts of the facts.
fn gate_of(alloc: Global, call: &CallRow<'_>) -> Result<ScriptGate, NoMemory> {
    let mut world = List::new(alloc);
    for part in call.parts() {
        push_told(alloc, &mut world, part)?;
    }
    Ok(ScriptGate::new(alloc, world))
}

/// Adds the attempts of a part.
fn push_told(alloc: Global, world: &mut List<Told>, part: &str) -> Result<(), NoMemory> {
    for fact in part.lines().skip(1) {
        if let Some(cells) = fact.strip_prefix("does ") {
            world.push(told(alloc, cells)?)?;
        }
    }
    Ok(())
}

/// Reads an attempt: its test, how it ended, its microseconds, and its output.
fn told(alloc: Global, cells: &str) -> Result<Told, NoMemory> {
    let mut cells = cells.splitn(4, ' ');
    let test = cells.next().unwrap_or("");
    let (test, attempt) = test.split_once('/').unwrap_or((test, "1"));
    Ok(Told {
        test: test.parse().unwrap_or(0),
        attempt: attempt.parse().unwrap_or(0),
        ended: Ended {
            how: how(cells.next().unwrap_or("")).unwrap_or(How::NotStarted),
            micros: cells.next().unwrap_or("").parse().unwrap_or(0),
        },
        heard: Blob::of(alloc, cells.next().unwrap_or("").as_bytes())?,
    })
}

/// Reads how an attempt ended.
pub(crate) fn how(word: &str) -> Option<How> {
    match word {
        "signalled" => Some(How::Signalled),
        "timeout" => Some(How::TimedOut),
        "unstarted" => Some(How::NotStarted),
        "lacks" => Some(How::Lacks(1)),
        "memory" => Some(How::NoMemory),
        _ => {
            let code = word.strip_prefix("exit:")?.parse().ok()?;
            Some(How::Exited(code))
        }
    }
}
