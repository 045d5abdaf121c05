//! What was written, what files hold, and what gates were asked for behind a call.

use crate::outside::named_files;
use crate::row::CallRow;
use ct_base::{List, MemFiles, MemSink, Name, NoMemory, Pair};
use ct_core::{Request, ScriptGate};
use ct_history::Entry;
use std::alloc::Global;
use std::str;

/// The files that runs in the folders of the rows leave.
const PATHS: [&str; 8] = [
    "./Testing/Temporary/CTestCostData.txt",
    "./Testing/Temporary/LastTestsFailed.log",
    "build/Testing/Temporary/CTestCostData.txt",
    "build/Testing/Temporary/LastTestsFailed.log",
    "a/Testing/Temporary/CTestCostData.txt",
    "a/Testing/Temporary/LastTestsFailed.log",
    "b/Testing/Temporary/CTestCostData.txt",
    "b/Testing/Temporary/LastTestsFailed.log",
];

/// Lends what was written.
pub fn written(sink: &MemSink) -> &str {
    str::from_utf8(sink.written().bytes()).unwrap_or("?")
}

/// Lends a name as text.
pub fn text_of(name: &Name) -> &str {
    str::from_utf8(name.bytes()).unwrap_or("?")
}

/// Makes a line of what a path holds, with `;` for the end of each of its lines; none where it holds
/// nothing.
fn line_of(alloc: Global, files: &MemFiles, path: &str) -> Result<Option<String>, NoMemory> {
    let Some(held) = files.held(&Name::of(alloc, path.as_bytes())?) else {
        return Ok(None);
    };
    let mut line = String::new(alloc);
    for letter in text_of(held).chars() {
        line.push(if letter == '\n' { ';' } else { letter })?;
    }
    Ok(Some(line))
}

/// Makes a line of each file of a run that holds something, behind its path.
pub fn left_in(alloc: Global, files: &MemFiles) -> Result<String, NoMemory> {
    let mut text = String::new(alloc);
    for path in PATHS {
        if let Some(line) = line_of(alloc, files, path)? {
            text = format!(in alloc; "{text}{path} {line}\n")?;
        }
    }
    Ok(text)
}

/// Makes a copy of what a path holds, or `none`.
pub fn held_in(alloc: Global, files: &MemFiles, path: &str) -> Result<String, NoMemory> {
    let name = Name::of(alloc, path.as_bytes())?;
    let held = files.held(&name).map(text_of).unwrap_or("none");
    Ok(String::from_str(alloc, held)?)
}

/// Returns whether the files that the row of a call names hold what they held before it.
pub fn keeps_files(alloc: Global, call: &CallRow<'_>, files: &MemFiles) -> Result<bool, NoMemory> {
    for pair in named_files(alloc, call)?.as_slice() {
        match files.held(&pair.name) {
            Some(text) if text.is(&pair.value) => {}
            _ => return Ok(false),
        }
    }
    Ok(true)
}

/// Returns whether a gate was asked for an attempt, or sent a request.
pub fn is_asked(gates: &[ScriptGate]) -> bool {
    gates
        .iter()
        .any(|gate| !gate.asked().is_empty() || !gate.sent().is_empty())
}

/// Tells of the attempts that each gate was asked for, and how many of them were not started.
pub fn asked_of(alloc: Global, gates: &[ScriptGate]) -> Result<String, NoMemory> {
    let mut text = String::new(alloc);
    for gate in gates {
        for asked in gate.asked().as_slice() {
            text = format!(in alloc; "{text}{}/{} ", asked.test, asked.attempt)?;
        }
        text = format!(in alloc; "{text}unstarted {}\n", gate.faults())?;
    }
    Ok(text)
}

/// Tells of the requests that the gates were sent, each on a line of its own.
///
/// A line has the name, the folder, the command, the environment, the time limit in microseconds and
/// the required files, with a space behind each item of a list.
pub fn requests_of(alloc: Global, gates: &[ScriptGate]) -> Result<String, NoMemory> {
    let mut text = String::new(alloc);
    for gate in gates {
        for request in gate.sent().as_slice() {
            text = with_request(alloc, text, request)?;
        }
    }
    Ok(text)
}

/// Puts a request on a line behind the text.
fn with_request(alloc: Global, text: String, request: &Request) -> Result<String, NoMemory> {
    let name = text_of(&request.name);
    let dir = text_of(&request.dir);
    let command = names_in(alloc, &request.command)?;
    let text = format!(in alloc; "{text}{name}|{dir}|{command}|")?;
    let env = pairs_in(alloc, &request.env)?;
    let text = format!(in alloc; "{text}{env}|")?;
    let text = with_limit(alloc, text, request.limit)?;
    let required = names_in(alloc, &request.required)?;
    Ok(format!(in alloc; "{text}|{required}\n")?)
}

fn with_limit(alloc: Global, text: String, limit: Option<u64>) -> Result<String, NoMemory> {
    Ok(match limit {
        Some(micros) => format!(in alloc; "{text}{micros}")?,
        None => format!(in alloc; "{text}none")?,
    })
}

fn names_in(alloc: Global, names: &List<Name>) -> Result<String, NoMemory> {
    let mut text = String::new(alloc);
    for name in names.as_slice() {
        text = format!(in alloc; "{text}{} ", text_of(name))?;
    }
    Ok(text)
}

fn pairs_in(alloc: Global, pairs: &List<Pair>) -> Result<String, NoMemory> {
    let mut text = String::new(alloc);
    for pair in pairs.as_slice() {
        text = format!(in alloc; "{text}{}={} ", text_of(&pair.name), text_of(&pair.value))?;
    }
    Ok(text)
}

/// Tells of these entries, one on each line, with test and attempt.
pub fn entries_of(alloc: Global, entries: &[Entry]) -> Result<String, NoMemory> {
    let mut text = String::new(alloc);
    for entry in entries {
        text = with_entry(alloc, text, entry)?;
    }
    Ok(text)
}

/// Puts an entry on a line behind the text.
fn with_entry(alloc: Global, text: String, entry: &Entry) -> Result<String, NoMemory> {
    Ok(match entry {
        Entry::Start { test, attempt, .. } => {
            format!(in alloc; "{text}Start {test}/{attempt}\n")?
        }
        Entry::End { test, attempt, .. } => format!(in alloc; "{text}End {test}/{attempt}\n")?,
        Entry::Settle { test, .. } => format!(in alloc; "{text}Settle {test}\n")?,
        Entry::Stop => format!(in alloc; "{text}Stop\n")?,
    })
}
