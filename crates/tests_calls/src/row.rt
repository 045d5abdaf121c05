//! A call, and the texts that calls are read from.
//!
//! A line that begins a part of a text begins with one of the words below. The lines of a longer text
//! stand behind it, each behind four spaces; an empty line among them counts, and at their end it
//! does not.
//!
//! In front of the first row stand lines of `#` on what the text shows, and the facts that hold for each of its
//! rows. A row has, in this order:
//! - `row` and what the row shows;
//! - its facts, one on each line;
//! - its files, each by `file` and its path, with its text behind it, which ends with a line feed;
//! - its calls, each by `call`, which call it is and the words, with what is wanted of it behind it:
//!   `want`, what is told, and the text on the same line or behind it. A line `or` parts two allowed texts. A
//!   call without a `want` has those of the call before.
//!
//! The facts are:
//! - `does 2/3 exit:1 10000 done`: the third attempt of test 2 writes `done` and exits with 1 after
//!   10,000 microseconds. Without `/3` it is the first attempt. In place of `exit:1` may stand `signalled`,
//!   `timeout`, `unstarted`, `lacks` (the first required file) or `memory`.
//! - `fails call 1`: the first call on the files fails. `fails put 1`: the first put fails.
//! - `gates 1`: there is one gate. Without this fact there is one for each processor of `-j`.
//! - `most 58`: a journal that is kept has at most 58 bytes.
//! - `env A=b`: the environment has this variable.
//! - `costs a 1 2.000000;---;`: the cost file of the last run, with `;` for the end of each line.
//! - `log 7:a;`: the log of the last run, with `;` for the end of each line.
//! - `fill 99`: the cost file goes on with `x` up to 99 bytes.

ghost use Rattle.std.specs.Prelude.{◌≤◌};

use ct_base::NoMemory;
use std::alloc::Global;
use std::fmt;

/// What stands in front of each line of a longer text.
const INDENT: &str = "    ";

/// A call of a row.
#[derive(Clone, Copy)]
pub struct CallRow<'a> {
    /// What holds for each row of the text.
    head: &'a str,
    /// What the row shows, its facts and its files.
    given: &'a str,
    /// Which call it is.
    pub top: &'a str,
    /// The words, with spaces between.
    pub words: &'a str,
    /// What is wanted, and what stands in front of that.
    wants: &'a str,
}

impl<'a> CallRow<'a> {
    /// Reads a call of a row from the head of the text, what is given for the row, the text of the call, and
    /// `before`, what is wanted of the call before.
    fn of(head: &'a str, given: &'a str, call: &'a str, before: &'a str) -> CallRow<'a> {
        let line = call.lines().next().unwrap_or("");
        let (top, words) = line.split_once(' ').unwrap_or((line, ""));
        let has_wants = call.contains("\nwant ");
        CallRow {
            head,
            given,
            top,
            words,
            wants: if has_wants { call } else { before },
        }
    }

    /// Returns the facts and files of the row, and the facts of each row.
    pub(crate) fn parts(&self) -> [&'a str; 2] {
        [self.given, self.head]
    }

    /// Returns the texts of the row's files, each from its path on.
    pub(crate) fn files(&self) -> &'a str {
        self.given
    }

    /// Returns the first fact of this kind, without the kind.
    pub fn fact(&self, kind: &str) -> Option<&'a str> {
        fact_in(self.given, kind).or(fact_in(self.head, kind))
    }

    /// Counts the gates of the call, of which there is at least one.
    pub fn gates(&self) -> usize
        ensures { 1 ≤ result }
    {
        let (_, level) = self.words.split_once("-j ").unwrap_or(("", ""));
        let level = level.split(' ').next().unwrap_or("");
        let gates = self.fact("gates ").unwrap_or(level);
        gates.parse().unwrap_or(1).max(1)
    }

    /// Reads what is wanted of the call.
    pub fn wants(&self, alloc: Global) -> Result<Vec<Want<'a>>, NoMemory> {
        let mut wants = Vec::new(alloc);
        for want in self.wants.split("\nwant ").skip(1) {
            wants.push(Want::of(want))?;
        }
        Ok(wants)
    }
}

impl fmt::Display for CallRow<'_> {
    fn fmt<W: fmt::Write>(&self, f: &mut fmt::Formatter<W>) -> fmt::Result {
        let row = self.given.lines().next().unwrap_or("");
        write!(f, "row {row}: call {} {}", self.top, self.words)
    }
}

/// Returns the first fact of this kind in a text, without the kind.
fn fact_in<'a>(text: &'a str, kind: &str) -> Option<&'a str> {
    for fact in text.lines().skip(1) {
        if let Some(said) = fact.strip_prefix(kind) {
            return Some(said);
        }
    }
    None
}

/// What is wanted of a call.
#[derive(Clone, Copy)]
pub struct Want<'a> {
    /// What is told.
    pub tell: &'a str,
    /// The text on the same line, if there is one.
    line: Option<&'a str>,
    /// The allowed texts behind the line.
    texts: &'a str,
}

impl<'a> Want<'a> {
    /// Reads what is wanted from what stands behind the word `want`.
    fn of(want: &'a str) -> Want<'a> {
        let (first, texts) = want.split_once('\n').unwrap_or((want, ""));
        let (tell, line) = match first.split_once(' ') {
            Some((tell, line)) => (tell, Some(line)),
            None => (first, None),
        };
        Want { tell, line, texts }
    }

    /// Returns whether a text is one of the allowed texts.
    pub fn allows(&self, alloc: Global, text: &str) -> Result<bool, NoMemory> {
        if let Some(line) = self.line {
            return Ok(line == text);
        }
        for allowed in self.texts.split("\nor\n") {
            if text_behind(alloc, allowed)?.as_str() == text {
                return Ok(true);
            }
        }
        Ok(false)
    }
}

impl fmt::Display for Want<'_> {
    fn fmt<W: fmt::Write>(&self, f: &mut fmt::Formatter<W>) -> fmt::Result {
        match self.line {
            Some(line) => write!(f, "{line}"),
            None => write!(f, "{}", self.texts.trim_end_matches('\n')),
        }
    }
}

/// Makes a longer text, with a line feed at the end of each of its lines.
pub(crate) fn text_behind(alloc: Global, lines: &str) -> Result<String, NoMemory> {
    let mut text = String::new(alloc);
    for line in lines.trim_end_matches('\n').lines() {
        text.push_str(line.strip_prefix(INDENT).unwrap_or(line))?;
        text.push('\n')?;
    }
    Ok(text)
}

/// Reads the calls of a text. Its first line is no fact.
pub fn calls_of<'a>(alloc: Global, text: &'a str) -> Result<Vec<CallRow<'a>>, NoMemory> {
    let (head, _) = text.split_once("\nrow ").unwrap_or((text, ""));
    let mut calls = Vec::new(alloc);
    for row in text.split("\nrow ").skip(1) {
        let (given, _) = row.split_once("\ncall ").unwrap_or((row, ""));
        for call in row.split("\ncall ").skip(1) {
            calls.push(CallRow::of(head, given, call, last_wants(calls.as_slice(), given)))?;
        }
    }
    Ok(calls)
}

/// Returns what is wanted of the last of these calls, if it is a call of this row.
fn last_wants<'a>(calls: &[CallRow<'a>], given: &str) -> &'a str {
    match calls {
        [.., last] if last.given == given => last.wants,
        _ => "",
    }
}

/// Counts the rows of a text.
pub fn count_rows(text: &str) -> usize {
    text.split("\nrow ").skip(1).count()
}

/// Returns the first line of a text that stands where no such line may stand, or the name of a row without a
/// call, if there is one.
pub fn odd_line(text: &str) -> Option<&str> {
    let (head, _) = text.split_once("\nrow ").unwrap_or((text, ""));
    let mut odd = head.lines().skip(1).find(|line| !is_given(line));
    for row in text.split("\nrow ").skip(1) {
        odd = odd.or(odd_in_row(row));
    }
    odd
}

fn odd_in_row(row: &str) -> Option<&str> {
    let Some((given, calls)) = row.split_once("\ncall ") else {
        return row.lines().next();
    };
    let odd = given.lines().skip(1).find(|line| !is_given(line));
    odd.or(calls.lines().skip(1).find(|line| !is_of_call(line)))
}

/// Returns whether a line may stand in front of the calls of a row.
fn is_given(line: &str) -> bool {
    if line.is_empty() || line.starts_with(INDENT) {
        return true;
    }
    let (word, rest) = line.split_once(' ').unwrap_or((line, ""));
    match word {
        "#" | "file" | "costs" | "log" => !rest.is_empty(),
        "env" => rest.contains('='),
        "gates" | "fill" | "most" => rest.parse::<usize>().is_ok(),
        "does" => is_end(rest),
        "fails" => is_failing(rest),
        _ => false,
    }
}

/// Returns whether a line may stand among the calls of a row.
fn is_of_call(line: &str) -> bool {
    if line.is_empty() || line.starts_with(INDENT) {
        return true;
    }
    let (word, rest) = line.split_once(' ').unwrap_or((line, ""));
    match word {
        "call" | "want" => !rest.is_empty(),
        "or" => rest.is_empty(),
        _ => false,
    }
}

/// Returns whether a fact tells of an attempt.
fn is_end(rest: &str) -> bool {
    let mut cells = rest.splitn(4, ' ');
    let test = cells.next().unwrap_or("");
    let (test, attempt) = test.split_once('/').unwrap_or((test, "1"));
    let how = cells.next().unwrap_or("");
    let micros = cells.next().unwrap_or("");
    test.parse::<u32>().is_ok()
        && attempt.parse::<u32>().is_ok()
        && crate::outside::how(how).is_some()
        && micros.parse::<u64>().is_ok()
}

/// Returns whether a fact tells of a call or a put that fails.
fn is_failing(rest: &str) -> bool {
    match rest.split_once(' ') {
        Some(("call" | "put", number)) => number.parse::<u64>().is_ok(),
        _ => false,
    }
}
