//! What the words of a command line ask for, and which word is refused.
//!
//! The fields are told in which the invocation differs from that of an empty command line, or the refused word
//! and why. A pattern is shown by the texts of `TEXTS` that it hits.

use crate::entries::text_of;
use crate::planning::invocation_of;
use crate::row::{Given, RowFault};
use ct_args::{Invocation, Task, UsageFault};
use ct_base::{List, Name, NoMemory};
use ct_props::{Choice, Numbers, Wanted};
use ct_regex::Regex;
use ct_verdict::{Mode, Repeat};
use std::alloc::{AllocError, Global};

/// The texts that show what a pattern hits.
const TEXTS: [&str; 4] = ["a", "ab", "b", "-R"];

/// Tells what the words ask for, or which word is refused.
pub(crate) fn told(alloc: Global, given: Given<'_>) -> Result<String, RowFault> {
    let mut told = String::new(alloc);
    match invocation_of(alloc, given.text("words")?) {
        Ok(invocation) => put_facts(alloc, &mut told, &invocation)?,
        Err(fault) => put_fault(&mut told, &fault)?,
    }
    Ok(String::from_str(alloc, told.trim_start())?)
}

/// Reports the texts that the pattern hits, with a `,` between.
fn hits(alloc: Global, pattern: &Regex) -> Result<String, NoMemory> {
    let mut told = String::new(alloc);
    for text in &TEXTS {
        if pattern.hit(alloc, text.as_bytes())? {
            let between = if told.is_empty() { "" } else { "," };
            write!(told, "{between}{text}")?;
        }
    }
    Ok(told)
}

fn put_pattern(
    alloc: Global,
    told: &mut String,
    label: &str,
    pattern: &Option<Regex>,
) -> Result<(), NoMemory> {
    if let Some(pattern) = pattern {
        write!(told, " {label}={}", hits(alloc, pattern)?)?;
    }
    Ok(())
}

fn put_patterns(
    alloc: Global,
    told: &mut String,
    label: &str,
    patterns: &List<Regex>,
) -> Result<(), NoMemory> {
    if patterns.is_empty() {
        return Ok(());
    }
    write!(told, " {label}")?;
    let mut between = "=";
    for pattern in patterns.as_slice() {
        write!(told, "{between}{}", hits(alloc, pattern)?)?;
        between = ";";
    }
    Ok(())
}

fn put_range(told: &mut String, numbers: &Numbers) -> Result<(), AllocError> {
    write!(told, " numbers={}-", numbers.start)?;
    if let Some(end) = numbers.end {
        write!(told, "{end}")?;
    }
    write!(told, "/{}", numbers.stride)?;
    for number in numbers.more.as_slice() {
        write!(told, "+{number}")?;
    }
    Ok(())
}

fn put_choice(alloc: Global, told: &mut String, choice: &Choice) -> Result<(), NoMemory> {
    put_pattern(alloc, told, "name", &choice.name)?;
    put_pattern(alloc, told, "not_name", &choice.not_name)?;
    put_patterns(alloc, told, "labels", &choice.labels)?;
    put_patterns(alloc, told, "not_labels", &choice.not_labels)?;
    if let Some(numbers) = &choice.numbers {
        put_range(told, numbers)?;
    }
    put_flag(told, "union", choice.union)?;
    put_pattern(alloc, told, "keep_any", &choice.keep_any)?;
    put_pattern(alloc, told, "keep_setup", &choice.keep_setup)?;
    put_pattern(alloc, told, "keep_cleanup", &choice.keep_cleanup)?;
    Ok(put_flag(told, "only", choice.only.is_some())?)
}

fn put_flag(told: &mut String, label: &str, is: bool) -> Result<(), AllocError> {
    if is { write!(told, " {label}") } else { Ok(()) }
}

/// Appends a text, if it is not the usual one.
fn put_text(told: &mut String, label: &str, text: &str, usual: &str) -> Result<(), AllocError> {
    if text == usual {
        return Ok(());
    }
    write!(told, " {label}={text}")
}

fn put_file(told: &mut String, file: &Option<Name>) -> Result<(), AllocError> {
    match file {
        None => Ok(()),
        Some(file) => write!(told, " spec_file={}", text_of(file.bytes())),
    }
}

/// Appends a number, if it is not the usual one.
fn put_number(told: &mut String, label: &str, number: u64, usual: u64) -> Result<(), AllocError> {
    if number == usual {
        return Ok(());
    }
    write!(told, " {label}={number}")
}

fn put_repeat(told: &mut String, repeat: Repeat) -> Result<(), AllocError> {
    if repeat.mode == Mode::Once && repeat.times == 1 {
        return Ok(());
    }
    write!(told, " repeat={:?}:{}", repeat.mode, repeat.times)
}

fn put_task(told: &mut String, task: Task) -> Result<(), AllocError> {
    if task == Task::Run {
        return Ok(());
    }
    write!(told, " task={task:?}")
}

/// Appends the fields in which the invocation differs from that of an empty command line.
fn put_facts(alloc: Global, told: &mut String, invocation: &Invocation) -> Result<(), NoMemory> {
    put_task(told, invocation.task)?;
    put_wanted(alloc, told, &invocation.wanted)?;
    put_text(told, "config", text_of(invocation.config.bytes()), "")?;
    put_number(told, "timeout", invocation.timeout, 1_500_000_000)?;
    put_file(told, &invocation.spec_file)?;
    put_flag(told, "empty_is_error", invocation.empty_is_error)?;
    Ok(put_flag(told, "rerun", invocation.rerun)?)
}

fn put_wanted(alloc: Global, told: &mut String, wanted: &Wanted) -> Result<(), NoMemory> {
    put_text(told, "dir", text_of(wanted.dir.bytes()), ".")?;
    put_choice(alloc, told, &wanted.choice)?;
    put_number(told, "level", u64::from(wanted.level), 1)?;
    put_repeat(told, wanted.repeat)?;
    Ok(put_flag(told, "stop", wanted.stop_on_failure)?)
}

fn put_fault(told: &mut String, fault: &UsageFault) -> Result<(), AllocError> {
    match fault {
        UsageFault::At { word, kind } => write!(told, "word {word} {kind:?}"),
        UsageFault::NoMemory => told.push_str("no memory"),
    }
}
