//! The properties of a test: each key, and what is refused.
//!
//! A property is `KEY=value`, and the properties are parted by `&`. The key `DIR` has the labels of
//! the test's folder, which is `b`.

use crate::entries::text_of;
use crate::row::{Given, RowFault};
use ct_base::{List, Name, NoMemory, Pair, TestDef, split_list};
use ct_props::{PropFault, Props};
use std::alloc::{AllocError, Global};

/// Tells the fields in which properties differ from those of a test without any, or the key that is
/// refused.
pub(crate) fn told(alloc: Global, given: Given<'_>) -> Result<String, RowFault> {
    let mut told = String::new(alloc);
    match props_of(alloc, given.text("properties")?) {
        Ok(props) => put_fields(&mut told, &props)?,
        Err(fault) => put_fault(&mut told, &fault)?,
    }
    Ok(String::from_str(alloc, told.trim_start())?)
}

/// Appends a list of names, if it is not empty.
fn put_names(told: &mut String, label: &str, names: &List<Name>) -> Result<(), AllocError> {
    if names.is_empty() {
        return Ok(());
    }
    write!(told, " {label}")?;
    let mut between = "=";
    for name in names.as_slice() {
        write!(told, "{between}{}", text_of(name.bytes()))?;
        between = ",";
    }
    Ok(())
}

/// Appends a count, if it is not the usual one.
fn put_count(told: &mut String, label: &str, count: u64, usual: u64) -> Result<(), AllocError> {
    if count == usual {
        return Ok(());
    }
    write!(told, " {label}={count}")
}

fn put_flag(told: &mut String, label: &str, is: bool) -> Result<(), AllocError> {
    if is { write!(told, " {label}") } else { Ok(()) }
}

fn put_micros(told: &mut String, label: &str, micros: Option<u64>) -> Result<(), AllocError> {
    match micros {
        None => Ok(()),
        Some(micros) => write!(told, " {label}={micros}"),
    }
}

fn put_code(told: &mut String, code: Option<i32>) -> Result<(), AllocError> {
    match code {
        None => Ok(()),
        Some(code) => write!(told, " skip_code={code}"),
    }
}

fn put_folder(told: &mut String, folder: &str) -> Result<(), AllocError> {
    if folder == "b" {
        Ok(())
    } else {
        write!(told, " dir={folder}")
    }
}

/// Appends the fields that differ from those of a test without properties.
fn put_fields(told: &mut String, props: &Props) -> Result<(), AllocError> {
    put_names(told, "depends", &props.depends)?;
    put_names(told, "setup", &props.setup)?;
    put_names(told, "required", &props.required)?;
    put_names(told, "cleanup", &props.cleanup)?;
    put_flag(told, "disabled", props.disabled)?;
    put_count(told, "processors", u64::from(props.processors), 1)?;
    put_names(told, "locks", &props.locks)?;
    put_names(told, "shared", &props.shared)?;
    put_flag(told, "serial", props.serial)?;
    put_count(told, "fail", props.fail.len() as u64, 0)?;
    put_count(told, "pass", props.pass.len() as u64, 0)?;
    put_count(told, "skip", props.skip.len() as u64, 0)?;
    put_code(told, props.skip_code)?;
    put_flag(told, "will_fail", props.will_fail)?;
    put_micros(told, "timeout", props.timeout)?;
    put_micros(told, "cost", props.cost)?;
    put_names(told, "environment", &props.environment)?;
    put_names(told, "modification", &props.modification)?;
    put_folder(told, text_of(props.working_dir.bytes()))?;
    put_names(told, "files", &props.required_files)?;
    put_names(told, "labels", &props.labels)?;
    put_count(told, "groups", u64::from(props.groups.count()), 0)
}

fn put_fault(told: &mut String, fault: &PropFault) -> Result<(), AllocError> {
    match fault {
        PropFault::Bad { key, kind } => write!(told, "bad {} {kind:?}", text_of(key.bytes())),
        PropFault::NoMemory => told.push_str("no memory"),
    }
}

/// Reads the properties of a row, or returns why they are refused.
pub(crate) fn props_of(alloc: Global, text: &str) -> Result<Props, PropFault> {
    Props::of(alloc, &def_of(alloc, text)?)
}

fn def_of(alloc: Global, text: &str) -> Result<TestDef, NoMemory> {
    Ok(TestDef {
        name: Name::of(alloc, b"t")?,
        command: List::new(alloc),
        dir: Name::of(alloc, b"b")?,
        props: props_in(alloc, text)?,
        dir_labels: labels_in(alloc, text)?,
    })
}

fn props_in(alloc: Global, text: &str) -> Result<List<Pair>, NoMemory> {
    let mut props = List::new(alloc);
    for prop in text.split('&') {
        if let Some((key, value)) = prop.split_once('=') {
            if key != "DIR" {
                props.push(pair(alloc, key, value)?)?;
            }
        }
    }
    Ok(props)
}

fn labels_in(alloc: Global, text: &str) -> Result<List<Name>, NoMemory> {
    for prop in text.split('&') {
        if let Some(labels) = prop.strip_prefix("DIR=") {
            return split_list(alloc, labels.as_bytes());
        }
    }
    Ok(List::new(alloc))
}

pub(crate) fn pair(alloc: Global, name: &str, value: &str) -> Result<Pair, NoMemory> {
    Ok(Pair {
        name: Name::of(alloc, name.as_bytes())?,
        value: Name::of(alloc, value.as_bytes())?,
    })
}
