//! Resource specifications: what they declare, and the first fault of the refused ones.

use crate::entries::text_of;
use crate::row::{Given, RowFault};
use ct_base::{List, Resource};
use ct_spec::{Spec, SpecFault};
use std::alloc::{AllocError, Global};

/// Tells the resources of a text as `kind:id:slots`, or its fault.
pub(crate) fn whole(alloc: Global, given: Given<'_>) -> Result<String, RowFault> {
    Ok(told(alloc, given.bytes("text")?)?)
}

/// Tells the resources or the fault of a value of `local` beside a good version.
pub(crate) fn local(alloc: Global, given: Given<'_>) -> Result<String, RowFault> {
    let local = given.text("local")?;
    let text = format!(in alloc; r#"{{"version":{{"major":1,"minor":0}},"local":{local}}}"#)?;
    Ok(told(alloc, text.as_bytes())?)
}

fn told(alloc: Global, text: &[u8]) -> Result<String, AllocError> {
    match Spec::parse(alloc, text) {
        Ok(spec) => resources_told(alloc, spec.resources()),
        Err(fault) => fault_told(alloc, &fault),
    }
}

fn resources_told(alloc: Global, resources: &List<Resource>) -> Result<String, AllocError> {
    let mut told = String::new(alloc);
    for resource in resources.as_slice() {
        let between = if told.is_empty() { "" } else { " " };
        let kind = text_of(resource.kind.bytes());
        let id = text_of(resource.id.bytes());
        write!(told, "{between}{kind}:{id}:{}", resource.slots)?;
    }
    Ok(told)
}

fn fault_told(alloc: Global, fault: &SpecFault) -> Result<String, AllocError> {
    match fault {
        SpecFault::NotJson => format!(in alloc; "NotJson"),
        SpecFault::BadVersion => format!(in alloc; "BadVersion"),
        SpecFault::BadLocal => format!(in alloc; "BadLocal"),
        SpecFault::BadKind { kind } => { format!(in alloc; "BadKind {}", text_of(kind.bytes())) }
        SpecFault::BadId { kind, entry } => {
            format!(in alloc; "BadId {} {entry}", text_of(kind.bytes()))
        }
        SpecFault::TwiceId { kind, entry } => {
            format!(in alloc; "TwiceId {} {entry}", text_of(kind.bytes()))
        }
        SpecFault::BadSlots { kind, entry } => {
            format!(in alloc; "BadSlots {} {entry}", text_of(kind.bytes()))
        }
        SpecFault::TooMany => format!(in alloc; "TooMany"),
        SpecFault::NoMemory => format!(in alloc; "NoMemory"),
    }
}
