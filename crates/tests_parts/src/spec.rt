//! Resource specifications at their limits, and the groups of a test without any.

use crate::rows::is_told;
use ct_groups::Groups;
use ct_spec::{Spec, SpecFault};
use std::alloc::{AllocError, Global};
use std::test::Fail;

#[test]
fn has_no_groups_at_first(rt: HostRuntime) {
    let groups = Groups::none(rt.alloc());
    assert_eq!(rt; groups.count(), 0);
    assert!(rt; groups.needs().is_empty());
}

/// Makes a specification with `count` resources of one kind.
fn many(alloc: Global, count: u32) -> Result<String, AllocError> {
    let mut text = format!(in alloc; r#"{{"version":{{"major":1,"minor":0}},"local":[{{"a":["#)?;
    for id in 1..count {
        write!(text, r#"{{"id":"{id}"}},"#)?;
    }
    text.push_str(r#"{"id":"0"}]}]}"#)?;
    Ok(text)
}

/// Counts the resources that are read from a specification with `count` resources; 0 if it is
/// refused.
fn many_read(alloc: Global, count: u32) -> Result<usize, AllocError> {
    let text = many(alloc, count)?;
    Ok(match Spec::parse(alloc, text.as_bytes()) {
        Ok(spec) => spec.resources().len(),
        Err(_) => 0,
    })
}

#[test]
fn reads_up_to_4096_resources(rt: HostRuntime) -> Result<(), Fail> {
    assert_eq!(rt; many_read(rt.alloc(), 4_096)?, 4_096);
    assert_eq!(rt; many_read(rt.alloc(), 4_097)?, 0);
    Ok(())
}

/// Makes a specification whose object holds `depth` arrays inside one another.
fn nested(alloc: Global, depth: u32) -> Result<String, AllocError> {
    let mut text = format!(in alloc; r#"{{"version":{{"major":1,"minor":0}},"local":[{{}}],"x":"#)?;
    for _ in 0..depth {
        text.push_str("[")?;
    }
    for _ in 0..depth {
        text.push_str("]")?;
    }
    text.push_str("}")?;
    Ok(text)
}

/// Tells how a text is refused; nothing if it is read.
fn told(text: &str, alloc: Global) -> &'static str {
    match Spec::parse(alloc, text.as_bytes()) {
        Ok(_) => "",
        Err(SpecFault::NotJson) => "NotJson",
        Err(_) => "another fault",
    }
}

#[test]
fn reads_126_arrays_inside_one_another(rt: HostRuntime) -> Result<(), Fail> {
    for (depth, want) in [(126, ""), (127, "NotJson")] {
        let text = nested(rt.alloc(), depth)?;
        let told = told(text.as_str(), rt.alloc());
        is_told(&rt, "arrays inside one another", told, want);
    }
    Ok(())
}
