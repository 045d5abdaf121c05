//! Resource groups: what they need, and what is refused.

use crate::entries::text_of;
use crate::row::{Given, RowFault};
use ct_groups::Groups;
use std::alloc::{AllocError, Global};

/// Tells the number of groups of a text and their needs as `group:type:slots`, or its first fault.
pub(crate) fn told(alloc: Global, given: Given<'_>) -> Result<String, RowFault> {
    Ok(match Groups::parse(alloc, given.bytes("groups")?) {
        Ok(groups) => groups_told(alloc, &groups)?,
        Err(fault) => format!(in alloc; "{fault:?}")?,
    })
}

fn groups_told(alloc: Global, groups: &Groups) -> Result<String, AllocError> {
    let mut told = format!(in alloc; "{}", groups.count())?;
    for need in groups.needs().as_slice() {
        let kind = text_of(need.kind.bytes());
        write!(told, " {}:{kind}:{}", need.group, need.slots)?;
    }
    Ok(told)
}
