ghost use Rattle.std.specs.Prelude.{◌≡◌, ◌++◌, OnOk, length};
ghost use Rattle.ct_groups.specs.Description.{description_of};
ghost use Rattle.ct_groups.specs.GroupsIn.{count_groups, groups_in, needs_of_groups, no_groups, with_description as groups_with, needs_from, group_needs, passes_limits as passes};
ghost use Rattle.ct_groups.specs.Read.{ReadsGroups};

use crate::GroupsFault;
use crate::description::{Description, MOST, Requirement};
use ct_base::{List, Need, NoMemory, split_list};
use std::alloc::Global;

/// The resource groups of a test, with the needs of each.
///
/// Source: CMake manual, cmake-properties(7), RESOURCE_GROUPS.
#[derive(Debug, Drop)]
pub struct Groups {
    needs: List<Need>,
    count: u32,
}

impl Groups {
    /// Makes a value without groups.
    pub fn none(alloc: Global) -> Groups
        ensures { result ≡ no_groups }
    {
        Groups {
            needs: List::new(alloc),
            count: 0,
        }
    }

    /// Reads the value of RESOURCE_GROUPS, or finds its first fault in reading order.
    ///
    /// Source: CMake manual, cmake-properties(7), RESOURCE_GROUPS. The faults and the limits are
    /// this project's choice.
    pub fn parse(alloc: Global, text: &[u8]) -> Result<Groups, GroupsFault>
        ensures { ReadsGroups result (groups_in text.now) }
    {
        let descriptions = split_list(alloc, text)?;
        let mut groups = Groups::none(alloc);
        for text in descriptions.as_slice() {
            let description = Description::read(alloc, text.bytes())?;
            groups = groups.with(alloc, &description)?;
        }
        Ok(groups)
    }

    /// Lends the needs of all groups in order. Groups are numbered from 0.
    pub fn needs(&self) -> &List<Need>
        ensures { result.now ≡ needs_of_groups self.now }
    {
        &self.needs
    }

    /// Returns how many groups there are.
    pub fn count(&self) -> u32
        ensures { result ≡ count_groups self.now }
    {
        self.count
    }

    /// Appends the groups of a description.
    fn with(self, alloc: Global, description: &Description) -> Result<Groups, GroupsFault>
        ensures { ReadsGroups result (groups_with self description.now) }
    {
        if self.passes_limits(description) {
            return Err(GroupsFault::TooMany);
        }
        let Groups { mut needs, count } = self;
        for group in count..count + description.count {
            push_group(
                alloc,
                &mut needs,
                group,
                description.requirements.as_slice(),
            )?;
        }
        Ok(Groups {
            needs,
            count: count + description.count,
        })
    }

    fn passes_limits(&self, description: &Description) -> bool
        ensures { result ≡ passes self.now description.now }
    {
        let groups = u64::from(self.count) + u64::from(description.count);
        let more = u128::from(description.count) * description.requirements.len() as u128;
        groups > MOST || self.needs.len() as u128 + more > u128::from(MOST)
    }
}

/// Appends the needs of a group to those of the groups in front of it.
fn push_group(
    alloc: Global,
    needs: &mut List<Need>,
    group: u32,
    requirements: &[Requirement],
) -> Result<(), NoMemory>
    ensures { OnOk result (needs.new ≡ needs.old ++ group_needs requirements.now group) }
{
    for requirement in requirements {
        needs.push(Need {
            group,
            kind: requirement.kind.copy(alloc)?,
            slots: requirement.slots,
        })?;
    }
    Ok(())
}
