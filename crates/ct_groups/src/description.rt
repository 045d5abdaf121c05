ghost use Rattle.std.specs.Prelude.{◌≡◌};
ghost use Rattle.ct_groups.specs.Description.{requirement_at, requirement_of, requirements_of, slots_asked as slots_by, checked_count as count_by, count_in as count_read, first_number as number_in_front, required as without_count, described, description_of};
ghost use Rattle.ct_groups.specs.Read.{ReadsGroups};

use crate::GroupsFault;
use crate::pieces::pieces_of;
use ct_base::{List, MOST_SLOTS, Name, first_place, is_numeral, is_type_name, number};
use std::alloc::Global;

/// How many groups a test may have, and how many needs.
///
/// Source: this project's choice.
pub const MOST: u64 = 64;

/// What each group of a description asks for: a number of slots on one resource of a type.
#[derive(Debug, Drop)]
pub struct Requirement {
    pub kind: Name,
    pub slots: u32,
}

/// A number of groups with the same requirements.
#[derive(Debug, Drop)]
pub struct Description {
    pub count: u32,
    pub requirements: List<Requirement>,
}

impl Description {
    /// Reads a description, or finds its first fault from the left.
    ///
    /// Source: CMake manual, cmake-properties(7), RESOURCE_GROUPS.
    pub fn read(alloc: Global, text: &[u8]) -> Result<Description, GroupsFault>
        ensures { ReadsGroups result (description_of text.now) }
    {
        let pieces = pieces_of(alloc, text)?;
        let count = count_in(first_number(pieces.as_slice()))?;
        let requirements = requirements_in(alloc, required(pieces.as_slice()))?;
        Ok(Description {
            count,
            requirements,
        })
    }
}

/// Returns the number in the first piece, if that piece is digits alone.
fn first_number(pieces: &[Name]) -> Option<u64>
    ensures { result ≡ number_in_front pieces.now }
{
    match pieces {
        [] => None,
        [first, ..] => number(first.bytes()),
    }
}

/// Lends the pieces that are requirements: all but a count in front.
fn required(pieces: &[Name]) -> &[Name]
    ensures { result.now ≡ without_count pieces.now }
{
    match pieces {
        [] => pieces,
        [first, rest @ ..] => {
            if is_numeral(first.bytes()) {
                rest
            } else {
                pieces
            }
        }
    }
}

fn count_in(first: Option<u64>) -> Result<u32, GroupsFault>
    ensures { ReadsGroups result (count_read first) }
{
    match first {
        None => Ok(1),
        Some(count) => checked_count(count),
    }
}

fn checked_count(count: u64) -> Result<u32, GroupsFault>
    ensures { ReadsGroups result (count_by count) }
{
    if count == 0 {
        return Err(GroupsFault::BadCount);
    }
    if count > MOST {
        return Err(GroupsFault::TooMany);
    }
    Ok(count as u32)
}

fn requirements_in(alloc: Global, pieces: &[Name]) -> Result<List<Requirement>, GroupsFault>
    ensures { ReadsGroups result (requirements_of pieces.now) }
{
    let mut requirements = List::new(alloc);
    for piece in pieces {
        requirements.push(requirement_in(alloc, piece.bytes())?)?;
    }
    Ok(requirements)
}

fn requirement_in(alloc: Global, piece: &[u8]) -> Result<Requirement, GroupsFault>
    ensures { ReadsGroups result (requirement_of piece.now) }
{
    let Some(at) = first_place(piece, b':') else {
        return Err(GroupsFault::NoColon);
    };
    let (kind, slots) = (&piece[..at], &piece[at + 1..]);
    if !is_type_name(kind) {
        return Err(GroupsFault::BadType);
    }
    let slots = slots_of(number(slots))?;
    let kind = Name::of(alloc, kind)?;
    Ok(Requirement { kind, slots })
}

fn slots_of(number: Option<u64>) -> Result<u32, GroupsFault>
    ensures { ReadsGroups result (slots_by number) }
{
    match number {
        None => Err(GroupsFault::BadCount),
        Some(slots) => {
            if slots == 0 {
                return Err(GroupsFault::ZeroSlots);
            }
            if slots > MOST_SLOTS {
                return Err(GroupsFault::TooMany);
            }
            Ok(slots as u32)
        }
    }
}
