ghost use Rattle.std.specs.Prelude.{◌≡◌, ℕ, ◌-◌, ◌<◌, ◌^◌, Bool, IfOk, IfSome, MatchOption, length};
ghost use Rattle.ct_queue.specs.Lines.{AreNumbered, IsLeastHeadFrom, IsNextOfLine, NoHeadFrom, NoneOfLineBehind, none_in, with_member};
ghost use Rattle.ct_queue.specs.Marks.{with_mark};

use crate::marks::Marks;
use crate::members::Members;
use ct_base::NoMemory;
use std::alloc::Global;
use std::marker::Model;

/// Which places of bunches have a member, with a search for heads: the first member of each bunch.
///
/// Each call but `new` takes no memory, and costs a few logarithms of the number of places.
#[derive(Drop)]
pub(crate) struct Bunches {
    members: Members,
    // By place, whether it has a head.
    heads: Marks,
}

impl Model for Bunches {
    ghost use Rattle.ct_queue.specs.Lines.{MembersValue};

    ghost Value = { MembersValue };

    ghost use Rattle.ct_queue.specs.Spots.{AreHeads};

    ghost view = { λ b. b.members };

    ghost invariant = { λ b. AreHeads b.members b.heads };
}

impl Bunches {
    /// Takes the bunch of each place. No place has a member yet.
    pub fn new(alloc: Global, bunches: &[u32]) -> Result<Bunches, NoMemory>
        requires few { length bunches.now < 2 ^ 32 - 1 }
        requires numbered { AreNumbered bunches.now }
        ensures { IfOk result (λ value. value ≡ none_in bunches.now) }
    {
        Ok(Bunches {
            members: Members::new(alloc, bunches)?,
            heads: Marks::new(alloc, bunches.len())?,
        })
    }

    /// Adds or removes the member at a place.
    pub fn set(&mut self, place: usize, member: bool)
        requires { place < length self.old.lines }
        ensures { self.new ≡ with_member self.old place member }
    {
        let bunch = self.members.line(place);
        let before = self.members.first_of(bunch);
        mark_there(&mut self.heads, before, false);
        self.members.set(place, member);
        let after = self.members.first_of(bunch);
        mark_there(&mut self.heads, after, true);
    }

    /// Finds the least place from `from` on that has a head.
    pub fn first_head_from(&self, from: usize) -> Option<usize>
        ensures { MatchOption result (NoHeadFrom self.now from) (IsLeastHeadFrom self.now from) }
    {
        self.heads.first_from(from)
    }

    /// Finds the next member, behind a place, of its bunch.
    pub fn next_of(&self, place: usize) -> Option<usize>
        requires { place < length self.now.lines }
        ensures { MatchOption result (NoneOfLineBehind self.now place) (IsNextOfLine self.now place) }
    {
        self.members.next_of(place)
    }
}

/// Marks a place, if one is given, or removes its mark.
fn mark_there(marks: &mut Marks, place: Option<usize>, mark: bool)
    requires { IfSome place (λ at. at < length marks.old) }
    ensures { marks.new ≡ with_mark marks.old place mark }
{
    if let Some(at) = place {
        marks.set(at, mark);
    }
}
