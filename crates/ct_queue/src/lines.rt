ghost use Rattle.std.specs.Prelude.{◌≡◌, ℕ, ◌-◌, ◌<◌, ◌^◌, Bool, IfOk, IfSome, MatchOption, length};
ghost use Rattle.ct_queue.specs.Lines.{AreNumbered, IsNextHeadOfBunch, IsOfNewBunchFrom, NoHeadOfBunchBehind, NoNewBunchFrom, none_bunched, with_bunched};
ghost use Rattle.ct_queue.specs.Marks.{with_mark};

use crate::bunches::Bunches;
use crate::members::Members;
use ct_base::NoMemory;
use std::alloc::Global;
use std::marker::Model;

/// Which places of lines have a member, with two searches for heads, the first member of
/// each line: through the bunches that lines stand in, and through the lines of one bunch.
///
/// Each call but `new` takes no memory, and costs a few logarithms of the number of places.
#[derive(Drop)]
pub(crate) struct Lines {
    members: Members,
    // By bunch, the heads of lines.
    heads: Bunches,
}

impl Model for Lines {
    ghost use Rattle.ct_queue.specs.Lines.{LinesValue};

    ghost Value = { LinesValue };

    ghost use Rattle.ct_queue.specs.Spots.{AreHeadsInBunches};

    ghost view = { λ l. record { lines = l.members.lines; bunches = l.heads.lines; members = l.members.members } };

    ghost invariant = { λ l. AreHeadsInBunches l.members l.heads };
}

impl Lines {
    /// Takes the line and the bunch of each place. No place has a member yet.
    pub fn new(alloc: Global, lines: &[u32], bunches: &[u32]) -> Result<Lines, NoMemory>
        requires few { length lines.now < 2 ^ 32 - 1 }
        requires numbered { AreNumbered lines.now }
        requires bunched { length bunches.now ≡ length lines.now }
        requires bunches { AreNumbered bunches.now }
        ensures { IfOk result (λ value. value ≡ none_bunched lines.now bunches.now) }
    {
        Ok(Lines {
            members: Members::new(alloc, lines)?,
            heads: Bunches::new(alloc, bunches)?,
        })
    }

    /// Adds or removes the member at a place.
    pub fn set(&mut self, place: usize, member: bool)
        requires { place < length self.old.lines }
        ensures { self.new ≡ with_bunched self.old place member }
    {
        let line = self.members.line(place);
        let before = self.members.first_of(line);
        stand_there(&mut self.heads, before, false);
        self.members.set(place, member);
        let after = self.members.first_of(line);
        stand_there(&mut self.heads, after, true);
    }

    /// Finds the least place from `from` on that has the first head of its bunch.
    pub fn new_bunch_from(&self, from: usize) -> Option<usize>
        ensures { MatchOption result (NoNewBunchFrom self.now from) (IsOfNewBunchFrom self.now from) }
    {
        self.heads.first_head_from(from)
    }

    /// Finds the next head, behind a place, of its bunch.
    pub fn next_head(&self, place: usize) -> Option<usize>
        requires { place < length self.now.bunches }
        ensures { MatchOption result (NoHeadOfBunchBehind self.now place) (IsNextHeadOfBunch self.now place) }
    {
        self.heads.next_of(place)
    }
}

/// Adds or removes the head at a place, if one is given.
fn stand_there(heads: &mut Bunches, place: Option<usize>, head: bool)
    requires { IfSome place (λ at. at < length heads.old.lines) }
    ensures bunches { heads.new.lines ≡ heads.old.lines }
    ensures heads { heads.new.members ≡ with_mark heads.old.members place head }
{
    if let Some(at) = place {
        heads.set(at, head);
    }
}
