ghost use Rattle.std.specs.Prelude.{◌≡◌, ◌≢◌, ℕ, ◌-◌, ◌<◌, ◌^◌, AllPairs, IfOk, MatchOption, length, slice_index};
ghost use Rattle.ct_queue.specs.Lines.{AreNumbered, IsHeadOfLine, IsNextOfLine, NoneOfLine, NoneOfLineBehind, none_in, with_member};
ghost use Rattle.ct_queue.specs.Spots.{AreFoundBySpot, IsTable, first_spot, size_of, spot_of};

use crate::marks::Marks;
use ct_base::NoMemory;
use std::alloc::Global;
use std::marker::Model;

/// Which places have a member, with a search for the first member of a line of places.
///
/// Each place has a spot. The spots of a line lie side by side, in the order of the line's places.
#[derive(Drop)]
pub(crate) struct Members {
    /// By place, its line.
    lines: Vec<u32>,
    /// By line, its first spot.
    firsts: Vec<u32>,
    /// By place, its spot.
    spots: Vec<u32>,
    /// By spot, its place.
    places: Vec<u32>,
    /// By spot, whether its place has a member.
    marks: Marks,
}

impl Model for Members {
    ghost use Rattle.ct_queue.specs.Lines.{MembersValue};

    ghost Value = { MembersValue };

    ghost use Rattle.ct_queue.specs.Spots.{AreOnSpots, members_value};

    ghost view = { λ m. members_value m.lines.items m.spots.items m.marks };

    ghost invariant = { λ m. AreOnSpots m.lines.items m.firsts.items m.spots.items m.places.items m.marks };
}

impl Members {
    /// Takes the line of each place. No place has a member yet.
    pub fn new(alloc: Global, lines: &[u32]) -> Result<Members, NoMemory>
        requires few { length lines.now < 2 ^ 32 - 1 }
        requires numbered { AreNumbered lines.now }
        ensures { IfOk result (λ members. members ≡ none_in lines.now) }
    {
        let firsts = first_spots(alloc, lines)?;
        let spots = spots(alloc, lines, firsts.as_slice())?;
        let places = places(alloc, spots.as_slice())?;
        let marks = Marks::new(alloc, lines.len())?;
        let copy = lines.to_vec(alloc)?;
        Ok(Members {
            lines: copy,
            firsts,
            spots,
            places,
            marks,
        })
    }

    /// Returns the line of a place.
    pub fn line(&self, place: usize) -> usize
        requires { place < length self.now.lines }
        ensures is { result ≡ slice_index self.now.lines place }
        ensures within { result < length self.now.lines }
    {
        self.lines[place] as usize
    }

    /// Finds the first member of a line.
    pub fn first_of(&self, line: usize) -> Option<usize>
        requires { line < length self.now.lines }
        ensures { MatchOption result (NoneOfLine self.now line) (IsHeadOfLine self.now line) }
    {
        let spot = self.marks.first_from(self.firsts[line] as usize)?;
        let place = self.places[spot] as usize;
        if self.lines[place] as usize == line {
            Some(place)
        } else {
            None
        }
    }

    /// Finds the next member, behind a place, of its line.
    pub fn next_of(&self, place: usize) -> Option<usize>
        requires { place < length self.now.lines }
        ensures { MatchOption result (NoneOfLineBehind self.now place) (IsNextOfLine self.now place) }
    {
        let spot = self.marks.first_from(self.spots[place] as usize + 1)?;
        let next = self.places[spot] as usize;
        if self.lines[next] == self.lines[place] {
            Some(next)
        } else {
            None
        }
    }

    /// Adds or removes the member at a place.
    pub fn set(&mut self, place: usize, member: bool)
        requires { place < length self.old.lines }
        ensures { self.new ≡ with_member self.old place member }
    {
        self.marks.set(self.spots[place] as usize, member);
    }
}

/// Lists the first spot of each line.
fn first_spots(alloc: Global, lines: &[u32]) -> Result<Vec<u32>, NoMemory>
    requires few { length lines.now < 2 ^ 32 - 1 }
    requires numbered { AreNumbered lines.now }
    ensures { IfOk result (λ firsts. IsTable (first_spot lines.now) (length lines.now) firsts.items) }
{
    let mut firsts = sizes(alloc, lines)?;
    let mut before = 0;
    for line in 0..firsts.len() {
        let size = firsts[line];
        firsts[line] = before;
        before += size;
    }
    Ok(firsts)
}

/// Counts the places of each line.
fn sizes(alloc: Global, lines: &[u32]) -> Result<Vec<u32>, NoMemory>
    requires few { length lines.now < 2 ^ 32 - 1 }
    requires numbered { AreNumbered lines.now }
    ensures { IfOk result (λ sizes. IsTable (size_of lines.now) (length lines.now) sizes.items) }
{
    let mut sizes = vec![in alloc; 0; lines.len()]?;
    for line in lines {
        sizes[*line as usize] += 1;
    }
    Ok(sizes)
}

/// Lists the spot of each place.
fn spots(alloc: Global, lines: &[u32], firsts: &[u32]) -> Result<Vec<u32>, NoMemory>
    requires few { length lines.now < 2 ^ 32 - 1 }
    requires numbered { AreNumbered lines.now }
    requires firsts { IsTable (first_spot lines.now) (length lines.now) firsts.now }
    ensures { IfOk result (λ spots. IsTable (spot_of lines.now) (length lines.now) spots.items) }
{
    let mut next = firsts.to_vec(alloc)?;
    let mut spots = Vec::new(alloc);
    for line in lines {
        let at = *line as usize;
        spots.push(next[at])?;
        next[at] += 1;
    }
    Ok(spots)
}

/// Lists the place of each spot.
fn places(alloc: Global, spots: &[u32]) -> Result<Vec<u32>, NoMemory>
    requires few { length spots.now < 2 ^ 32 - 1 }
    requires within { AreNumbered spots.now }
    requires apart { AllPairs (λ one other. one ≢ other) spots.now }
    ensures { IfOk result (λ places. AreFoundBySpot spots.now places.items) }
{
    let mut places = vec![in alloc; 0; spots.len()]?;
    for (place, spot) in spots.iter().enumerate() {
        places[*spot as usize] = place as u32;
    }
    Ok(places)
}
