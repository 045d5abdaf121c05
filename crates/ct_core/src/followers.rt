ghost use Rattle.std.specs.Prelude.{◌≡◌, ◌+◌, ◌<◌, [], IfOk, OnOk, length, map, take, vec_len};
ghost use Rattle.ct_history.specs.Plan.{AllAscend, IsAscendingFrom};
ghost use Rattle.ct_core.specs.Followers.{followers_among, followers_of};

use ct_base::{List, NoMemory};
use ct_history::{PlanTest, place_of};
use std::alloc::Global;

/// Lists for each test, by its place, the tests that wait for it.
pub(crate) fn followers(alloc: Global, tests: &[PlanTest]) -> Result<Vec<List<u32>>, NoMemory>
    requires numbers { IsAscendingFrom 1 (map (λ t. t.number) tests.now) }
    requires before { AllAscend (λ t. t.before) tests.now }
    ensures { IfOk result (λ followers. followers.items ≡ map (λ t. followers_of tests.now t.number) tests.now) }
{
    let mut followers = none_each(alloc, tests)?;
    for at in 0..tests.len() {
        follow(tests, at, &mut followers)?;
    }
    Ok(followers)
}

/// Makes an empty list for each test, with room for all that wait for it.
fn none_each(alloc: Global, tests: &[PlanTest]) -> Result<Vec<List<u32>>, NoMemory>
    requires { IsAscendingFrom 1 (map (λ t. t.number) tests.now) }
    ensures { IfOk result (λ followers. followers.items ≡ followers_among [] tests.now) }
{
    let rooms = rooms(alloc, tests)?;
    let mut followers = Vec::new(alloc);
    for at in 0..tests.len() {
        let room = Vec::with_capacity(alloc, rooms[at] as usize)?;
        followers.push(List::from_vec(room))?;
    }
    Ok(followers)
}

/// Counts, by the place of each test, the tests that wait for it.
fn rooms(alloc: Global, tests: &[PlanTest]) -> Result<Vec<u32>, NoMemory>
    requires { IsAscendingFrom 1 (map (λ t. t.number) tests.now) }
    ensures { IfOk result (λ rooms. vec_len rooms ≡ length tests.now) }
{
    let mut rooms = vec![in alloc; 0; tests.len()]?;
    for test in tests {
        count(tests, test.before.as_slice(), &mut rooms);
    }
    Ok(rooms)
}

/// Counts one test more for each of these predecessors.
fn count(tests: &[PlanTest], predecessors: &[u32], rooms: &mut Vec<u32>)
    requires numbers { IsAscendingFrom 1 (map (λ t. t.number) tests.now) }
    requires each { vec_len rooms.old ≡ length tests.now }
    ensures { vec_len rooms.new ≡ vec_len rooms.old }
{
    for predecessor in predecessors {
        if let Some(place) = place_of(tests, *predecessor) {
            rooms[place] = rooms[place].saturating_add(1);
        }
    }
}

/// Appends the test at a place to the list of each test that it waits for.
fn follow(tests: &[PlanTest], at: usize, followers: &mut Vec<List<u32>>) -> Result<(), NoMemory>
    requires numbers { IsAscendingFrom 1 (map (λ t. t.number) tests.now) }
    requires before { AllAscend (λ t. t.before) tests.now }
    requires there { at < length tests.now }
    requires earlier { followers.old.items ≡ followers_among (take at tests.now) tests.now }
    ensures { OnOk result (followers.new.items ≡ followers_among (take (at + 1) tests.now) tests.now) }
{
    let test = &tests[at];
    if test.disabled {
        return Ok(());
    }
    for predecessor in test.before.as_slice() {
        if let Some(place) = place_of(tests, *predecessor) {
            followers[place].push(test.number)?;
        }
    }
    Ok(())
}
