//! The ready tests of a run, as the core looks for them: behind each place, by bunches, and by the lines of a bunch.

ghost use Rattle.std.specs.Prelude.{◌≡◌, ◌<◌, ◌∷◌, [], IfOk, length};
ghost use Rattle.ct_queue.specs.Lines.{own_lines};
ghost use Rattle.ct_queue.specs.Ready.{none_out};

use ct_base::{List, NoMemory};
use ct_queue::Ready;
use std::alloc::Global;
use std::process::Abort;
use std::test::Fail;

/// Returns a place, or `None` where the word is no number.
fn place(word: &str) -> Option<u32> {
    word.parse().ok()
}

/// Compares the least ready place behind each place, or from the `front`, with what a row says.
fn find_as_told(rt: &impl Abort, ready: &Ready, row: &str) {
    for cell in row.split(", ") {
        let (behind, found) = cell.split_once(" finds ").unwrap_or((cell, ""));
        assert!(rt; ready.after(place(behind)) == place(found), "{row}");
    }
}

/// Compares the first head of a new bunch behind each place, or from the `front`, with what a row says.
fn find_bunches_as_told(rt: &impl Abort, ready: &Ready, row: &str) {
    for cell in row.split(", ") {
        let (behind, found) = cell.split_once(" finds ").unwrap_or((cell, ""));
        assert!(rt;
            ready.new_bunch_after(place(behind)) == place(found),
            "{row}"
        );
    }
}

/// Returns whether two places have the only two heads of a bunch, in this order.
fn are_heads(ready: &Ready, first: u32, last: u32) -> bool
    requires first { first < length ready.now.order }
    requires last { last < length ready.now.order }
{
    ready.next_head(first) == Some(last) && ready.next_head(last) == None
}

/// Lists these numbers.
fn list_of(alloc: Global, numbers: &[u32]) -> Result<List<u32>, NoMemory>
    ensures { IfOk result (λ list. list ≡ numbers.now) }
{
    Ok(List::from_vec(Vec::from_slice(alloc, numbers)?))
}

/// Makes the set of test 2, and behind it test 1, which waits for one test.
fn two_tests(alloc: Global) -> Result<Ready, NoMemory>
    ensures { IfOk result (λ ready.
        ready ≡ none_out (2 ∷ 1 ∷ []) (0 ∷ 1 ∷ []) (own_lines 2) (own_lines 2)) }
{
    let order = list_of(alloc, &[2, 1])?;
    let counts = list_of(alloc, &[0, 1])?;
    Ready::new(alloc, &order, &counts)
}

/// Makes the set of tests 5 to 1, in a bunch of two lines and one of two others.
fn five_tests(alloc: Global) -> Result<Ready, NoMemory>
    ensures { IfOk result (λ ready. ready
        ≡ none_out (5 ∷ 4 ∷ 3 ∷ 2 ∷ 1 ∷ []) (0 ∷ 0 ∷ 0 ∷ 0 ∷ 0 ∷ [])
        (0 ∷ 1 ∷ 2 ∷ 3 ∷ 2 ∷ []) (0 ∷ 1 ∷ 0 ∷ 1 ∷ 0 ∷ [])) }
{
    let order = list_of(alloc, &[5, 4, 3, 2, 1])?;
    let counts = list_of(alloc, &[0, 0, 0, 0, 0])?;
    let lines = list_of(alloc, &[0, 1, 2, 3, 2])?;
    let bunches = list_of(alloc, &[0, 1, 0, 1, 0])?;
    Ready::in_lines(alloc, &order, &counts, &lines, &bunches)
}

#[test]
fn finds_the_first_ready_test_behind_a_place(rt: HostRuntime) -> Result<(), Fail> {
    let mut ready = two_tests(rt.alloc())?;
    find_as_told(&rt, &ready, "front finds 0, 0 finds none");
    assert!(rt; ready.is_ready(2) && !ready.is_ready(1));
    ready.out(2);
    find_as_told(&rt, &ready, "front finds none, 0 finds none");
    ready.lower(1);
    find_as_told(&rt, &ready, "front finds 1, 0 finds 1");
    ready.back(2);
    find_as_told(
        &rt,
        &ready,
        "front finds 0, 0 finds 1, 1 finds none, 4294967295 finds none",
    );
    Ok(())
}

#[test]
fn finds_the_first_ready_test_of_each_bunch_and_of_its_lines(rt: HostRuntime) -> Result<(), Fail> {
    let mut ready = five_tests(rt.alloc())?;
    find_bunches_as_told(&rt, &ready, "front finds 0, 0 finds 1, 1 finds none");
    assert!(rt; are_heads(&ready, 0, 2));
    assert!(rt; are_heads(&ready, 1, 3));
    ready.out(5);
    find_bunches_as_told(&rt, &ready, "front finds 1, 1 finds 2, 2 finds none");
    ready.out(3);
    ready.back(5);
    find_bunches_as_told(&rt, &ready, "front finds 0, 0 finds 1, 1 finds none");
    assert!(rt; are_heads(&ready, 0, 4));
    Ok(())
}
