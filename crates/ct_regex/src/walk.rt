ghost use Rattle.std.specs.Prelude.{◌≡◌, ◌+◌, ◌&&◌, ◌≤◌, ◌<◌, Bool, false, [], ◌∷◌, ◌++◌, map, reverse, length, slice_index_or, slice_set, vec_len, vec_capacity};
ghost use Rattle.ct_regex.specs.Tree.{takes, has_byte};
ghost use Rattle.ct_regex.specs.Meaning.{byte_test};
ghost use Rattle.ct_regex.specs.Walk.{Walk, merged as merged_flow, no_flow, all_flow, entered as entered_of, left_of, around, with_left, step_of, behind_one, behind_step, walked};
ghost use Rattle.ct_regex.specs.Stand.{a_stand, Comes};

use crate::tree::{ByteTest, Span};

/// One step of the walk over a pattern. A number is the place of the step's mark.
#[derive(Drop)]
pub enum Step {
    /// `^`: the mark says that nothing was read yet.
    Start(usize),
    /// `$`.
    End,
    /// `.`, any byte: the mark says that a match has come behind it with the last byte.
    Any(usize),
    /// That byte, with the same mark.
    Same(usize, u8),
    /// A byte that passes a test, with the same mark.
    Tested(usize, ByteTest),
    /// Opens a choice.
    Fork,
    /// Opens a choice of which one branch is empty.
    Maybe,
    /// Ends a branch.
    Or,
    /// Ends a choice.
    Join,
    /// Opens a part that may be repeated: the mark says that a round has ended with the last byte.
    Loop(usize),
    /// Ends a round of a part that may be repeated.
    Back(usize),
}

/// Whether a match has come to a point of the pattern.
#[derive(Clone, Copy)]
pub struct Flow {
    /// In front of the byte that is read.
    pub now: bool,
    /// Behind that byte, where more bytes follow.
    pub next: bool,
    /// Behind that byte, where the text ends.
    pub last: bool,
}

/// A choice that is open: what enters its branches, and what has left them.
#[derive(Clone, Copy)]
pub struct Branches {
    pub entered: Flow,
    pub left: Flow,
}

/// Walks over the pattern once for each byte, and updates the marks. Returns whether a match ends behind
/// the last byte if the text does, or `None` once a match has ended in front of a byte. `ends` says
/// whether a match ends in front of the first byte if the text does.
pub(crate) fn walk_on(
    steps: &[Step],
    bytes: &[u8],
    ends: bool,
    marks: &mut [bool],
    opened: &mut Vec<Branches>,
) -> Option<bool>
    requires room { length steps.now ≤ vec_capacity opened.old }
    ensures comes { Comes (map step_of steps.now) (a_stand marks.old ends)
        bytes.now marks.new result }
    ensures room { vec_capacity opened.new ≡ vec_capacity opened.old }
{
    let mut last = ends;
    for i in 0..bytes.len() {
        let flow = walk(steps, bytes[i], marks, opened);
        if flow.now {
            return None;
        }
        last = flow.last;
    }
    Some(last)
}

/// Walks over the pattern once for a byte: updates the marks, and returns the flow that leaves it.
fn walk(steps: &[Step], byte: u8, marks: &mut [bool], opened: &mut Vec<Branches>) -> Flow
    requires room { length steps.now ≤ vec_capacity opened.old }
    ensures flow { result ≡ (walked (map step_of steps.now) byte
        (record { flow = all_flow; opened = []; marks = marks.old })).flow }
    ensures marks { marks.new ≡ (walked (map step_of steps.now) byte
        (record { flow = all_flow; opened = []; marks = marks.old })).marks }
    ensures room { vec_capacity opened.new ≡ vec_capacity opened.old }
{
    opened.clear();
    let mut flow = Flow {
        now: true,
        next: true,
        last: true,
    };
    for i in 0..steps.len() {
        flow = take(&steps[i], byte, flow, marks, opened);
    }
    flow
}

fn take(step: &Step, byte: u8, flow: Flow, marks: &mut [bool], opened: &mut Vec<Branches>) -> Flow
    requires room { vec_len opened.old < vec_capacity opened.old }
    ensures walk { record { flow = result; opened = reverse opened.new.items; marks = marks.new }
        ≡ behind_step (step_of step.now) byte
        (record { flow = flow; opened = reverse opened.old.items; marks = marks.old }) }
    ensures len { vec_len opened.new ≤ vec_len opened.old + 1 }
    ensures room { vec_capacity opened.new ≡ vec_capacity opened.old }
{
    match step {
        Step::Start(at) => at_start(flow, marks, *at),
        Step::End => Flow {
            now: false,
            next: false,
            last: flow.last,
        },
        Step::Any(at) => at_one(*at, true, flow, marks),
        Step::Same(at, wanted) => at_one(*at, byte == *wanted, flow, marks),
        Step::Tested(at, test) => at_one(*at, is_taken(test, byte), flow, marks),
        Step::Fork => open(opened, flow, nothing()),
        Step::Maybe => open(opened, flow, flow),
        Step::Or => next_branch(opened, flow),
        Step::Join => left(opened),
        Step::Loop(at) => Flow {
            now: flow.now || mark_at(marks, *at),
            next: flow.next,
            last: flow.last,
        },
        Step::Back(at) => {
            set_mark(marks, *at, flow.next);
            flow
        }
    }
}

/// Takes a byte or not. Whether the atom takes it is asked in any case, since a branch on the flow would
/// often be predicted wrong.
fn at_one(at: usize, is_taken: bool, flow: Flow, marks: &mut [bool]) -> Flow
    ensures flow { result ≡ behind_one (slice_index_or marks.old at false) (flow.now && is_taken) }
    ensures marks { marks.new ≡ slice_set marks.old at (flow.now && is_taken) }
{
    let comes = flow.now && is_taken;
    let came = exchange(marks, at, comes);
    behind(came, comes)
}

fn at_start(flow: Flow, marks: &mut [bool], at: usize) -> Flow
    ensures flow { result ≡ (record {
      now = flow.now && slice_index_or marks.old at false;
      next = false;
      last = false;
    }) }
    ensures marks { marks.new ≡ slice_set marks.old at false }
{
    let is_first = exchange(marks, at, false);
    Flow {
        now: flow.now && is_first,
        next: false,
        last: false,
    }
}

/// Returns the flow behind an atom of one byte, from its mark and from the byte.
fn behind(came: bool, comes: bool) -> Flow
    ensures { result ≡ behind_one came comes }
{
    Flow {
        now: came,
        next: comes,
        last: comes,
    }
}

fn nothing() -> Flow
    ensures { result ≡ no_flow }
{
    Flow {
        now: false,
        next: false,
        last: false,
    }
}

/// Opens a choice that the flow `left` has left already.
fn open(opened: &mut Vec<Branches>, entered: Flow, left: Flow) -> Flow
    requires room { vec_len opened.old < vec_capacity opened.old }
    ensures flow { result ≡ entered }
    ensures opened { reverse opened.new.items
        ≡ record { entered = entered; left = left } ∷ reverse opened.old.items }
    ensures len { vec_len opened.new ≡ vec_len opened.old + 1 }
    ensures room { vec_capacity opened.new ≡ vec_capacity opened.old }
{
    opened.push_reserved(Branches { entered, left });
    entered
}

fn mark_at(marks: &[bool], at: usize) -> bool
    ensures { result ≡ slice_index_or marks.now at false }
{
    match marks.get(at) {
        Some(mark) => *mark,
        None => false,
    }
}

/// Sets a mark, and returns what it was.
fn exchange(marks: &mut [bool], at: usize, mark: bool) -> bool
    ensures was { result ≡ slice_index_or marks.old at false }
    ensures marks { marks.new ≡ slice_set marks.old at mark }
{
    if at >= marks.len() {
        return false;
    }
    let was = marks[at];
    marks[at] = mark;
    was
}

fn set_mark(marks: &mut [bool], at: usize, mark: bool)
    ensures { marks.new ≡ slice_set marks.old at mark }
{
    if at < marks.len() {
        marks[at] = mark;
    }
}

/// Ends a branch of the innermost choice, and enters the next one.
fn next_branch(opened: &mut Vec<Branches>, flow: Flow) -> Flow
    requires room { vec_len opened.old ≤ vec_capacity opened.old }
    ensures flow { result ≡ entered_of (reverse opened.old.items) }
    ensures opened { reverse opened.new.items ≡ with_left flow (reverse opened.old.items) }
    ensures len { vec_len opened.new ≡ vec_len opened.old }
    ensures room { vec_capacity opened.new ≡ vec_capacity opened.old }
{
    match opened.pop() {
        Some(branches) => {
            opened.push_reserved(Branches {
                entered: branches.entered,
                left: merged(branches.left, flow),
            });
            branches.entered
        }
        None => nothing(),
    }
}

/// Ends the innermost choice, and returns what has left it.
fn left(opened: &mut Vec<Branches>) -> Flow
    ensures flow { result ≡ left_of (reverse opened.old.items) }
    ensures opened { reverse opened.new.items ≡ around (reverse opened.old.items) }
    ensures len { vec_len opened.new ≤ vec_len opened.old }
    ensures room { vec_capacity opened.new ≡ vec_capacity opened.old }
{
    match opened.pop() {
        Some(branches) => branches.left,
        None => nothing(),
    }
}

fn merged(left: Flow, right: Flow) -> Flow
    ensures { result ≡ merged_flow left right }
{
    Flow {
        now: left.now || right.now,
        next: left.next || right.next,
        last: left.last || right.last,
    }
}

fn is_taken(test: &ByteTest, byte: u8) -> bool
    ensures { result ≡ takes (byte_test test.now) byte }
{
    match test {
        ByteTest::Any => true,
        ByteTest::Same(wanted) => byte == *wanted,
        ByteTest::Inside(spans) => is_in_spans(spans, byte),
        ByteTest::Outside(spans) => !is_in_spans(spans, byte),
    }
}

fn is_in_spans(spans: &[Span], byte: u8) -> bool
    ensures { result ≡ has_byte spans.now byte }
{
    spans
        .iter()
        .any(|span| span.low <= byte && byte <= span.high)
}
