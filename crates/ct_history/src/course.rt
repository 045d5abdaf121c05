ghost use Rattle.std.specs.Prelude.{◌≡◌, ℕ, IfOk, OnOk, option_map};
ghost use Rattle.ct_verdict.specs.Verdict.{verdict_of};
ghost use Rattle.ct_history.specs.Course as Fared;
ghost use Rattle.ct_history.specs.Seen.{attempted_by, next_attempt, verdict_of_course};

use crate::{Entry, PlanTest};
use ct_base::NoMemory;
use ct_verdict::{Cause, Repeat, Rules, Seen, Verdict, one};
use indexmap::IndexMap;
use std::alloc::Global;

/// The last attempt of a test that has ended.
#[derive(Clone, Copy)]
pub struct Ended {
    /// How many attempts ended before it, at most 2^32 - 1.
    pub earlier: u32,
    pub last: Seen,
}

/// How a test has fared so far: the cause that it was settled with, and its last attempt.
#[derive(Clone, Copy)]
pub struct Course {
    pub settled: Option<Cause>,
    pub ended: Option<Ended>,
}

/// How the tests have fared so far, by their numbers.
pub type Courses = IndexMap<u32, Course>;

impl Course {
    /// Returns what was seen of the last attempt that has ended.
    pub fn last(&self) -> Option<Seen>
        ensures { result ≡ Fared.last_of_course self.now }
    {
        match self.ended {
            Some(ended) => Some(ended.last),
            None => None,
        }
    }
}

/// Reads a history once, and notes how each of its tests has fared.
///
/// By how a test has fared `verdict_by` returns its verdict, if the test is final.
pub fn courses_of(alloc: Global, entries: &[Entry]) -> Result<Courses, NoMemory>
    ensures are { IfOk result (λ courses. Fared.AreCourses courses entries.now) }
    ensures verdicts { IfOk result (λ courses. Fared.HaveVerdicts courses entries.now) }
{
    let mut courses = IndexMap::new(alloc);
    for entry in entries {
        note_course(&mut courses, entry)?;
    }
    Ok(courses)
}

/// Looks up how a test has fared.
pub fn course_at(courses: &Courses, test: u32) -> Course
    ensures { result ≡ Fared.course_at courses.now test }
{
    match courses.get(&test) {
        Some(course) => *course,
        None => Course {
            settled: None,
            ended: None,
        },
    }
}

/// Notes what an entry says of its test.
pub(crate) fn note_course(courses: &mut Courses, entry: &Entry) -> Result<(), NoMemory>
    ensures { OnOk result ((test : ℕ) → Fared.course_at courses.new test ≡ Fared.course_after test (Fared.course_at courses.old test) entry.now) }
{
    match entry {
        Entry::End { test, .. } | Entry::Settle { test, .. } => {
            let course = course_after(course_at(courses, *test), entry, *test);
            courses.insert(*test, course)?;
        }
        Entry::Start { .. } | Entry::Stop => {}
    }
    Ok(())
}

/// Returns how a test has fared in a history.
pub(crate) fn course_in(entries: &[Entry], test: u32) -> Course
    ensures { result ≡ Fared.course_in entries.now test }
{
    let mut course = Course {
        settled: None,
        ended: None,
    };
    for entry in entries {
        course = course_after(course, entry, test);
    }
    course
}

/// Returns how a test has fared with one entry more, which may be about another test.
fn course_after(course: Course, entry: &Entry, number: u32) -> Course
    ensures { result ≡ Fared.course_after number course entry.now }
{
    match entry {
        Entry::End { test, seen, .. } if *test == number => Course {
            settled: course.settled,
            ended: Some(ended_after(course.ended, *seen)),
        },
        Entry::Settle { test, cause } if *test == number => Course {
            settled: course.settled.or(Some(*cause)),
            ended: course.ended,
        },
        _ => course,
    }
}

fn ended_after(ended: Option<Ended>, seen: Seen) -> Ended
    ensures { result ≡ Fared.ended_after ended seen }
{
    match ended {
        None => Ended {
            earlier: 0,
            last: seen,
        },
        Some(ended) => Ended {
            earlier: ended.earlier.saturating_add(1),
            last: seen,
        },
    }
}

/// Returns the number of the next attempt.
pub(crate) fn next_attempt(ended: Option<Ended>) -> u64
    ensures { result ≡ next_attempt ended }
{
    match ended {
        None => 1,
        Some(ended) => u64::from(ended.earlier) + 2,
    }
}

/// Returns the verdict of a test, by how it has fared.
pub(crate) fn verdict_of_course(
    repeat: &Repeat,
    test: &PlanTest,
    is_open: bool,
    course: Course,
) -> Option<Verdict>
    ensures { result ≡ verdict_of_course repeat.now test.now is_open course }
{
    if test.disabled {
        return Some(Verdict::Disabled);
    }
    match course.settled {
        Some(cause) => Some(Verdict::NotRun(cause)),
        None => attempted(repeat, &test.rules, is_open, course.ended),
    }
}

fn attempted(repeat: &Repeat, rules: &Rules, is_open: bool, ended: Option<Ended>) -> Option<Verdict>
    ensures { result ≡ attempted_by repeat.now rules.now is_open ended }
{
    match ended {
        None => None,
        Some(ended) => {
            let verdict = one(rules, &ended.last);
            let count = ended.earlier.saturating_add(1);
            if is_open || repeat.again(count, Some(verdict)) {
                None
            } else {
                Some(verdict)
            }
        }
    }
}

/// Returns the verdict of a test that is final, by how it has fared.
pub fn verdict_by(test: &PlanTest, course: Course) -> Option<Verdict>
    ensures { result ≡ Fared.verdict_by test.now course }
{
    if test.disabled {
        return Some(Verdict::Disabled);
    }
    match course.settled {
        Some(cause) => Some(Verdict::NotRun(cause)),
        None => last_verdict(&test.rules, course.last()),
    }
}

fn last_verdict(rules: &Rules, last: Option<Seen>) -> Option<Verdict>
    ensures { result ≡ option_map (verdict_of rules.now) last }
{
    match last {
        Some(seen) => Some(one(rules, &seen)),
        None => None,
    }
}
