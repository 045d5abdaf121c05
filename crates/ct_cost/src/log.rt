ghost use Rattle.std.specs.Prelude.{◌≡◌, true, IfOk, OnOk, flat_map, ◌++◌};
ghost use Rattle.ct_history.specs.Verdicts.{are_all_final};
ghost use Rattle.ct_cost.specs.After.{failed_log_text, logged};
ghost use Rattle.ct_cost.specs.Endings.{log_by};

use crate::endings::fails_by;
use ct_base::{Blob, NoMemory};
use ct_history::{Courses, History, Plan, PlanTest, course_at, courses_of};
use std::alloc::Global;

/// Writes the log of the tests of the failing class: a line of a number, `:` and a name for each,
/// in order of number.
///
/// Source: CMake manual, ctest(1), --rerun-failed. The form is ctest's.
pub fn failed_log(alloc: Global, plan: &Plan, history: &History) -> Result<Blob, NoMemory>
    requires ended { are_all_final plan.now history.now.entries.items ≡ true }
    ensures { IfOk result (λ text. text ≡ failed_log_text plan.now history.now.entries.items) }
{
    let courses = courses_of(alloc, history.entries.as_slice())?;
    log_of(alloc, plan.parts().tests.as_slice(), &courses)
}

fn log_of(alloc: Global, tests: &[PlanTest], courses: &Courses) -> Result<Blob, NoMemory>
    ensures { IfOk result (λ text. text ≡ flat_map (log_by courses.now) tests.now) }
{
    let mut text = Blob::new(alloc);
    for test in tests {
        append_failed(alloc, &mut text, test, courses)?;
    }
    Ok(text)
}

fn append_failed(
    alloc: Global,
    text: &mut Blob,
    test: &PlanTest,
    courses: &Courses,
) -> Result<(), NoMemory>
    ensures { OnOk result (text.new ≡ text.old ++ log_by courses.now test.now) }
{
    if fails_by(test, course_at(courses, test.number)) {
        append_logged(alloc, text, test)?;
    }
    Ok(())
}

fn append_logged(alloc: Global, text: &mut Blob, test: &PlanTest) -> Result<(), NoMemory>
    ensures { OnOk result (text.new ≡ text.old ++ logged test.now) }
{
    text.append_number(alloc, u128::from(test.number))?;
    text.append(b":")?;
    text.append(test.name.bytes())?;
    text.append(b"\n")
}
