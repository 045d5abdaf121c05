ghost use Rattle.std.specs.Prelude.{◌≡◌};
ghost use Rattle.ct_verdict.specs.Verdict.{is_good_exit, is_passing_exit, is_skipped_exit, verdict_of, verdict_of_exit};

use crate::{Cause, How, Seen, Verdict};

/// How the exits of a test are judged.
///
/// Source: CMake manual, cmake-properties(7), PASS_REGULAR_EXPRESSION, SKIP_RETURN_CODE, WILL_FAIL.
#[derive(Clone, Copy, Debug, PartialEq, Eq)]
pub struct Rules {
    /// Whether there is a pass pattern. If so, a hit of one counts in place of the exit code 0.
    pub pass_wanted: bool,
    pub skip_code: Option<i32>,
    pub will_fail: bool,
}

/// Returns the verdict of one attempt.
///
/// Source: CMake manual, cmake-properties(7), Properties on Tests. The order of the rules is this
/// project's choice.
pub fn one(rules: &Rules, seen: &Seen) -> Verdict
    ensures { result ≡ verdict_of rules.now seen.now }
{
    match seen.how {
        How::Exited(code) => judge_exit(rules, seen, code),
        How::Signalled => Verdict::Exception,
        How::TimedOut => Verdict::Timeout,
        How::NotStarted => Verdict::NotRun(Cause::Unstarted),
        How::Lacks(place) => Verdict::NotRun(Cause::Lacks(place)),
        How::NoMemory => Verdict::NotRun(Cause::Memory),
    }
}

fn judge_exit(rules: &Rules, seen: &Seen, code: i32) -> Verdict
    ensures { result ≡ verdict_of_exit rules.now seen.now code }
{
    if is_skipped(rules, seen, code) {
        Verdict::Skipped
    } else if is_passing(rules, seen, code) {
        Verdict::Passed
    } else {
        Verdict::Failed
    }
}

fn is_skipped(rules: &Rules, seen: &Seen, code: i32) -> bool
    ensures { result ≡ is_skipped_exit rules.now seen.now code }
{
    match rules.skip_code {
        Some(skip) if skip == code => true,
        _ => seen.skip_hit,
    }
}

fn is_passing(rules: &Rules, seen: &Seen, code: i32) -> bool
    ensures { result ≡ is_passing_exit rules.now seen.now code }
{
    if rules.will_fail {
        !is_good(rules, seen, code)
    } else {
        is_good(rules, seen, code)
    }
}

fn is_good(rules: &Rules, seen: &Seen, code: i32) -> bool
    ensures { result ≡ is_good_exit rules.now seen.now code }
{
    !seen.fail_hit
        && if rules.pass_wanted {
            seen.pass_hit
        } else {
            code == 0
        }
}
