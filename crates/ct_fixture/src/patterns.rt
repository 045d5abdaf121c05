ghost use Rattle.std.specs.Prelude.{◌≡◌, ◌||◌, IfOk, option_map};
ghost use Rattle.ct_regex.specs.PatternOf.{pattern_of};
ghost use Rattle.ct_fixture.specs.Drawing.{is_hit as is_hit_by};

use ct_base::{Name, NoMemory};
use ct_props::Choice;
use ct_regex::Matcher;
use std::alloc::Global;

/// The matchers of the patterns that keep tests out, which serve for all fixtures.
#[derive(Drop)]
pub(crate) struct FixtureMatchers<'a> {
    /// Keeps out setups and cleanups: -FA.
    pub any: Option<Matcher<'a>>,
    /// Keeps out setups: -FS.
    pub setup: Option<Matcher<'a>>,
    /// Keeps out cleanups: -FC.
    pub cleanup: Option<Matcher<'a>>,
}

impl<'a> FixtureMatchers<'a> {
    ghost use Rattle.ct_fixture.specs.Matching.{AreFixtureMatchersOf};

    pub(crate) fn of(alloc: Global, choice: &'a Choice) -> Result<FixtureMatchers<'a>, NoMemory>
        ensures { IfOk result (λ matchers. AreFixtureMatchersOf choice.now matchers) }
    {
        Ok(FixtureMatchers {
            any: Matcher::of(alloc, &choice.keep_any)?,
            setup: Matcher::of(alloc, &choice.keep_setup)?,
            cleanup: Matcher::of(alloc, &choice.keep_cleanup)?,
        })
    }
}

/// Returns whether -FA or the pattern of one side hits a fixture.
pub(crate) fn is_kept_out(
    any: &mut Option<Matcher<'_>>,
    side: &mut Option<Matcher<'_>>,
    fixture: &Name,
) -> bool
    ensures hit { result ≡ (is_hit_by (option_map pattern_of any.old) fixture.now || is_hit_by (option_map pattern_of side.old) fixture.now) }
    ensures any { option_map pattern_of any.new ≡ option_map pattern_of any.old }
    ensures side { option_map pattern_of side.new ≡ option_map pattern_of side.old }
{
    if is_hit(any, fixture) {
        return true;
    }
    is_hit(side, fixture)
}

/// Returns whether a pattern hits a fixture. Without a pattern it returns `false`.
fn is_hit(matcher: &mut Option<Matcher<'_>>, fixture: &Name) -> bool
    ensures hit { result ≡ is_hit_by (option_map pattern_of matcher.old) fixture.now }
    ensures kept { option_map pattern_of matcher.new ≡ option_map pattern_of matcher.old }
{
    match matcher {
        Some(matcher) => matcher.hit(fixture.bytes()),
        None => false,
    }
}
