ghost use Rattle.std.specs.Prelude.{◌≡◌, IfOk, map, option_map};
ghost use Rattle.ct_regex.specs.PatternOf.{pattern_of};
ghost use Rattle.ct_select.specs.Chosen.{admit as admitted, by_name, hit_labels as are_hit, hits_label as is_label_hit, is_left_out as leaves_out};

use ct_base::{Name, NoMemory};
use ct_props::Choice;
use ct_regex::{Matcher, Regex};
use std::alloc::Global;

/// The matchers of a choice's patterns, which serve for all tests.
#[derive(Drop)]
pub struct Matchers<'a> {
    pub name: Option<Matcher<'a>>,
    pub not_name: Option<Matcher<'a>>,
    pub labels: Vec<Matcher<'a>>,
    pub not_labels: Vec<Matcher<'a>>,
}

impl<'a> Matchers<'a> {
    ghost use Rattle.ct_select.specs.Matching.{AreMatchersOf};

    pub(crate) fn of(alloc: Global, choice: &'a Choice) -> Result<Matchers<'a>, NoMemory>
        ensures { IfOk result (λ matchers. AreMatchersOf choice.now matchers) }
    {
        Ok(Matchers {
            name: Matcher::of(alloc, &choice.name)?,
            not_name: Matcher::of(alloc, &choice.not_name)?,
            labels: matchers_of(alloc, choice.labels.as_slice())?,
            not_labels: matchers_of(alloc, choice.not_labels.as_slice())?,
        })
    }
}

fn matchers_of<'a>(alloc: Global, patterns: &'a [Regex]) -> Result<Vec<Matcher<'a>>, NoMemory>
    ensures { IfOk result (λ matchers. map pattern_of matchers.items ≡ patterns.now) }
{
    let mut matchers = Vec::new(alloc);
    for pattern in patterns {
        matchers.push(Matcher::new(alloc, pattern)?)?;
    }
    Ok(matchers)
}

/// Returns whether a pattern hits a name, where there is one.
pub(crate) fn name_hit(matcher: &mut Option<Matcher<'_>>, name: &Name) -> Option<bool>
    ensures hit { result ≡ by_name (option_map pattern_of matcher.old) name.now }
    ensures kept { option_map pattern_of matcher.new ≡ option_map pattern_of matcher.old }
{
    match matcher {
        Some(matcher) => Some(matcher.hit(name.bytes())),
        None => None,
    }
}

/// Returns whether -R and -I admit a test, by what each of them says where it was given.
pub(crate) fn admit(union: bool, named: Option<bool>, numbered: Option<bool>) -> bool
    ensures { result ≡ admitted union named numbered }
{
    match (named, numbered) {
        (None, None) => true,
        (Some(named), None) => named,
        (None, Some(numbered)) => numbered,
        (Some(named), Some(numbered)) if union => named || numbered,
        (Some(named), Some(numbered)) => named && numbered,
    }
}

/// Returns whether each pattern hits some label.
pub(crate) fn hit_labels(matchers: &mut [Matcher<'_>], labels: &[Name]) -> bool
    ensures hit { result ≡ are_hit (map pattern_of matchers.old) labels.now }
    ensures kept { map pattern_of matchers.new ≡ map pattern_of matchers.old }
{
    for i in 0..matchers.len() {
        if !hits_label(&mut matchers[i], labels) {
            return false;
        }
    }
    true
}

/// Returns whether a pattern hits some label.
fn hits_label(matcher: &mut Matcher<'_>, labels: &[Name]) -> bool
    ensures hit { result ≡ is_label_hit labels.now (pattern_of matcher.old) }
    ensures kept { pattern_of matcher.new ≡ pattern_of matcher.old }
{
    for label in labels {
        if matcher.hit(label.bytes()) {
            return true;
        }
    }
    false
}

/// Returns whether there are patterns, and each hits some label.
pub(crate) fn is_left_out(matchers: &mut [Matcher<'_>], labels: &[Name]) -> bool
    ensures left_out { result ≡ leaves_out (map pattern_of matchers.old) labels.now }
    ensures kept { map pattern_of matchers.new ≡ map pattern_of matchers.old }
{
    if matchers.is_empty() {
        return false;
    }
    hit_labels(matchers, labels)
}
