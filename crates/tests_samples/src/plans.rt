//! Tests, cards and needs that plans are made of, and whether parts are a plan.

ghost use Rattle.std.specs.Prelude.{◌≡◌, ◌==◌, ℕ, All, IfOk, IfSome, IsPermutation, map};
ghost use Rattle.std.specs.Bool.{OnTrue};
ghost use Rattle.std.specs.List.{list_all, list_any};
ghost use Rattle.ct_alloc.specs.Free.{used_at};
ghost use Rattle.ct_base.specs.Resources.{AreDistinct, same_resource};
ghost use Rattle.ct_alloc.specs.Placement.{SomeFits};
ghost use Rattle.ct_history.specs.Plan.{AllAscend, IsAscendingFrom, IsPlaceable, IsSound, has_sound_links, has_sound_processors, is_before_rank, is_fixed_cause, enabled, test_at as planned_test};

use ct_alloc::Free;
use ct_base::{List, Name, Need, NoMemory, Resource};
use ct_history::{Plan, PlanParts, PlanTest, test_at};
use ct_verdict::{Cause, Mode, Repeat, Rules};
use std::alloc::Global;

/// Makes a plan of parts, or returns `None` where they are not sound.
pub fn plan_of(alloc: Global, parts: PlanParts) -> Result<Option<Plan>, NoMemory> {
    if is_sound(alloc, &parts)? {
        Ok(Some(Plan::new(parts)))
    } else {
        Ok(None)
    }
}

/// Makes a test that takes one processor and waits for none.
pub fn free(alloc: Global, number: u32) -> Result<PlanTest, NoMemory> {
    named(alloc, number, b"t")
}

/// Makes a test of this name that takes one processor and waits for none.
pub fn named(alloc: Global, number: u32, name: &[u8]) -> Result<PlanTest, NoMemory> {
    Ok(PlanTest {
        number,
        name: Name::of(alloc, name)?,
        disabled: false,
        processors: 1,
        locks: List::new(alloc),
        shared: List::new(alloc),
        serial: false,
        rules: Rules {
            pass_wanted: false,
            skip_code: Some(77),
            will_fail: false,
        },
        needs: List::new(alloc),
        before: List::new(alloc),
        setups: List::new(alloc),
        rank: number,
        fixed: None,
        labels: List::new(alloc),
    })
}

/// How the tests of a plan are run.
#[derive(Clone, Copy, Debug, PartialEq, Eq)]
pub struct Manner {
    /// How many processors the open tests may use together.
    pub level: u32,
    pub repeat: Repeat,
    pub stop_on_failure: bool,
}

impl Manner {
    /// Runs each test once, and goes on after a failure.
    pub fn once(level: u32) -> Manner {
        Manner {
            level,
            repeat: Repeat {
                mode: Mode::Once,
                times: 1,
            },
            stop_on_failure: false,
        }
    }
}

/// Makes parts of tests that are queued in their order.
pub fn parts_of(
    alloc: Global,
    manner: Manner,
    tests: List<PlanTest>,
    resources: Option<List<Resource>>,
) -> Result<PlanParts, NoMemory> {
    let numbers = enabled_numbers(alloc, tests.as_slice())?;
    queued(alloc, manner, tests, List::from_vec(numbers), resources)
}

/// Makes parts of tests that are queued in this order.
pub fn queued(
    alloc: Global,
    manner: Manner,
    tests: List<PlanTest>,
    queue: List<u32>,
    resources: Option<List<Resource>>,
) -> Result<PlanParts, NoMemory> {
    Ok(PlanParts {
        dir: Name::of(alloc, b".")?,
        tests,
        queue,
        resources,
        level: manner.level,
        repeat: manner.repeat,
        stop_on_failure: manner.stop_on_failure,
    })
}

/// Makes cards of one kind with these slots, whose ids are their places.
pub fn cards(alloc: Global, slots: &[u32]) -> Result<List<Resource>, NoMemory> {
    let mut cards = List::new(alloc);
    for (at, slots) in slots.iter().enumerate() {
        cards.push(card(alloc, at, *slots)?)?;
    }
    Ok(cards)
}

/// Makes a card with this place as its id.
fn card(alloc: Global, at: usize, slots: u32) -> Result<Resource, NoMemory> {
    let id = at.to_string(alloc)?;
    Ok(Resource {
        kind: Name::of(alloc, b"gpus")?,
        id: Name::of(alloc, id.as_bytes())?,
        slots,
    })
}

/// Makes needs of one kind with these slots.
pub fn needs(alloc: Global, slots: &[u32]) -> Result<List<Need>, NoMemory> {
    let mut needs = List::new(alloc);
    for slots in slots {
        needs.push(need(alloc, *slots)?)?;
    }
    Ok(needs)
}

/// Makes a need of this many slots of a card.
pub fn need(alloc: Global, slots: u32) -> Result<Need, NoMemory> {
    Ok(Need {
        group: 0,
        kind: Name::of(alloc, b"gpus")?,
        slots,
    })
}

/// Returns what is free of some cards of which nothing is used. It fails where there are too many.
pub fn unused(alloc: Global, resources: &List<Resource>) -> Result<Free, NoMemory>
    ensures whole { IfOk result (λ free. free.resources ≡ resources.now) }
    ensures unused { IfOk result (λ free. (place : ℕ) → used_at free place ≡ 0) }
{
    if resources.len() >= u32::MAX as usize {
        return Err(NoMemory);
    }
    Free::all(alloc, resources)
}

/// Returns whether a plan can be made of the parts.
fn is_sound(alloc: Global, parts: &PlanParts) -> Result<bool, NoMemory>
    ensures { IfOk result (λ yes. OnTrue yes (IsSound parts.now)) }
{
    let tests = parts.tests.as_slice();
    Ok(
        parts.repeat.times >= 1
            && are_numbered(tests)
            && befores_ascend(tests)
            && setups_ascend(tests)
            && are_linked(tests)
            && have_processors(tests, parts.level)
            && have_causes(tests, &parts.resources)
            && is_queued(alloc, parts)?
            && are_met(alloc, parts)?,
    )
}

fn are_numbered(tests: &[PlanTest]) -> bool
    ensures { OnTrue result (IsAscendingFrom 1 (map (λ t. t.number) tests.now)) }
{
    let mut least: u64 = 1;
    for test in tests {
        if u64::from(test.number) < least {
            return false;
        }
        least = u64::from(test.number) + 1;
    }
    true
}

fn ascend(numbers: &[u32]) -> bool
    ensures { OnTrue result (IsAscendingFrom 1 numbers.now) }
{
    let mut least: u64 = 1;
    for number in numbers {
        if u64::from(*number) < least {
            return false;
        }
        least = u64::from(*number) + 1;
    }
    true
}

fn befores_ascend(tests: &[PlanTest]) -> bool
    ensures { OnTrue result (AllAscend (λ t. t.before) tests.now) }
{
    for test in tests {
        if !ascend(test.before.as_slice()) {
            return false;
        }
    }
    true
}

fn setups_ascend(tests: &[PlanTest]) -> bool
    ensures { OnTrue result (AllAscend (λ t. t.setups) tests.now) }
{
    for test in tests {
        if !ascend(test.setups.as_slice()) {
            return false;
        }
    }
    true
}

fn are_linked(tests: &[PlanTest]) -> bool
    ensures { result ≡ list_all (has_sound_links tests.now) tests.now }
{
    tests.iter().all(|test| is_linked(tests, test))
}

fn is_linked(tests: &[PlanTest], test: &PlanTest) -> bool
    ensures { result ≡ has_sound_links tests.now test.now }
{
    are_before(tests, test) && are_setups(test)
}

fn are_before(tests: &[PlanTest], test: &PlanTest) -> bool
    ensures { result ≡ list_all (λ j. is_before_rank test.now.rank (planned_test tests.now j)) test.now.before }
{
    test.before
        .as_slice()
        .iter()
        .all(|number| is_before(tests, test.rank, *number))
}

fn are_setups(test: &PlanTest) -> bool
    ensures { result ≡ list_all (λ s. list_any (λ j. j == s) test.now.before) test.now.setups }
{
    let before = test.before.as_slice();
    test.setups
        .as_slice()
        .iter()
        .all(|setup| is_among(*setup, before))
}

fn is_among(number: u32, numbers: &[u32]) -> bool
    ensures { result ≡ list_any (λ j. j == number) numbers.now }
{
    numbers.iter().any(|other| *other == number)
}

fn is_before(tests: &[PlanTest], rank: u32, number: u32) -> bool
    ensures { result ≡ is_before_rank rank (planned_test tests.now number) }
{
    match test_at(tests, number) {
        Some(test) => !test.disabled && test.rank < rank,
        None => false,
    }
}

fn have_processors(tests: &[PlanTest], level: u32) -> bool
    ensures { result ≡ list_all (has_sound_processors level) tests.now }
{
    tests
        .iter()
        .all(|test| 1 <= test.processors && test.processors <= level)
}

fn have_causes(tests: &[PlanTest], resources: &Option<List<Resource>>) -> bool
    ensures { result ≡ list_all (λ t. is_fixed_cause resources.now t.fixed) tests.now }
{
    tests.iter().all(|test| is_fixed(test.fixed, resources))
}

fn is_fixed(cause: Option<Cause>, resources: &Option<List<Resource>>) -> bool
    ensures { result ≡ is_fixed_cause resources.now cause }
{
    match cause {
        None => true,
        Some(Cause::NotAvailable) | Some(Cause::BadOperation(_)) => true,
        Some(Cause::Insufficient) => resources.is_some(),
        Some(_) => false,
    }
}

/// Returns whether the resources are distinct, and each test without a
/// fixed cause can be placed on them.
fn are_met(alloc: Global, parts: &PlanParts) -> Result<bool, NoMemory>
    ensures apart { IfOk result (λ yes. OnTrue yes (IfSome parts.now.resources AreDistinct)) }
    ensures placeable { IfOk result (λ yes. OnTrue yes (IfSome parts.now.resources
        (λ resources. All (IsPlaceable resources) parts.now.tests))) }
{
    match &parts.resources {
        Some(resources) => Ok(
            are_apart(resources.as_slice())
                && are_placeable(alloc, resources, parts.tests.as_slice())?,
        ),
        None => Ok(true),
    }
}

fn are_apart(resources: &[Resource]) -> bool
    ensures { OnTrue result (AreDistinct resources.now) }
{
    for at in 0..resources.len() {
        if is_named_among(&resources[at], &resources[..at]) {
            return false;
        }
    }
    true
}

fn is_named_among(resource: &Resource, others: &[Resource]) -> bool
    ensures { result ≡ list_any (λ other. same_resource other resource.now) others.now }
{
    others.iter().any(|other| other.kind.is(&resource.kind) && other.id.is(&resource.id))
}

fn are_placeable(
    alloc: Global,
    resources: &List<Resource>,
    tests: &[PlanTest],
) -> Result<bool, NoMemory>
    ensures { IfOk result (λ yes. OnTrue yes (All (IsPlaceable resources.now) tests.now)) }
{
    for test in tests {
        if !is_placeable(alloc, resources, test)? {
            return Ok(false);
        }
    }
    Ok(true)
}

fn is_placeable(
    alloc: Global,
    resources: &List<Resource>,
    test: &PlanTest,
) -> Result<bool, NoMemory>
    ensures { IfOk result (λ yes. OnTrue yes (IsPlaceable resources.now test.now)) }
{
    if test.fixed.is_some() {
        return Ok(true);
    }
    let free = unused(alloc, resources)?;
    has_room(alloc, &free, &test.needs)
}

/// Returns whether needs can be placed on resources of which nothing is used.
fn has_room(alloc: Global, free: &Free, needs: &List<Need>) -> Result<bool, NoMemory>
    requires unused { (place : ℕ) → used_at free.now place ≡ 0 }
    ensures { IfOk result (λ yes. OnTrue yes (SomeFits free.now.resources needs.now (λ place. 0))) }
{
    Ok(free.place(alloc, needs)?.is_some())
}

/// Returns whether each test that is not disabled stands in the queue once.
fn is_queued(alloc: Global, parts: &PlanParts) -> Result<bool, NoMemory>
    ensures { IfOk result (λ yes. OnTrue yes
        (IsPermutation parts.now.queue (map (λ t. t.number) (enabled parts.now.tests)))) }
{
    let numbers = enabled_numbers(alloc, parts.tests.as_slice())?;
    let mut queue = Vec::from_slice(alloc, parts.queue.as_slice())?;
    queue.sort()?;
    Ok(queue.as_slice() == numbers.as_slice())
}

/// Lists the numbers of the tests that are not disabled.
pub fn enabled_numbers(alloc: Global, tests: &[PlanTest]) -> Result<Vec<u32>, NoMemory>
    ensures { IfOk result (λ numbers. numbers.items ≡ map (λ t. t.number) (enabled tests.now)) }
{
    let mut numbers = Vec::new(alloc);
    for test in tests {
        if !test.disabled {
            numbers.push(test.number)?;
        }
    }
    Ok(numbers)
}
