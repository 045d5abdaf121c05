ghost use Rattle.std.specs.Prelude.{◌≡◌, ◌≤◌, ◌<◌, ◌+◌, ◌*◌, ◌++◌, IfOk, OnOk};
ghost use Rattle.ct_explain.specs.Scale as Drawn;

use ct_base::{Blob, List, NoMemory};
use std::alloc::Global;

/// The steps of a scale, in microseconds, in ascending order. This project's choice.
static STEPS: [u64; 42] = [
    1,
    2,
    5,
    10,
    20,
    50,
    100,
    200,
    500,
    1_000,
    2_000,
    5_000,
    10_000,
    20_000,
    50_000,
    100_000,
    200_000,
    500_000,
    1_000_000,
    2_000_000,
    5_000_000,
    10_000_000,
    20_000_000,
    50_000_000,
    100_000_000,
    200_000_000,
    500_000_000,
    1_000_000_000,
    2_000_000_000,
    5_000_000_000,
    10_000_000_000,
    20_000_000_000,
    50_000_000_000,
    100_000_000_000,
    200_000_000_000,
    500_000_000_000,
    1_000_000_000_000,
    2_000_000_000_000,
    5_000_000_000_000,
    10_000_000_000_000,
    20_000_000_000_000,
    50_000_000_000_000,
];

/// The greatest step, for a run that is longer than ten of each other one.
const MOST_STEP: u64 = 100_000_000_000_000;

/// How many steps each mark of a scale stands from its beginning.
static MARKS: [u8; 11] = [0, 1, 2, 3, 4, 5, 6, 7, 8, 9, 10];

/// How often a whole goes into something, and what is left of it.
#[derive(Clone, Copy)]
struct Share {
    times: u128,
    rest: u128,
}

/// Returns where a moment stands in a picture of this length: in thousandths of a width of 1,000, rounded
/// down. It is 0 where the length is 0, and nothing stands beyond the right edge.
pub(crate) fn scaled(moment: u128, length: u128) -> u128
    ensures { result ≡ Drawn.scaled length moment }
{
    if length == 0 {
        return 0;
    }
    if length <= moment {
        return 1_000_000;
    }
    let first = hundredfold(moment, length);
    let second = hundredfold(first.rest, length);
    let third = hundredfold(second.rest, length);
    (first.times * 100 + second.times) * 100 + third.times
}

/// Returns how often a whole goes into a hundred times a part of it, without a product that could overflow.
fn hundredfold(part: u128, whole: u128) -> Share
    requires { part < whole }
    ensures is { result.times * whole + result.rest ≡ 100 * part }
    ensures left { result.rest < whole }
    ensures few { result.times ≤ 100 }
{
    let mut share = Share { times: 0, rest: 0 };
    for _ in 0..100_u8 {
        share = add_part(share, part, whole);
    }
    share
}

/// Adds a part to a share.
fn add_part(share: Share, part: u128, whole: u128) -> Share
    requires part { part < whole }
    requires left { share.rest < whole }
    requires few { share.times < 100 }
    ensures is { result.times * whole + result.rest ≡ share.times * whole + share.rest + part }
    ensures left { result.rest < whole }
    ensures few { result.times ≤ share.times + 1 }
{
    if share.rest >= whole - part {
        Share {
            times: share.times + 1,
            rest: share.rest - (whole - part),
        }
    } else {
        Share {
            times: share.times,
            rest: share.rest + part,
        }
    }
}

/// Puts thousandths behind the text: a whole number, a point, and three digits.
pub(crate) fn append_thousandths(
    alloc: Global,
    text: &mut Blob,
    number: u128,
) -> Result<(), NoMemory>
    ensures { OnOk result (text.new ≡ text.old ++ Drawn.thousandths number) }
{
    text.append_number(alloc, number / 1000)?;
    let behind = (number % 1000) as u16;
    text.append(&[
        b'.',
        b'0' + (behind / 100) as u8,
        b'0' + (behind / 10 % 10) as u8,
        b'0' + (behind % 10) as u8,
    ])?;
    Ok(())
}

/// Returns the moments of the marks of a scale for a run of this length, in microseconds.
#[tactic(auto, unfolding(crate::specs::Scale::marks))]
pub(crate) fn marks_of(alloc: Global, length: u128) -> Result<List<u128>, NoMemory>
    ensures { IfOk result (λ marks. marks ≡ Drawn.marks length) }
{
    moments_within(alloc, &MARKS, step_of(length), length)
}

/// Returns the moments that stand so many steps from the beginning, up to the length.
fn moments_within(
    alloc: Global,
    marks: &[u8],
    step: u64,
    length: u128,
) -> Result<List<u128>, NoMemory>
    ensures { IfOk result (λ moments. moments ≡ Drawn.moments_within marks.now step length) }
{
    let mut moments = List::new(alloc);
    for mark in marks {
        let moment = u128::from(*mark) * u128::from(step);
        if moment <= length {
            moments.push(moment)?;
        }
    }
    Ok(moments)
}

/// Returns the step of the scale for a run of this length.
#[tactic(auto, unfolding(crate::specs::Scale::step_of))]
fn step_of(length: u128) -> u64
    ensures { result ≡ Drawn.step_of length }
{
    first_step(&STEPS, length)
}

/// Returns the first of these steps of which at most ten go into a run of this length.
fn first_step(steps: &[u64], length: u128) -> u64
    ensures { result ≡ Drawn.first_step steps.now length }
{
    for step in steps {
        if length <= 10 * u128::from(*step) {
            return *step;
        }
    }
    MOST_STEP
}
