ghost use Rattle.std.specs.Prelude.{◌≡◌, ◌<◌, length, IfOk, IfSome, option_map};
ghost use Rattle.std.specs.Path.{rfind_below};
ghost use Rattle.ct_base.specs.Bytes.{space};
ghost use Rattle.ct_cost.specs.Text.{line_in as line_read, line_before as line_cut, named_line as line_made, durations_in, only_duration as only_one};
ghost use Rattle.ct_cost.specs.Kept.{seen_line};

use crate::durations::Durations;
use ct_base::{NoMemory, micros, number};
use std::alloc::Global;

/// The form of the lines of cost data.
#[derive(Clone, Copy)]
pub(crate) enum Version {
    /// A name, how many runs passed, and what they cost.
    One,
    /// A name and the last durations.
    Two,
}

/// A line of cost data, with its name in the text that was read.
#[derive(Drop)]
pub(crate) struct Line<'a> {
    pub name: &'a [u8],
    pub durations: Durations,
}

/// Reads a line of cost data: a name that is not empty, a space, and what a version has behind it.
#[tactic(auto, unfolding(std::specs::Path::rsplit_once))]
pub(crate) fn line_in(
    alloc: Global,
    version: Version,
    text: &[u8],
) -> Result<Option<Line<'_>>, NoMemory>
    ensures { IfOk result (λ line. option_map seen_line line ≡ line_read version text.now) }
{
    let Some(last) = last_space(text) else {
        return Ok(None);
    };
    let (front, end) = (&text[..last], &text[last + 1..]);
    match version {
        Version::One => mean_line(alloc, front, end),
        Version::Two => durations_line(alloc, front, end),
    }
}

/// Reads the line of a name and durations.
fn durations_line<'a>(
    alloc: Global,
    name: &'a [u8],
    durations: &[u8],
) -> Result<Option<Line<'a>>, NoMemory>
    ensures { IfOk result (λ line. option_map seen_line line ≡ line_made name.now (durations_in durations.now)) }
{
    let durations = Durations::read(alloc, durations)?;
    Ok(line_with(name, durations))
}

/// Reads the line of a name and runs, and of a cost.
#[tactic(auto, unfolding(std::specs::Path::rsplit_once))]
fn mean_line<'a>(alloc: Global, front: &'a [u8], cost: &[u8]) -> Result<Option<Line<'a>>, NoMemory>
    ensures { IfOk result (λ line. option_map seen_line line ≡ line_cut (front.now, cost.now)) }
{
    let Some(last) = last_space(front) else {
        return Ok(None);
    };
    let durations = only_duration(alloc, number(&front[last + 1..]), micros(cost))?;
    Ok(line_with(&front[..last], durations))
}

/// Returns the one duration of a line with runs and a cost.
fn only_duration(
    alloc: Global,
    runs: Option<u64>,
    cost: Option<u64>,
) -> Result<Option<Durations>, NoMemory>
    ensures { IfOk result (λ durations. durations ≡ only_one runs cost) }
{
    match (runs, cost) {
        (Some(_), Some(micros)) => Ok(Some(Durations::of(alloc, micros)?)),
        _ => Ok(None),
    }
}

fn line_with(name: &[u8], durations: Option<Durations>) -> Option<Line<'_>>
    ensures { option_map seen_line result ≡ line_made name.now durations }
{
    if name.is_empty() {
        return None;
    }
    let durations = durations?;
    Some(Line { name, durations })
}

/// Finds the place of the last space, from 0.
#[tactic(auto, using(crate::proofs::PlaceLemmas::finds_space, crate::proofs::PlaceLemmas::passes_byte))]
fn last_space(text: &[u8]) -> Option<usize>
    ensures is { result ≡ rfind_below space text.now (length text.now) }
    ensures within { IfSome result (λ at. at < length text.now) }
{
    let mut end = text.len();
    while end > 0 {
        end -= 1;
        if text[end] == b' ' {
            return Some(end);
        }
    }
    None
}
