ghost use Rattle.std.specs.Prelude.{◌≡◌, ◌<◌, ◌∷◌, [], Some, length, map, slice_get};
ghost use Rattle.std.specs.List.Sorted.{IsNonDecreasing};
ghost use Rattle.ct_report.specs.PutLines.{PutsLines};
ghost use Rattle.ct_explain.specs.Picture as Drawn;

use crate::bar_lines::{Chained, bar_line, chained_of};
use crate::bars::{Bar, bars_of, workers_of};
use crate::frame::frame_lines;
use crate::story::Story;
use ct_base::{Blob, Sink, SinkFault};
use ct_history::Plan;
use std::alloc::Global;

/// Puts a picture of what a story tells, as an SVG document, each line in a put of its own: the first lines
/// of the report, a row for each worker that has a Start, a scale of time, and a bar for each attempt.
///
/// Source: this project's choice.
pub(crate) fn put_picture<S: Sink>(
    alloc: Global,
    sink: &mut S,
    plan: &Plan,
    story: &Story,
) -> Result<(), SinkFault>
    ensures { PutsLines (Drawn.picture_lines plan.now story.now)
        (S.tells sink.old) (S.tells sink.new) result }
{
    let workers = workers_of(alloc, story.entries.as_slice())?;
    let frame = frame_lines(alloc, plan, story, workers.as_slice())?;
    put_lines(sink, frame.as_slice())?;
    put_bars(alloc, sink, plan, story, workers.as_slice())?;
    put_line(sink, b"</svg>\n")?;
    Ok(())
}

fn put_line<S: Sink>(sink: &mut S, line: &[u8]) -> Result<(), SinkFault>
    ensures { PutsLines (line.now ∷ []) (S.tells sink.old) (S.tells sink.new) result }
{
    sink.put(line)?;
    Ok(())
}

/// Puts each line in a put of its own, in order.
fn put_lines<S: Sink>(sink: &mut S, lines: &[Blob]) -> Result<(), SinkFault>
    ensures { PutsLines lines.now (S.tells sink.old) (S.tells sink.new) result }
{
    for line in lines {
        put_line(sink, line.bytes())?;
    }
    Ok(())
}

/// Puts the bar of each attempt.
#[tactic(auto, unfolding(crate::specs::Picture::bar_lines))]
fn put_bars<S: Sink>(
    alloc: Global,
    sink: &mut S,
    plan: &Plan,
    story: &Story,
    workers: &[u32],
) -> Result<(), SinkFault>
    requires { IsNonDecreasing workers.now }
    ensures { PutsLines (Drawn.bar_lines plan.now story.now workers.now)
        (S.tells sink.old) (S.tells sink.new) result }
{
    let bars = bars_of(alloc, story.entries.as_slice(), story.times.as_slice())?;
    let chained = chained_of(alloc, story.chain.as_slice())?;
    put_each(alloc, sink, plan, story, workers, &chained, bars.as_slice())?;
    Ok(())
}

fn put_each<S: Sink>(
    alloc: Global,
    sink: &mut S,
    plan: &Plan,
    story: &Story,
    workers: &[u32],
    chained: &Chained,
    bars: &[Bar],
) -> Result<(), SinkFault>
    requires chained { Drawn.AreChained story.now.chain chained.now }
    requires ascend { IsNonDecreasing workers.now }
    ensures { PutsLines (map (Drawn.bar_line plan.now story.now workers.now) bars.now)
        (S.tells sink.old) (S.tells sink.new) result }
{
    for at in 0..bars.len() {
        let bar = expect_bar(bars, at);
        let line = bar_line(alloc, plan, story, workers, chained, bar)?;
        put_line(sink, line.bytes())?;
    }
    Ok(())
}

/// Lends the bar at a place.
fn expect_bar(bars: &[Bar], at: usize) -> &Bar
    requires { at < length bars.now }
    ensures { slice_get bars.now at ≡ Some result.now }
{
    match bars.get(at) {
        Some(bar) => bar,
        None => unreachable!(),
    }
}
