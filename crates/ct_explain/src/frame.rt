ghost use Rattle.std.specs.Prelude.{◌≡◌, ◌++◌, map, IfOk, OnOk};
ghost use Rattle.std.specs.List.Sorted.{IsNonDecreasing};
ghost use Rattle.ct_explain.specs.Picture as Drawn;

use crate::bar_lines::{ROW, worker_place};
use crate::escaped::append_escaped;
use crate::report::programs_micros;
use crate::scale::{append_thousandths, marks_of, scaled};
use crate::story::Story;
use crate::texts::append_seconds;
use ct_base::{Blob, List, NoMemory};
use ct_history::Plan;
use std::alloc::Global;

/// How the parts of a picture look. The colours differ also for those who see no red or no green.
const STYLE: &[u8] =
    b"<style>text{font:13px sans-serif;fill:#222}.head{font-size:18px;font-weight:bold}.name{text-anchor:end}.time{text-anchor:middle;font-size:12px;fill:#555}.row{fill:#e9e9e9}.mark{fill:none;stroke:#aaa;stroke-dasharray:2 3}.passed{fill:#56b4e9;stroke:#0b5a8a}.failing{fill:#d55e00;stroke:#6e2f00}.unstarted{fill:#f0e442;stroke:#777000}.passed,.failing,.unstarted{stroke-width:.6}.chain{stroke:#000;stroke-width:2.6}</style>\n";

/// What the colours say.
const LEGEND: &[u8] =
    b"<path class='passed' d='M0.5 -78h24v14h-24z'/><text x='32' y='-66'>passed</text><path class='failing' d='M120 -78h24v14h-24z'/><text x='152' y='-66'>failing</text><path class='unstarted' d='M240 -78h24v14h-24z'/><text x='272' y='-66'>not started</text><path class='row' d='M390 -78h24v14h-24z'/><text x='422' y='-66'>the worker stands still</text><path class='chain' fill='#fff' d='M620 -78h24v14h-24z'/><text x='652' y='-66'>the length is made of these</text><text class='name' x='-38' y='-14'>sec</text>\n";

/// Writes the lines of a picture that stand in front of its bars: the first lines of the report, the row of
/// each of these workers, and a scale of time.
#[tactic(auto, unfolding(crate::specs::Picture::frame_lines))]
pub(crate) fn frame_lines(
    alloc: Global,
    plan: &Plan,
    story: &Story,
    workers: &[u32],
) -> Result<List<Blob>, NoMemory>
    requires { IsNonDecreasing workers.now }
    ensures { IfOk result (λ lines. lines ≡ Drawn.frame_lines plan.now story.now workers.now) }
{
    let mut lines = front_lines(alloc, plan, story, workers.len())?;
    push_rows(alloc, &mut lines, workers)?;
    push_marks(alloc, &mut lines, story.length, workers.len())?;
    Ok(lines)
}

/// Writes the lines in front of the rows.
fn front_lines(
    alloc: Global,
    plan: &Plan,
    story: &Story,
    rows: usize,
) -> Result<List<Blob>, NoMemory>
    ensures { IfOk result (λ lines. lines ≡ Drawn.front_lines plan.now story.now rows) }
{
    let micros = programs_micros(story.entries.as_slice());
    let mut lines = List::new(alloc);
    lines.push(opening_line(alloc, rows)?)?;
    lines.push(Blob::of(alloc, style())?)?;
    lines.push(folder_line(alloc, plan)?)?;
    lines.push(time_line(alloc, b"<text x='0' y='-134'>Time of programs: ", micros)?)?;
    lines.push(time_line(
        alloc,
        b"<text x='0' y='-112'>Length: at least ",
        story.length,
    )?)?;
    lines.push(Blob::of(alloc, legend())?)?;
    Ok(lines)
}

#[tactic(auto, unfolding(crate::specs::Picture::style))]
fn style() -> &'static [u8]
    ensures { result.now ≡ Drawn.style }
{
    STYLE
}

#[tactic(auto, unfolding(crate::specs::Picture::legend))]
fn legend() -> &'static [u8]
    ensures { result.now ≡ Drawn.legend }
{
    LEGEND
}

fn opening_line(alloc: Global, rows: usize) -> Result<Blob, NoMemory>
    ensures { IfOk result (λ line. line ≡ Drawn.opening_line rows) }
{
    let mut text = Blob::of(
        alloc,
        b"<svg xmlns='http://www.w3.org/2000/svg' style='background:#fff' viewBox='-120 -190 1160 ",
    )?;
    text.append_number(alloc, ROW * rows as u128 + 210)?;
    text.append(b"'>\n")?;
    Ok(text)
}

fn folder_line(alloc: Global, plan: &Plan) -> Result<Blob, NoMemory>
    ensures { IfOk result (λ line. line ≡ Drawn.folder_line plan.now) }
{
    let mut text = Blob::of(alloc, b"<text class='head' x='0' y='-158'>Test project ")?;
    append_escaped(&mut text, plan.parts().dir.bytes())?;
    text.append(b"</text>\n")?;
    Ok(text)
}

fn time_line(alloc: Global, front: &[u8], micros: u128) -> Result<Blob, NoMemory>
    ensures { IfOk result (λ line. line ≡ Drawn.time_line front.now micros) }
{
    let mut text = Blob::of(alloc, front)?;
    append_seconds(alloc, &mut text, micros)?;
    text.append(b" sec</text>\n")?;
    Ok(text)
}

/// Writes the row of each worker behind the lines.
fn push_rows(alloc: Global, lines: &mut List<Blob>, workers: &[u32]) -> Result<(), NoMemory>
    requires { IsNonDecreasing workers.now }
    ensures { OnOk result (lines.new ≡ lines.old ++ map (Drawn.row_line workers.now) workers.now) }
{
    for worker in workers {
        let line = row_line(alloc, worker_place(workers, *worker), *worker)?;
        lines.push(line)?;
    }
    Ok(())
}

fn row_line(alloc: Global, row: usize, worker: u32) -> Result<Blob, NoMemory>
    ensures { IfOk result (λ line. line ≡ Drawn.line_of_row row worker) }
{
    let top = ROW * row as u128;
    let mut text = Blob::of(alloc, b"<path class='row' d='M0 ")?;
    text.append_number(alloc, top)?;
    text.append(b"h1000v22h-1000z'/><text class='name' x='-12' y='")?;
    text.append_number(alloc, top + 16)?;
    text.append(b"'>worker ")?;
    text.append_number(alloc, u128::from(worker))?;
    text.append(b"</text>\n")?;
    Ok(text)
}

/// Writes the marks of the scale of time behind the lines.
fn push_marks(
    alloc: Global,
    lines: &mut List<Blob>,
    length: u128,
    rows: usize,
) -> Result<(), NoMemory>
    ensures { OnOk result (lines.new ≡ lines.old ++ Drawn.mark_lines length rows) }
{
    let marks = marks_of(alloc, length)?;
    push_each(alloc, lines, length, rows, marks.as_slice())?;
    Ok(())
}

fn push_each(
    alloc: Global,
    lines: &mut List<Blob>,
    length: u128,
    rows: usize,
    marks: &[u128],
) -> Result<(), NoMemory>
    ensures { OnOk result (lines.new ≡ lines.old ++ map (Drawn.mark_line length rows) marks.now) }
{
    for moment in marks {
        let line = mark_line(alloc, length, rows, *moment)?;
        lines.push(line)?;
    }
    Ok(())
}

fn mark_line(alloc: Global, length: u128, rows: usize, moment: u128) -> Result<Blob, NoMemory>
    ensures { IfOk result (λ line. line ≡ Drawn.mark_line length rows moment) }
{
    let place = scaled(moment, length);
    let mut text = Blob::of(alloc, b"<path class='mark' d='M")?;
    append_thousandths(alloc, &mut text, place)?;
    text.append(b" -6V")?;
    text.append_number(alloc, ROW * rows as u128)?;
    text.append(b"'/><text class='time' x='")?;
    append_thousandths(alloc, &mut text, place)?;
    text.append(b"' y='-14'>")?;
    append_seconds(alloc, &mut text, moment)?;
    text.append(b"</text>\n")?;
    Ok(text)
}
