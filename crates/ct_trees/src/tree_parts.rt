ghost use Rattle.std.specs.Prelude.{◌≡◌, ◌++◌, ◌+◌, ◌^◌, ◌<◌, [], IfOk, OnOk, get_or, length, nat_lt, take};
ghost use Rattle.std.specs.List.{cons_option};
ghost use Rattle.ct_history.specs.Parts.{entry_of_part};
ghost use Rattle.ct_trees.specs.Joining.{defined_by};
ghost use Rattle.ct_trees.specs.Spans.{FollowFrom, IsSpanPlace, last_of_span, parts_in, spans_behind, test_in_entry};
ghost use Rattle.ct_trees.specs.TreeParts.{entries_of_each, parts_behind};

use crate::joining::TreeRest;
use crate::parts::{own_entry, push_own};
use ct_base::{List, NoMemory};
use ct_history::{Entry, History};
use std::alloc::Global;

/// The tests of a tree among those of all trees: `count` tests behind `offset` others.
#[derive(Drop)]
pub(crate) struct Span {
    pub(crate) offset: usize,
    pub(crate) count: usize,
}

/// Copies the part of a history for each of these trees, in order, with the tree's own numbers.
///
/// Each entry is looked at once.
#[tactic(auto, using(crate::proofs::SpanLemmas::tree_spans, crate::proofs::SpanLemmas::tree_parts, crate::proofs::SpanLemmas::no_entries))]
pub(crate) fn parts_of_trees(
    alloc: Global,
    trees: &[TreeRest],
    history: &History,
) -> Result<List<History>, NoMemory>
    requires few { defined_by trees.now < 2 ^ 32 }
    ensures { IfOk result (λ parts. entries_of_each parts ≡ parts_behind 0 trees.now history.now.entries.items) }
{
    let listed = spans_of(alloc, trees)?;
    let spans = listed.as_slice();
    let entries = history.entries.as_slice();
    let mut parts = empty_parts(alloc, spans)?;
    for at in 0..entries.len() {
        add_entry(alloc, spans, entries, at, &mut parts)?;
    }
    Ok(List::from_vec(parts))
}

#[tactic(auto, using(crate::proofs::SpanLemmas::no_spans, crate::proofs::SpanLemmas::spans_done, crate::proofs::SpanLemmas::span_more, crate::proofs::SpanLemmas::span_fits))]
fn spans_of(alloc: Global, trees: &[TreeRest]) -> Result<List<Span>, NoMemory>
    requires few { defined_by trees.now < 2 ^ 32 }
    ensures are { IfOk result (λ spans. spans ≡ spans_behind 0 trees.now) }
{
    let mut spans = List::new(alloc);
    let mut offset = 0;
    for tree in trees {
        spans.push(Span {
            offset,
            count: tree.defined,
        })?;
        offset += tree.defined;
    }
    Ok(spans)
}

/// Makes an empty part for each span.
#[tactic(auto, using(crate::proofs::SpanLemmas::empty_more, crate::proofs::SpanLemmas::empty_done))]
fn empty_parts(alloc: Global, spans: &[Span]) -> Result<Vec<History>, NoMemory>
    ensures { IfOk result (λ parts. entries_of_each parts.items ≡ parts_in spans.now []) }
{
    let mut parts = Vec::new(alloc);
    for at in 0..spans.len() {
        parts.push(History {
            entries: Vec::new(alloc),
        })?;
    }
    Ok(parts)
}

/// Puts the entry at a place to the part of its tree, behind the entries in front of it.
#[tactic(auto, using(crate::proofs::SpanLemmas::as_many))]
fn add_entry(
    alloc: Global,
    spans: &[Span],
    entries: &[Entry],
    at: usize,
    parts: &mut Vec<History>,
) -> Result<(), NoMemory>
    requires follow { FollowFrom 0 spans.now }
    requires there { at < length entries.now }
    requires earlier { entries_of_each parts.old.items ≡ parts_in spans.now (take at entries.now) }
    ensures { OnOk result (entries_of_each parts.new.items ≡ parts_in spans.now (take (at + 1) entries.now)) }
{
    let entry = &entries[at];
    let place = place_of(spans, test_of(entry));
    if place < spans.len() {
        add_to(alloc, span_at(spans, place), entry, &mut parts[place])?;
    }
    Ok(())
}

/// Lends the span at a place.
fn span_at(spans: &[Span], place: usize) -> &Span
    requires { place < length spans.now }
    ensures { result.now ≡ get_or spans.now place result.now }
{
    &spans[place]
}

/// Puts an entry behind those of a part, if it is of a test of the span.
fn add_to(alloc: Global, span: &Span, entry: &Entry, part: &mut History) -> Result<(), NoMemory>
    ensures { OnOk result (part.new.entries.items ≡ part.old.entries.items ++ cons_option (entry_of_part span.now.offset span.now.count entry.now) []) }
{
    let own = own_entry(alloc, entry, span.offset, span.count)?;
    push_own(&mut part.entries, own)?;
    Ok(())
}

/// Finds the place of the first span that does not end in front of a test.
fn place_of(spans: &[Span], test: u32) -> usize
    requires { FollowFrom 0 spans.now }
    ensures { IsSpanPlace test spans.now result }
{
    spans.partition_point(|span| ends_before(span, test))
}

/// Returns whether the last number of a span is in front of a test.
fn ends_before(span: &Span, test: u32) -> bool
    ensures { result ≡ nat_lt (last_of_span span.now) test }
{
    let test = test as usize;
    span.offset < test && span.count < test - span.offset
}

/// Returns the number of the test of an entry, and 0 for a Stop, which has none.
fn test_of(entry: &Entry) -> u32
    ensures { result ≡ test_in_entry entry.now }
{
    match entry {
        Entry::Start { test, .. } | Entry::End { test, .. } | Entry::Settle { test, .. } => *test,
        Entry::Stop => 0,
    }
}
