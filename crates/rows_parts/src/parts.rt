//! The parts that a file of rows may ask, by name.

use crate::row::{Given, RowFault};
use crate::{
    choices, costs, editors, entries, environment, groups, journal, lexer, orders, patterns, plans,
    properties, report, specification, trees, words,
};
use ct_base::Blob;
use std::alloc::Global;

/// Returns what a row comes to: what the part that its file asks tells of it.
pub(crate) fn told(alloc: Global, given: Given<'_>) -> Result<Blob, RowFault> {
    match given.text("part")? {
        "lexer" => lexer::told(alloc, given),
        "list for editors" => editors::told(alloc, given),
        "cost data again" => costs::again(alloc, given),
        "cost data after a run" => costs::after(alloc, given),
        "log of failed tests" => costs::log(alloc, given),
        "journal line" => journal::line_again(alloc, given),
        part => Ok(Blob::of(alloc, text_told(alloc, part, given)?.as_bytes())?),
    }
}

/// Returns what a part that tells text tells of a row.
fn text_told(alloc: Global, part: &str, given: Given<'_>) -> Result<String, RowFault> {
    match part {
        "path" => entries::joined(alloc, given),
        "entries" => entries::split(alloc, given),
        "seconds" => entries::seconds(alloc, given),
        "pattern" => patterns::hit(alloc, given),
        "texts in turn" => patterns::each(alloc, given),
        "test files" => trees::tree(alloc, given),
        "failing files" => trees::failing(alloc, given),
        "limits of test files" => trees::limited(alloc, given),
        part => read_told(alloc, part, given),
    }
}

/// Returns what a part that reads properties or words tells of a row.
fn read_told(alloc: Global, part: &str, given: Given<'_>) -> Result<String, RowFault> {
    match part {
        "properties" => properties::told(alloc, given),
        "environment" => environment::changed(alloc, given),
        "environment of picks" => environment::placed(alloc, given),
        "bad operation" => environment::first_bad(alloc, given),
        "groups" => groups::told(alloc, given),
        "specification" => specification::whole(alloc, given),
        "local resources" => specification::local(alloc, given),
        "words" => words::told(alloc, given),
        part => planned_told(alloc, part, given),
    }
}

/// Returns what a part that plans a run, or tells what became of one, tells of a row.
fn planned_told(alloc: Global, part: &str, given: Given<'_>) -> Result<String, RowFault> {
    match part {
        "choice" => choices::by_words(alloc, given),
        "choice by log" => choices::of_log(alloc, given),
        "fixtures" => choices::drawn_in(alloc, given),
        "order" => orders::links(alloc, given),
        "cycle" => orders::cycle(alloc, given),
        "order of many" => orders::many(alloc, given),
        "queue" => plans::queue(alloc, given),
        "shared locks" => plans::shared(alloc, given),
        "report lines" => report::lines(alloc, given),
        "summary" => report::summed_up(alloc, given),
        "list of labels" => report::labels(alloc, given),
        "list of tests" => report::tests(alloc, given),
        "known costs" => costs::known(alloc, given),
        "journal" => journal::first_bad(alloc, given),
        _ => Err(RowFault::NoPart),
    }
}
