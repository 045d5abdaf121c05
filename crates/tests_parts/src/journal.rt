//! The journal of a run: what is written of each entry, and the places of a start.

use ct_alloc::{Pick, Placement};
use ct_base::{Blob, List, Name, NoMemory, Resource};
use ct_history::Entry;
use ct_journal_text::{journal_text, placement_at};
use ct_verdict::{Cause, How, Seen};
use std::alloc::Global;
use std::process::Abort;
use std::str;
use std::test::Fail;
use tests_samples::{cards, needs};

/// Returns whether a text is the wanted one, in which `|` stands for a line feed.
fn says(rt: &impl Abort, text: &Blob, want: &str) {
    let said = str::from_utf8(text.bytes()).unwrap_or("?");
    assert!(rt;
        is_with_feeds(text.bytes(), want.as_bytes()),
        "{want}: {said}"
    );
}

fn is_with_feeds(text: &[u8], want: &[u8]) -> bool {
    text.len() == want.len()
        && text.iter().zip(want).all(|(byte, other)| *byte
            == if *other == b'|' { b'\n' } else { *other })
}

fn end(test: u32, how: How, hits: [bool; 3], micros: u64) -> Entry {
    let [fail_hit, pass_hit, skip_hit] = hits;
    Entry::End {
        test,
        attempt: 1,
        worker: 0,
        seen: Seen {
            how,
            fail_hit,
            pass_hit,
            skip_hit,
            micros,
        },
    }
}

fn start(test: u32, placement: Option<Placement>) -> Entry {
    Entry::Start {
        test,
        attempt: 1,
        worker: 0,
        placement,
    }
}

fn placed(alloc: Global, resources: &[u32]) -> Result<Placement, NoMemory> {
    let mut picks = List::new(alloc);
    for resource in resources {
        picks.push(Pick {
            group: 7,
            kind: Name::of(alloc, b"gpus")?,
            id: Name::of(alloc, b"card")?,
            slots: 9,
            resource: *resource,
        })?;
    }
    Ok(Placement { picks })
}

/// Checks the journal of one entry.
fn writes(rt: &impl Abort, alloc: Global, entry: Entry, want: &str) -> Result<(), NoMemory> {
    let text = journal_text(alloc, &[entry])?;
    says(rt, &text, want);
    Ok(())
}

#[test]
fn writes_the_journal_of_a_run_with_one_test(rt: HostRuntime) -> Result<(), Fail> {
    let alloc = rt.alloc();
    let entries = [start(1, None), end(1, How::Exited(0), [false; 3], 10_000)];
    let text = journal_text(alloc, &entries)?;
    says(
        &rt,
        &text,
        "ct-journal 1|start 1 1 0|end 1 1 0 exit:0 000 10000|done 2|",
    );
    says(&rt, &journal_text(alloc, &[])?, "ct-journal 1|done 0|");
    Ok(())
}

#[test]
fn writes_each_end(rt: HostRuntime) -> Result<(), Fail> {
    let ends = [
        (How::Exited(-1), "exit:-1"),
        (How::Exited(i32::MIN), "exit:-2147483648"),
        (How::Exited(i32::MAX), "exit:2147483647"),
        (How::Signalled, "signal"),
        (How::TimedOut, "timeout"),
        (How::NotStarted, "unstarted"),
        (How::Lacks(0), "lacks:0"),
        (How::NoMemory, "memory"),
    ];
    for (how, word) in ends {
        let alloc = rt.alloc();
        let mut want = Blob::of(alloc, b"ct-journal 1|end 4294967295 1 0 ")?;
        want.append(word.as_bytes())?;
        want.append(b" 101 18446744073709551615|done 1|")?;
        let entry = end(u32::MAX, how, [true, false, true], u64::MAX);
        writes(
            &rt,
            alloc,
            entry,
            str::from_utf8(want.bytes()).unwrap_or("?"),
        )?;
    }
    Ok(())
}

#[test]
fn writes_each_cause(rt: HostRuntime) -> Result<(), Fail> {
    let causes = [
        (Cause::Unstarted, "unstarted"),
        (Cause::Lacks(3), "lacks:3"),
        (Cause::Fixture(12), "fixture:12"),
        (Cause::NotAvailable, "notavailable"),
        (
            Cause::BadOperation(4_294_967_295),
            "badoperation:4294967295",
        ),
        (Cause::Insufficient, "insufficient"),
        (Cause::Stopped, "stopped"),
        (Cause::Memory, "memory"),
    ];
    for (cause, word) in causes {
        let alloc = rt.alloc();
        let mut want = Blob::of(alloc, b"ct-journal 1|settle 7 ")?;
        want.append(word.as_bytes())?;
        want.append(b"|done 1|")?;
        let entry = Entry::Settle { test: 7, cause };
        writes(
            &rt,
            alloc,
            entry,
            str::from_utf8(want.bytes()).unwrap_or("?"),
        )?;
    }
    Ok(())
}

#[test]
fn writes_placements_and_stops(rt: HostRuntime) -> Result<(), Fail> {
    let alloc = rt.alloc();
    let two = start(2, Some(placed(alloc, &[0, 3])?));
    writes(&rt, alloc, two, "ct-journal 1|start 2 1 0 at 0,3|done 1|")?;
    let none = start(2, Some(placed(alloc, &[])?));
    writes(&rt, alloc, none, "ct-journal 1|start 2 1 0 at |done 1|")?;
    writes(&rt, alloc, Entry::Stop, "ct-journal 1|stop|done 1|")?;
    Ok(())
}

/// Makes two cards of one kind, and behind them a resource of another one.
fn machine(alloc: Global) -> Result<List<Resource>, NoMemory> {
    let mut resources = cards(alloc, &[4, 2])?;
    resources.push(Resource {
        kind: Name::of(alloc, b"licenses")?,
        id: Name::of(alloc, b"a")?,
        slots: 9,
    })?;
    Ok(resources)
}

fn is_on_both_cards(placement: &Placement) -> bool {
    match placement.picks.as_slice() {
        [first, second] => {
            first.id.bytes() == b"1".as_slice()
                && first.resource == 1
                && first.slots == 2
                && second.id.bytes() == b"0".as_slice()
                && second.resource == 0
                && second.slots == 1
        }
        _ => false,
    }
}

#[test]
fn completes_places_by_needs_and_resources(rt: HostRuntime) -> Result<(), Fail> {
    let alloc = rt.alloc();
    let resources = machine(alloc)?;
    let asked = needs(alloc, &[2, 1])?;
    let found = placement_at(alloc, resources.as_slice(), asked.as_slice(), &[1, 0])?;
    assert!(rt;
        found.is_some_and(|placement| is_on_both_cards(&placement)),
        "1,0"
    );
    let wrong: [&[u32]; 6] = [&[], &[0], &[0, 1, 0], &[0, 2], &[2, 0], &[0, 3]];
    for places in wrong {
        let found = placement_at(alloc, resources.as_slice(), asked.as_slice(), places)?;
        assert!(rt; found.is_none(), "{places:?}");
    }
    Ok(())
}
