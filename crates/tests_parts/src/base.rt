//! What files, sinks and ears in memory do.

use crate::rows::text_of;
use ct_base::{
    CalmFiles, CalmSink, Collect, Ear, Files, List, MemFiles, MemSink, Name, NoMemory, Pair, Sink,
};
use std::alloc::Global;
use std::process::Abort;
use std::test::Fail;

fn pairs(alloc: Global) -> Result<List<Pair>, NoMemory> {
    let mut pairs = List::new(alloc);
    for (name, value) in [(b"a", b"old"), (b"b", b"two"), (b"a", b"new")] {
        pairs.push(Pair {
            name: Name::of(alloc, name)?,
            value: Name::of(alloc, value)?,
        })?;
    }
    Ok(pairs)
}

/// Reads, looks and writes, and tells what each of the three calls came to.
fn three_calls<F: Files>(alloc: Global, files: &mut F, path: &Name) -> (Option<usize>, bool, bool) {
    let read = match files.read(alloc, path, 2) {
        Ok(Some(bytes)) => Some(bytes.bytes().len()),
        _ => None,
    };
    let seen = files.exists(alloc, path) == Ok(true);
    let wrote = files.write(alloc, path, b"xy").is_ok();
    (read, seen, wrote)
}

/// Compares the bytes that a case leads to with the wanted ones.
fn are_bytes(rt: &impl Abort, case: &[u8], bytes: &[u8], want: &[u8]) {
    assert!(rt; bytes == want, "{}: {}", text_of(case), text_of(bytes));
}

fn holds(rt: &impl Abort, held: Option<&Name>, want: &[u8]) {
    match held {
        Some(name) => are_bytes(rt, b"the path", name.bytes(), want),
        None => panic!(rt; "nothing is held"),
    }
}

/// The number of the call that fails, what the three calls come to, and what the path then holds.
type FailingCall = (u64, (Option<usize>, bool, bool), &'static [u8]);

const FAILING_CALLS: [FailingCall; 4] = [
    (0, (Some(3), true, true), b"xy"),
    (1, (None, true, true), b"xy"),
    (2, (Some(3), false, true), b"xy"),
    (3, (Some(3), true, false), b"new"),
];

/// Makes files of which one call fails.
fn failing_files(alloc: Global, number: u64) -> Result<MemFiles, NoMemory> {
    let mut fail_at = List::new(alloc);
    fail_at.push(number)?;
    Ok(MemFiles::new(pairs(alloc)?, fail_at))
}

#[test]
fn fails_the_calls_that_are_planned(rt: HostRuntime) -> Result<(), Fail> {
    let path = Name::of(rt.alloc(), b"a")?;
    for (number, want, left) in &FAILING_CALLS {
        let mut files = failing_files(rt.alloc(), *number)?;
        let got = three_calls(rt.alloc(), &mut files, &path);
        assert!(rt; got == *want, "at {number}: {got:?}");
        holds(&rt, files.held(&path), left);
    }
    Ok(())
}

#[test]
fn calm_files_never_fail(rt: HostRuntime) -> Result<(), Fail> {
    let path = Name::of(rt.alloc(), b"a")?;
    let mut files = CalmFiles::new(pairs(rt.alloc())?);
    let got = three_calls(rt.alloc(), &mut files, &path);
    assert!(rt; got == (Some(3), true, true), "{got:?}");
    holds(&rt, files.held(&path), b"xy");
    Ok(())
}

/// Puts three pieces, and tells which of them were taken.
fn three_puts<S: Sink>(sink: &mut S) -> (bool, bool, bool) {
    (
        sink.put(b"one").is_ok(),
        sink.put(b"two").is_ok(),
        sink.put(b"six").is_ok(),
    )
}

#[test]
fn fails_the_puts_that_are_planned(rt: HostRuntime) -> Result<(), Fail> {
    let mut fail_at = List::new(rt.alloc());
    fail_at.push(2)?;
    let mut sink = MemSink::new(rt.alloc(), fail_at);
    assert!(rt; three_puts(&mut sink) == (true, false, true));
    are_bytes(&rt, b"the sink", sink.written().bytes(), b"onesix");
    Ok(())
}

#[test]
fn calm_sinks_never_fail(rt: HostRuntime) {
    let mut calm = CalmSink::new(rt.alloc());
    assert!(rt; three_puts(&mut calm) == (true, true, true));
    are_bytes(&rt, b"the sink", calm.written().bytes(), b"onetwosix");
}

fn hear_twice<E: Ear>(ear: &mut E) {
    ear.hear(b"one ");
    ear.hear(b"two");
}

#[test]
fn keeps_what_it_hears(rt: HostRuntime) {
    let mut ear = Collect::new(rt.alloc());
    hear_twice(&mut ear);
    assert!(rt; !ear.short());
    are_bytes(&rt, b"the ear", ear.heard().bytes(), b"one two");
}
