//! What is read and written where one byte comes or goes at a time, a call fails, or nothing comes any more; and which
//! required file is missing.

use crate::doubles::{Drip, Sip};
use crate::rows::{asked_and_wanted, cell, expect, limit, names, number, text};
use ct_base::{Blob, Collect, FilesFault, List, MemFiles, Name, NoMemory, Pair, Sink};
use ct_edge::{Keep, Limit, RealSink, Spool, StartFault, first_missing, read_both, read_up_to};
use std::alloc::Global;
use std::fs;
use std::os::fd::{AsRawFd, RawFd};
use std::test::Fail;

/// How many bytes of `hello` can be read, and how many are asked for. Then what is read, which is
/// at most one byte more, or the fault.
const READS: &str = "\
9 9 is hello
9 3 is hell
4 3 is hell
4 9 is a fault
0 9 is a fault
";

/// How many bytes an output takes, and whether it then fails or takes nothing. Then whether `hello`
/// is put, what of it is taken, and how many puts failed.
const PUTS: &str = "\
9 fails is put [hello] 0
5 stops is put [hello] 0
3 stops is a fault [hel] 1
3 fails is a fault [hel] 1
0 fails is a fault [] 1
";

/// How many bytes of `hello` can be read, whether an end comes behind them, and
/// the limit in microseconds. Then what is told of this output beside one of
/// `no`, what is heard, and what is kept.
const OUTPUTS: &str = "\
9 ends none is whole [hello] [no]
9 ends 60000000 is whole [hello] [no]
9 ends 0 is cut [] []
9 dries 20000 is cut [hello] [no]
3 ends none is a fault [hel] [no]
1 ends none is a fault [h] [n]
";

/// How many bytes stay in memory, and the pieces that are kept; the others go to a file.
const KEPT: &str = "\
9 one,two
4 one,two,three
4 one,two,x
3 one,two,three
0 one,two
0 one
";

/// The look that fails, and the required files, where only a and b are
/// there. Then the place that is found.
const LOOKS: &str = "\
0 a b a is None
0 a x y is Some(1)
0 x is Some(0)
2 a b a is Some(1)
";

fn drip(left: &'static [u8], good: u64, dries: bool, ready: RawFd) -> Drip {
    Drip {
        left,
        good,
        dries,
        ready,
    }
}

#[test]
fn reads_on_after_a_short_read_and_fails_in_mid_stream(rt: HostRuntime) -> Result<(), Fail> {
    for row in READS.lines() {
        is_read(rt.alloc(), row)?;
    }
    Ok(())
}

fn is_read(alloc: Global, row: &str) -> Result<(), Fail> {
    let (asked, want) = asked_and_wanted(row);
    let (good, most) = cell(asked);
    let mut source = drip(b"hello", number(good), false, -1);
    match read_up_to(alloc, &mut source, number(most)) {
        Ok(bytes) => expect(row, text(&bytes), want),
        Err(fault) => expect(row, told_of(fault), want),
    }
}

fn told_of(fault: FilesFault) -> &'static str {
    match fault {
        FilesFault::Failed => "a fault",
        FilesFault::NoMemory => "no memory",
    }
}

#[test]
fn writes_on_after_a_short_write_and_counts_each_fault(rt: HostRuntime) -> Result<(), Fail> {
    for row in PUTS.lines() {
        is_put(rt.alloc(), row)?;
    }
    Ok(())
}

fn is_put(alloc: Global, row: &str) -> Result<(), Fail> {
    let (asked, want) = asked_and_wanted(row);
    let told = put(alloc, asked)?;
    expect(row, told.as_str(), want)
}

fn put(alloc: Global, asked: &str) -> Result<String, NoMemory> {
    let (good, end) = cell(asked);
    let mut sink = RealSink::new(Sip {
        taken: Blob::new(alloc),
        good: number(good),
        fails: end == "fails",
    });
    let answer = if sink.put(b"hello").is_ok() {
        "put"
    } else {
        "a fault"
    };
    told_put(alloc, answer, &sink)
}

fn told_put(alloc: Global, answer: &str, sink: &RealSink<Sip>) -> Result<String, NoMemory> {
    let taken = text(&sink.writer().taken);
    Ok(format!(in alloc; "{answer} [{taken}] {}", sink.faults())?)
}

#[test]
fn reads_both_to_the_end_or_the_limit_or_the_fault(rt: HostRuntime) -> Result<(), Fail> {
    let file = fs::File::open(&rt, "/dev/null")?;
    are_read(rt, file.as_raw_fd())
}

fn are_read(rt: HostRuntime, ready: RawFd) -> Result<(), Fail> {
    for row in OUTPUTS.lines() {
        let (asked, want) = asked_and_wanted(row);
        let told = read(rt, asked, ready)?;
        expect(row, told.as_str(), want)?;
    }
    Ok(())
}

fn read(rt: HostRuntime, asked: &str, ready: RawFd) -> Result<String, Fail> {
    let (good, asked) = cell(asked);
    let (end, micros) = cell(asked);
    let limit = Limit::from_now(&rt, limit(micros))?;
    let mut output = drip(b"hello", number(good), end == "dries", ready);
    let mut errors = drip(b"no", 9, false, ready);
    let mut ear = Collect::new(rt.alloc());
    let mut kept = Blob::new(rt.alloc());
    let whole = read_both(&rt, &limit, &mut output, &mut errors, &mut ear, &mut kept);
    Ok(told_read(rt.alloc(), whole, ear.heard(), &kept)?)
}

fn told_read(
    alloc: Global,
    whole: Result<bool, StartFault>,
    heard: &Blob,
    kept: &Blob,
) -> Result<String, NoMemory> {
    let end = match whole {
        Ok(true) => "whole",
        Ok(false) => "cut",
        Err(_) => "a fault",
    };
    Ok(format!(in alloc; "{end} [{}] [{}]", text(heard), text(kept))?)
}

#[test]
fn hands_on_what_it_kept_in_order(rt: HostRuntime) -> Result<(), Fail> {
    for row in KEPT.lines() {
        let (most, pieces) = cell(row);
        let mut ear = Collect::new(rt.alloc());
        hand_on(rt, number(most) as usize, pieces, &mut ear)?;
        let wanted = whole_of(rt.alloc(), pieces)?;
        expect(row, text(ear.heard()), wanted.as_str())?;
    }
    Ok(())
}

/// Keeps the pieces, so many bytes of them in memory, and hands them on.
fn hand_on(rt: HostRuntime, most: usize, pieces: &str, ear: &mut Collect) -> Result<(), Fail> {
    let mut spool = Spool::new(rt, rt.alloc(), most);
    for piece in pieces.split(',') {
        spool.keep(piece.as_bytes())?;
    }
    Ok(spool.hand_on(ear)?)
}

/// Puts the pieces together.
fn whole_of(alloc: Global, pieces: &str) -> Result<String, NoMemory> {
    let mut whole = String::new(alloc);
    for piece in pieces.split(',') {
        whole.push_str(piece)?;
    }
    Ok(whole)
}

#[test]
fn finds_the_first_file_that_is_missing(rt: HostRuntime) -> Result<(), Fail> {
    for row in LOOKS.lines() {
        let (asked, want) = asked_and_wanted(row);
        let told = looked(rt.alloc(), asked)?;
        expect(row, told.as_str(), want)?;
    }
    Ok(())
}

fn looked(alloc: Global, asked: &str) -> Result<String, NoMemory> {
    let (failing, required) = cell(asked);
    let required = names(alloc, required, ' ')?;
    let mut files = files(alloc, number(failing))?;
    let place = first_missing(alloc, &mut files, required.as_slice())?;
    Ok(format!(in alloc; "{place:?}")?)
}

/// Makes files of which a and b are there, and of which one look fails.
fn files(alloc: Global, failing: u64) -> Result<MemFiles, NoMemory> {
    let mut held = List::new(alloc);
    for name in ["a", "b"] {
        held.push(Pair {
            name: Name::of(alloc, name.as_bytes())?,
            value: Name::of(alloc, b"")?,
        })?;
    }
    let mut fail_at = List::new(alloc);
    fail_at.push(failing)?;
    Ok(MemFiles::new(held, fail_at))
}
