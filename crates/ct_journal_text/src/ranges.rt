ghost use Rattle.std.specs.Option.{option_copied};
ghost use Rattle.std.specs.Prelude.{◌<◌, ◌^◌, Some, option_map};
ghost use Rattle.ct_journal_text.specs.Journal.{CauseFits, EntriesFit, EntryFits, HowFits, IsOf32Bits, PlacesFit, noted, places_of_placement};

use ct_alloc::Placement;
use ct_history::Entry;
use ct_verdict::{Cause, How};

/// States in its contract that the numbers of entries are in the ranges of their types; it changes nothing.
///
/// Source: this project's choice.
pub fn hand_out_ranges(entries: &[Entry])
    ensures { EntriesFit entries.now }
{
    for entry in entries {
        hand_out_entry(entry);
    }
}

fn hand_out_entry(entry: &Entry)
    ensures { EntryFits (noted entry.now) }
{
    match entry {
        Entry::Start {
            test,
            attempt,
            worker,
            placement,
        } => {
            let _numbers = (*test, *attempt, *worker);
            hand_out_places(placement.as_ref());
        }
        Entry::End {
            test,
            attempt,
            worker,
            seen,
        } => {
            let _numbers = (*test, *attempt, *worker);
            hand_out_how(seen.how);
            hand_out_micros(seen.micros);
        }
        Entry::Settle { test, cause } => {
            let _number = *test;
            hand_out_cause(*cause);
        }
        Entry::Stop => {}
    }
}

fn hand_out_places(placement: Option<&Placement>)
    ensures { PlacesFit (option_map places_of_placement (option_copied placement.entry)) }
{
    if let Some(placement) = placement {
        hand_out_picks(placement);
    }
}

fn hand_out_picks(placement: &Placement)
    ensures { PlacesFit (Some (places_of_placement placement.now)) }
{
    for pick in placement.picks.as_slice() {
        hand_out_place(pick.resource);
    }
}

fn hand_out_place(place: u32)
    ensures { IsOf32Bits place }
{
    let _place = place;
}

fn hand_out_how(how: How)
    ensures { HowFits how }
{
    match how {
        How::Exited(code) => {
            let _code = code;
        }
        How::Lacks(place) => {
            let _place = place;
        }
        How::Signalled | How::TimedOut | How::NotStarted | How::NoMemory => {}
    }
}

fn hand_out_micros(micros: u64)
    ensures { micros < 2 ^ 64 }
{
    let _micros = micros;
}

fn hand_out_cause(cause: Cause)
    ensures { CauseFits cause }
{
    match cause {
        Cause::Lacks(number) | Cause::Fixture(number) | Cause::BadOperation(number) => {
            let _number = number;
        }
        Cause::Unstarted
        | Cause::NotAvailable
        | Cause::Insufficient
        | Cause::Stopped
        | Cause::Memory => {}
    }
}
