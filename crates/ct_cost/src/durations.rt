ghost use Rattle.std.specs.Prelude.{◌≡◌, ◌++◌, ◌∷◌, [], IfOk, OnOk};
ghost use Rattle.ct_cost.specs.CostLine.{greatest_of, last_durations};
ghost use Rattle.ct_cost.specs.Text.{durations_in, durations_text, next_text};

use crate::parts::part_len;
use crate::texts::append_seconds;
use ct_base::{Blob, NoMemory, micros};
use std::alloc::{AllocError, Global};
use std::marker::Model;

/// How many durations of a name are kept. This project's choice.
const MOST_DURATIONS: usize = 8;

/// How long the last runs of a name took, in microseconds, oldest first. Contracts see the list.
#[derive(Drop)]
pub(crate) struct Durations {
    micros: Vec<u64>,
}

impl Model for Durations {
    ghost use Rattle.std.specs.Prelude.{List, ℕ, ◌≤◌, length};
    ghost use Rattle.ct_cost.specs.CostLine.{most_durations};

    ghost Value = { List ℕ };

    ghost view = { λ d. d.micros.items };

    ghost invariant = { λ d. length d.micros.items ≤ most_durations };
}

impl Clone for Durations {
    ghost is_clone = { λ one other. other ≡ one };

    fn clone(&self) -> Result<Durations, AllocError> {
        Ok(Durations {
            micros: self.micros.clone()?,
        })
    }
}

impl Durations {
    /// Makes a list of no durations.
    pub(crate) fn new(alloc: Global) -> Durations
        ensures { result ≡ [] }
    {
        Durations {
            micros: Vec::new(alloc),
        }
    }

    /// Makes a list of one duration.
    pub(crate) fn of(alloc: Global, micros: u64) -> Result<Durations, NoMemory>
        ensures { IfOk result (λ durations. durations ≡ micros ∷ []) }
    {
        let mut durations = Durations::new(alloc);
        durations.push(micros)?;
        Ok(durations)
    }

    /// Reads durations that are joined by `,`. The last eight are kept.
    pub(crate) fn read(alloc: Global, text: &[u8]) -> Result<Option<Durations>, NoMemory>
        ensures { IfOk result (λ durations. durations ≡ durations_in text.now) }
    {
        let mut durations = Durations::new(alloc);
        let mut at = 0;
        while at <= text.len() {
            let end = at + part_len(&text[at..], b',');
            let Some(micros) = micros(&text[at..end]) else {
                return Ok(None);
            };
            durations.push(micros)?;
            at = end + 1;
        }
        Ok(Some(durations))
    }

    /// Adds a duration behind the others, and keeps the last eight.
    pub(crate) fn push(&mut self, micros: u64) -> Result<(), NoMemory>
        ensures { OnOk result (self.new ≡ last_durations (self.old ++ micros ∷ [])) }
    {
        if self.micros.len() == MOST_DURATIONS {
            self.micros.remove(0);
        }
        self.micros.push(micros)?;
        Ok(())
    }

    /// Returns the greatest duration.
    pub(crate) fn greatest(&self) -> Option<u64>
        ensures { result ≡ greatest_of self.now }
    {
        self.micros.iter().copied().max()
    }

    /// Puts the durations behind the text, joined by `,`.
    pub(crate) fn append_to(&self, alloc: Global, text: &mut Blob) -> Result<(), NoMemory>
        ensures { OnOk result (text.new ≡ text.old ++ durations_text self.now) }
    {
        let Some((first, rest)) = self.micros.as_slice().split_first() else {
            return Ok(());
        };
        append_seconds(alloc, text, *first)?;
        for micros in rest {
            append_next(alloc, text, *micros)?;
        }
        Ok(())
    }
}

fn append_next(alloc: Global, text: &mut Blob, micros: u64) -> Result<(), NoMemory>
    ensures { OnOk result (text.new ≡ text.old ++ next_text micros) }
{
    text.append(b",")?;
    append_seconds(alloc, text, micros)
}
