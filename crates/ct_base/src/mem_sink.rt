ghost use Rattle.std.specs.Prelude.{◌≡◌, ◌∷◌, Some, None, []};
ghost use Rattle.ct_base.specs.Memory.{IsPut, no_calls, told_of};
ghost use Rattle.ct_base.specs.Outside.{Puts, PutsEach};

use crate::calls::Calls;
use crate::{Blob, List, NoMemory, Sink, SinkFault};
use std::alloc::Global;
use std::marker::Model;

/// A sink in memory, in which planned puts fail. It keeps all bytes as one text, and each piece.
#[derive(Debug, Drop)]
pub struct MemSink {
    written: Blob,
    pieces: Vec<Blob>,
    alloc: Global,
    counts: Calls,
}

impl Model for MemSink {
    ghost use Rattle.ct_base.specs.Memory.{MemSinkValue};

    ghost Value = { MemSinkValue };

    ghost view = { λ s. record { written = s.written; pieces = s.pieces.items; counts = s.counts } };
}

impl MemSink {
    /// Makes an empty sink. The puts whose numbers, counted from 1, are in `fail_at` fail and write nothing.
    pub fn new(alloc: Global, fail_at: List<u64>) -> MemSink
        ensures { result ≡ record { written = []; pieces = []; counts = no_calls fail_at } }
    {
        MemSink {
            written: Blob::new(alloc),
            pieces: Vec::new(alloc),
            alloc,
            counts: Calls::new(fail_at),
        }
    }

    pub fn written(&self) -> &Blob
        ensures { result.now ≡ self.now.written }
    {
        &self.written
    }

    /// Lends the pieces that were taken, one for each put that passed.
    pub fn pieces(&self) -> &[Blob]
        ensures { result.now ≡ self.now.pieces }
    {
        self.pieces.as_slice()
    }
}

impl Sink for MemSink {
    ghost tells = { told_of };

    fn put(&mut self, piece: &[u8]) -> Result<(), SinkFault>
        ensures puts { Puts piece.now (told_of self.old) (told_of self.new) result }
        ensures each { PutsEach (piece.now ∷ []) (told_of self.old) (told_of self.new) result }
        ensures planned { IsPut piece.now self.old self.new result }
    {
        if self.counts.is_due() {
            self.counts.fail();
            return Err(SinkFault::Failed);
        }
        let kept = Blob::of(self.alloc, piece)?;
        self.pieces.reserve(1).map_err(NoMemory::from)?;
        self.written.append(piece)?;
        self.pieces.push_reserved(kept);
        self.counts.pass();
        Ok(())
    }
}

/// A sink in memory that fails only for want of memory.
#[derive(Debug, Drop)]
pub struct CalmSink {
    written: Blob,
}

impl Model for CalmSink {
    ghost use Rattle.std.specs.Prelude.{List, ℕ};

    ghost Value = { List ℕ };

    ghost view = { λ s. s.written };
}

impl CalmSink {
    /// Makes an empty sink.
    pub fn new(alloc: Global) -> CalmSink
        ensures { result ≡ [] }
    {
        CalmSink {
            written: Blob::new(alloc),
        }
    }

    pub fn written(&self) -> &Blob
        ensures { result.now ≡ self.now }
    {
        &self.written
    }
}

impl Sink for CalmSink {
    ghost tells = { λ sink. record { written = Some sink; pieces = None; faults = 0 } };

    fn put(&mut self, piece: &[u8]) -> Result<(), SinkFault> {
        Ok(self.written.append(piece)?)
    }
}
