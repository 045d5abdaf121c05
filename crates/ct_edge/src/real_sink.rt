ghost use Rattle.std.specs.Prelude.{◌≡◌, Err, IfErr, OnErr, OnOk};
ghost use Rattle.ct_edge.specs.Machine.{sink_tell};
ghost use Rattle.ct_base.specs.Outside.{HasCause};
ghost use Rattle.ct_base.specs.declared.sink.SinkFault.TheVariants as SinkCause;

use crate::transfer::write_whole;
use ct_base::{Sink, SinkFault};
use std::io;
use std::io::Write;
use std::marker::Model;

/// A writer as a sink, for example the standard output of the process.
///
/// Contracts see the writer, and how many puts failed. The standard output tells no text.
#[derive(Drop)]
pub struct RealSink<W> {
    writer: W,
    /// How many puts failed. The count stops at its last value.
    faults: u64,
}

impl<W> Model for RealSink<W> {
    ghost use Rattle.ct_edge.specs.Machine.{RealSinkValue};

    ghost Value = { RealSinkValue W };

    ghost view = { λ sink. record { writer = sink.writer; faults = sink.faults } };
}

impl<W> RealSink<W> {
    /// Makes the sink of which no put has failed.
    pub fn new(writer: W) -> RealSink<W>
        ensures writer { result.writer ≡ writer }
        ensures faults { result.faults ≡ 0 }
    {
        RealSink { writer, faults: 0 }
    }

    /// Lends the writer, with what was put so far.
    pub fn writer(&self) -> &W
        ensures { result.now ≡ self.now.writer }
    {
        &self.writer
    }

    /// Returns how many puts failed.
    pub fn faults(&self) -> u64
        ensures { result ≡ self.now.faults }
    {
        self.faults
    }

    /// Returns the result of a put, and counts the put if it failed.
    fn count(&mut self, outcome: io::Result<()>) -> Result<(), SinkFault>
        ensures ok { OnOk outcome (OnOk result (self.new ≡ self.old)) }
        ensures failed { OnErr outcome (result ≡ Err SinkCause.Failed) }
        ensures cause { HasCause SinkCause.Failed self.old.faults self.new.faults result }
        ensures kept { self.new.writer ≡ self.old.writer }
    {
        if outcome.is_ok() {
            return Ok(());
        }
        self.faults = self.faults.saturating_add(1);
        Err(SinkFault::Failed)
    }
}

impl<W: Write> Sink for RealSink<W> {
    ghost tells = { λ sink. sink_tell (W.contents sink.writer) sink.faults };

    fn put(&mut self, piece: &[u8]) -> Result<(), SinkFault> {
        let outcome = write_whole(&mut self.writer, piece);
        self.count(outcome)
    }
}
