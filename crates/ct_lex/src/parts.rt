ghost use Rattle.std.specs.Prelude.{◌≡◌, ◌++◌, [], OnOk, IfOk};
ghost use Rattle.ct_lex.specs.Seen.{piece_of};

use crate::call::Part;
use crate::unit::Unit;
use ct_base::{List, Name, NoMemory};
use std::alloc::Global;
use std::mem;

/// The parts of an argument so far: the complete ones, and the bytes behind them.
#[derive(Drop)]
pub struct Parts {
    pub whole: List<Part>,
    pub bytes: Vec<u8>,
}

impl Parts {
    ghost use Rattle.ct_lex.specs.Argument.{with_bytes, with_piece};
    ghost use Rattle.ct_lex.specs.Joined.{joined_parts};

    /// Makes a value without parts, with room for the one part that most arguments have.
    pub fn new(alloc: Global) -> Result<Parts, NoMemory>
        ensures { IfOk result (λ parts. (more : List Part) → joined_parts parts more ≡ more) }
    {
        Ok(Parts {
            whole: List::from_vec(Vec::with_capacity(alloc, 1)?),
            bytes: Vec::new(alloc),
        })
    }

    /// Appends a unit.
    pub fn add(&mut self, alloc: Global, unit: Unit<'_>) -> Result<(), NoMemory>
        ensures { OnOk result ((more : List Part) → joined_parts self.new more ≡ joined_parts self.old (with_piece (piece_of unit.entry) more)) }
    {
        match unit {
            Unit::Byte(byte) => self.bytes.push(byte)?,
            Unit::Semicolon => self.bytes.extend_from_slice(b"\\;")?,
            Unit::Nothing => {}
            Unit::Ref(name) => {
                self.flush(alloc)?;
                self.whole.push(Part::Ref(Name::of(alloc, name)?))?;
            }
        }
        Ok(())
    }

    /// Appends bytes that stand for themselves.
    #[tactic(auto, using(crate::proofs::RunLemmas::bytes_joined))]
    pub fn add_plain(&mut self, run: &[u8]) -> Result<(), NoMemory>
        ensures { OnOk result ((more : List Part) → joined_parts self.new more ≡ joined_parts self.old (with_bytes run.now more)) }
    {
        self.bytes.extend_from_slice(run)?;
        Ok(())
    }

    /// Makes the bytes a complete part, if there are any.
    fn flush(&mut self, alloc: Global) -> Result<(), NoMemory>
        ensures whole { OnOk result (self.new.whole ≡ joined_parts self.old []) }
        ensures empty { OnOk result (self.new.bytes.items ≡ []) }
    {
        if !self.bytes.is_empty() {
            let bytes = mem::replace(&mut self.bytes, Vec::new(alloc));
            self.whole.push(Part::Bytes(Name::from_vec(bytes)))?;
        }
        Ok(())
    }

    /// Returns the parts, with the bytes behind them as the last one.
    pub fn finish(mut self, alloc: Global) -> Result<List<Part>, NoMemory>
        ensures { IfOk result (λ parts. parts ≡ joined_parts self []) }
    {
        self.flush(alloc)?;
        let Parts { whole, bytes: _ } = self;
        Ok(whole)
    }
}
