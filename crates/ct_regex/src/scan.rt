ghost use Rattle.std.specs.Prelude.{◌≡◌, ◌≤◌, ◌<◌, ◌||◌, map, length, vec_len, vec_capacity};
ghost use Rattle.ct_regex.specs.Walk.{step_of};
ghost use Rattle.ct_regex.specs.Memory.{Remembers};

use crate::Regex;
use crate::memory::Memory;
use crate::program::Program;
use crate::reader::can_be_empty;
use crate::walk::{Branches, Step, walk_on};
use ct_base::NoMemory;
use std::alloc::Global;

/// How many sets of live positions a scan remembers.
const MOST_SETS: u16 = 128;

/// How many bytes a set has to lead to the next one for its place in the memory.
const WORTH: usize = 16;

/// Fewer bytes than these are looked up one by one.
const FEW_BYTES: usize = 256;

/// How many bytes are taken by walks, at most, before a set is looked up again.
const MOST_WALKS: usize = 16_384;

/// A pattern and a text that comes in pieces. In contracts `StandsFor` says which text has come.
///
/// Source: CMake manual, string(REGEX), Regex Specification.
#[derive(Drop)]
pub struct Scan {
    steps: Vec<Step>,
    memory: Memory,
    /// The set of live positions at which the scan stands.
    at: u16,
    /// Whether a match has ended, whatever bytes follow.
    found: bool,
    gain: Gain,
    /// Room for the marks of a walk.
    marks: Vec<bool>,
    /// Room for the choices that are open in a walk.
    choices: Vec<Branches>,
    ghost room: { vec_len steps ≤ vec_capacity choices },
    ghost wide: { vec_len marks ≡ memory.width },
    ghost met: { at < memory.count },
    ghost right: { Remembers (map step_of steps.items) memory },
}

impl Scan {
    ghost use Rattle.std.specs.Prelude.{ℕ, List, [], ◌∷◌, ◌++◌, IfOk, false};
    ghost use Rattle.ct_regex.specs.Tree.{Tree};
    ghost use Rattle.ct_regex.specs.TreeOf.{regex_tree};
    ghost use Rattle.ct_regex.specs.Ends.{hits};
    ghost use Rattle.ct_regex.specs.Scan.{IsScanOf, StandsFor, ScansOn};

    /// Makes a scan of the empty text. It takes here all the memory that it ever takes.
    pub fn new(alloc: Global, regex: &Regex) -> Result<Scan, NoMemory>
        ensures { IfOk result (λ scan. StandsFor (regex_tree regex.now) [] scan) }
    {
        Scan::with_room(alloc, regex, MOST_SETS)
    }

    /// Makes a scan for one text. It meets at most one set more than the text has bytes.
    pub(crate) fn of_text(alloc: Global, regex: &Regex, text: &[u8]) -> Result<Scan, NoMemory>
        ensures { IfOk result (λ scan. StandsFor (regex_tree regex.now) [] scan) }
    {
        let sets = text.len().min(MOST_SETS as usize - 2) + 2;
        Scan::with_room(alloc, regex, sets as u16)
    }

    /// Makes a scan that remembers at most `sets` sets.
    fn with_room(alloc: Global, regex: &Regex, sets: u16) -> Result<Scan, NoMemory>
        requires sets { 1 < sets }
        ensures { IfOk result (λ scan. StandsFor (regex_tree regex.now) [] scan) }
    {
        let root = regex.root();
        let last = can_be_empty(root);
        let program = Program::new(alloc, root)?;
        let memory = Memory::new(alloc, sets, &program.marks, last)?;
        let choices = Vec::with_capacity(alloc, program.steps.len())?;
        Ok(Scan {
            steps: program.steps,
            memory,
            at: 0,
            found: false,
            gain: Gain { known: 0 },
            marks: program.marks,
            choices,
        })
    }

    /// Takes the next piece of the text.
    pub fn feed(&mut self, piece: &[u8])
        ensures { (tree : Tree) (text : List ℕ) →
            StandsFor tree text self.old → StandsFor tree (text ++ piece.now) self.new }
    {
        let mut rest = piece;
        'rest: while !rest.is_empty() {
            if self.found {
                return;
            }
            rest = self.take(rest);
        }
    }

    /// Returns whether the text has a match anywhere, if it ends here. More may be fed afterwards.
    pub fn ended(&self) -> bool
        ensures { (tree : Tree) (text : List ℕ) →
            StandsFor tree text self.now → result ≡ hits tree text }
    {
        either(self.found, self.memory.last(self.at))
    }

    /// Sets the scan back to the empty text. It keeps the sets that it has met, and takes no memory.
    pub fn restart(&mut self)
        ensures { (tree : Tree) → IsScanOf tree self.old → StandsFor tree [] self.new }
    {
        self.at = 0;
        self.found = false;
    }

    /// Takes the bytes of the piece that the memory knows, and then some by walks. Returns the rest.
    fn take<'a>(&mut self, piece: &'a [u8]) -> &'a [u8]
        requires some { 0 < length piece.now }
        requires goes { self.old.found ≡ false }
        ensures less { length result.now < length piece.now }
        ensures goes_on { ScansOn self.old piece.now result.now self.new }
    {
        let (at, known) = self.memory.follow(self.at, piece);
        self.at = at;
        let rest = &piece[known..];
        if rest.is_empty() {
            return rest;
        }
        let is_full = self.memory.is_full();
        let count = self.gain.walks(known, rest.len(), is_full);
        self.walk(&rest[..count]);
        &rest[count..]
    }

    /// Takes bytes by walks over the pattern, and remembers the set that they lead to.
    fn walk(&mut self, bytes: &[u8])
        requires goes { self.old.found ≡ false }
        ensures { ScansOn self.old bytes.now [] self.new }
    {
        self.marks.copy_from_slice(self.memory.marks(self.at));
        let last = self.memory.last(self.at);
        match walk_on(&self.steps, bytes, last, &mut self.marks, &mut self.choices) {
            Some(last) => self.at = self.memory.learn(self.at, bytes, &self.marks, last),
            None => self.found = true,
        }
    }
}

/// How well the memory of a scan has served. Only speed depends on it.
#[derive(Drop)]
struct Gain {
    /// Bytes that the memory knew, less `WORTH` for each set that found no room.
    known: usize,
}

impl Gain {
    /// Returns how many of the bytes that are left to take by walks before the set that they lead to is
    /// looked up: many, if the sets of a full memory hardly ever come again.
    fn walks(&mut self, known: usize, left: usize, is_full: bool) -> usize
        requires some { 0 < left }
        ensures some { 0 < result }
        ensures within { result ≤ left }
    {
        self.known = self.known.saturating_add(known);
        if !is_full || left < FEW_BYTES {
            return 1;
        }
        if self.known < WORTH {
            return left.min(MOST_WALKS);
        }
        self.known -= WORTH;
        1
    }
}

fn either(one: bool, other: bool) -> bool
    ensures { result ≡ (one || other) }
{
    one || other
}
