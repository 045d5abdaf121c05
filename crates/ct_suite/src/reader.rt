ghost use Rattle.std.specs.Prelude.{◌≡◌, ◌<◌, ◌≤◌, ◌++◌, ◌∷◌, [], ◌==◌, IfErr, OnOk, false, true, filter, length, map};
ghost use Rattle.std.specs.List.{list_all, prefix_len};
ghost use Rattle.ct_base.specs.Bytes.{semicolon};
ghost use Rattle.ct_base.specs.Entries.{entries_of, is_entry};
ghost use Rattle.ct_lex.specs.Next.{arg_of};
ghost use Rattle.ct_suite.specs.Values.{bare, argument_text, part_text, values_by};
ghost use Rattle.ct_suite.specs.Readers.{IsAtRest, IsReaderWithin, Releases, StopsFor, StopsIf, TakesEntries, entries_with, is_inner};
ghost use Rattle.ct_suite.specs.declared.limits.ValueLimits.{ValueLimits};

use crate::count::raised;
use crate::fault::ValueFault;
use crate::limits::ValueLimits;
use crate::table::Table;
use crate::value::{Value, value_text};
use ct_base::{List, Name, NoMemory};
use ct_lex::{Arg, ArgKind, NextArg, Part};
use std::alloc::Global;
use std::mem;

/// The values of a command so far, and the part of the next one that was read.
///
/// Reading stops once a value, or all values together, are too long. So it takes no more memory
/// than the limits allow.
#[derive(Drop)]
pub(crate) struct Reader {
    pub(crate) values: List<Value>,
    /// How many bytes the values have.
    pub(crate) bytes: u64,
    /// The part of the next value that was read.
    pub(crate) text: Vec<u8>,
    /// Whether a backslash is held back behind that text: the next byte decides what it stands for.
    pub(crate) held: bool,
}

impl Reader {
    /// Makes a reader that has read nothing.
    pub(crate) fn new(alloc: Global) -> Reader
        ensures rest { (limits : ValueLimits) → IsAtRest limits result }
        ensures values { result.values ≡ [] }
    {
        Reader {
            values: List::new(alloc),
            bytes: 0,
            text: Vec::new(alloc),
            held: false,
        }
    }

    /// Reads the values of one more argument. The bytes of an argument that is lent are copied
    /// once, to where they stay.
    pub(crate) fn take_next(
        &mut self,
        alloc: Global,
        limits: &ValueLimits,
        table: &Table,
        next: NextArg<'_>,
    ) -> Result<(), ValueFault>
        requires { IsAtRest limits.now self.old }
        ensures rest { OnOk result (IsAtRest limits.now self.new) }
        ensures values { OnOk result (self.new.values ≡ self.old.values ++ values_by (arg_of next.entry).kind (argument_text table.now (arg_of next.entry).parts)) }
        ensures stopped { IfErr result (StopsFor limits.now (self.old.values ++ values_by (arg_of next.entry).kind (argument_text table.now (arg_of next.entry).parts))) }
    {
        match next {
            NextArg::Run(kind, run) => self.take_lent(alloc, limits, kind, run),
            NextArg::Made(arg) => self.take(alloc, limits, table, arg),
        }
    }

    /// Reads the values of an argument whose text is these bytes.
    fn take_lent(
        &mut self,
        alloc: Global,
        limits: &ValueLimits,
        kind: ArgKind,
        run: &[u8],
    ) -> Result<(), ValueFault>
        requires { IsAtRest limits.now self.old }
        ensures rest { OnOk result (IsAtRest limits.now self.new) }
        ensures values { OnOk result (self.new.values ≡ self.old.values ++ values_by kind run.now) }
        ensures stopped { IfErr result (StopsFor limits.now (self.old.values ++ values_by kind run.now)) }
    {
        match kind {
            ArgKind::Unquoted => self.take_lent_entries(alloc, limits, run),
            ArgKind::Bracket => self.take_lent_whole(alloc, limits, run),
            ArgKind::Quoted => self.take_lent_whole(alloc, limits, run),
        }
    }

    /// Reads the value of a quoted argument or of a bracket argument whose text is these bytes.
    fn take_lent_whole(
        &mut self,
        alloc: Global,
        limits: &ValueLimits,
        run: &[u8],
    ) -> Result<(), ValueFault>
        requires { IsAtRest limits.now self.old }
        ensures rest { OnOk result (IsAtRest limits.now self.new) }
        ensures values { OnOk result (self.new.values ≡ self.old.values ++ record { text = run.now; unquoted = false } ∷ []) }
        ensures stopped { IfErr result (StopsFor limits.now (self.old.values ++ record { text = run.now; unquoted = false } ∷ [])) }
    {
        join_text(limits, &mut self.text, run)?;
        self.end_value(alloc, limits, false)
    }

    /// Reads the values of an unquoted argument whose text is these bytes.
    fn take_lent_entries(
        &mut self,
        alloc: Global,
        limits: &ValueLimits,
        run: &[u8],
    ) -> Result<(), ValueFault>
        requires { IsAtRest limits.now self.old }
        ensures rest { OnOk result (IsAtRest limits.now self.new) }
        ensures values { OnOk result (self.new.values ≡ self.old.values ++ map bare (entries_of run.now)) }
        ensures stopped { IfErr result (StopsFor limits.now (self.old.values ++ map bare (entries_of run.now))) }
    {
        self.take_piece(alloc, limits, run)?;
        self.end_entries(alloc, limits)
    }

    /// Reads the values of an argument that was made.
    fn take(
        &mut self,
        alloc: Global,
        limits: &ValueLimits,
        table: &Table,
        arg: Arg,
    ) -> Result<(), ValueFault>
        requires { IsAtRest limits.now self.old }
        ensures rest { OnOk result (IsAtRest limits.now self.new) }
        ensures values { OnOk result (self.new.values ≡ self.old.values ++ values_by arg.kind (argument_text table.now arg.parts)) }
        ensures stopped { IfErr result (StopsFor limits.now (self.old.values ++ values_by arg.kind (argument_text table.now arg.parts))) }
    {
        let Arg { kind, parts } = arg;
        match kind {
            ArgKind::Unquoted => self.take_entries(alloc, limits, table, parts),
            ArgKind::Bracket => self.take_whole(alloc, limits, table, parts),
            ArgKind::Quoted => self.take_whole(alloc, limits, table, parts),
        }
    }

    /// Reads the value of a quoted argument or of a bracket argument.
    fn take_whole(
        &mut self,
        alloc: Global,
        limits: &ValueLimits,
        table: &Table,
        parts: List<Part>,
    ) -> Result<(), ValueFault>
        requires { IsAtRest limits.now self.old }
        ensures rest { OnOk result (IsAtRest limits.now self.new) }
        ensures values { OnOk result (self.new.values ≡ self.old.values ++ record { text = argument_text table.now parts; unquoted = false } ∷ []) }
        ensures stopped { IfErr result (StopsFor limits.now (self.old.values ++ record { text = argument_text table.now parts; unquoted = false } ∷ [])) }
    {
        self.join(limits, table, parts)?;
        self.end_value(alloc, limits, false)
    }

    /// Appends the texts of an argument's parts to what was read.
    fn join(
        &mut self,
        limits: &ValueLimits,
        table: &Table,
        parts: List<Part>,
    ) -> Result<(), ValueFault>
        requires { IsReaderWithin limits.now self.old }
        ensures within { OnOk result (IsReaderWithin limits.now self.new) }
        ensures text { OnOk result (self.new.text.items ≡ self.old.text.items ++ argument_text table.now parts) }
        ensures values { self.new.values ≡ self.old.values }
        ensures held { self.new.held ≡ self.old.held }
        ensures stopped { IfErr result (StopsIf (limits.now.value_bytes < length (self.old.text.items ++ argument_text table.now parts))) }
    {
        for part in parts.into_vec() {
            join_part(limits, table, &mut self.text, part)?;
        }
        Ok(())
    }

    /// Reads the values of an unquoted argument.
    fn take_entries(
        &mut self,
        alloc: Global,
        limits: &ValueLimits,
        table: &Table,
        parts: List<Part>,
    ) -> Result<(), ValueFault>
        requires { IsAtRest limits.now self.old }
        ensures rest { OnOk result (IsAtRest limits.now self.new) }
        ensures values { OnOk result (self.new.values ≡ self.old.values ++ map bare (entries_of (argument_text table.now parts))) }
        ensures stopped { IfErr result (StopsFor limits.now (self.old.values ++ map bare (entries_of (argument_text table.now parts)))) }
    {
        self.take_parts(alloc, limits, table, parts)?;
        self.end_entries(alloc, limits)
    }

    /// Ends the last entry of an unquoted argument.
    fn end_entries(&mut self, alloc: Global, limits: &ValueLimits) -> Result<(), ValueFault>
        requires { IsReaderWithin limits.now self.old }
        ensures rest { OnOk result (IsAtRest limits.now self.new) }
        ensures values { OnOk result (self.new.values ≡ entries_with self.old []) }
        ensures stopped { IfErr result (StopsFor limits.now (entries_with self.old [])) }
    {
        self.release(limits)?;
        self.end_entry(alloc, limits)
    }

    fn take_parts(
        &mut self,
        alloc: Global,
        limits: &ValueLimits,
        table: &Table,
        parts: List<Part>,
    ) -> Result<(), ValueFault>
        requires { IsReaderWithin limits.now self.old }
        ensures { TakesEntries limits.now self.old self.new (argument_text table.now parts) result }
    {
        for part in parts.into_vec() {
            self.take_part(alloc, limits, table, part)?;
        }
        Ok(())
    }

    /// Reads the text of one part of an unquoted argument.
    fn take_part(
        &mut self,
        alloc: Global,
        limits: &ValueLimits,
        table: &Table,
        part: Part,
    ) -> Result<(), ValueFault>
        requires { IsReaderWithin limits.now self.old }
        ensures { TakesEntries limits.now self.old self.new (part_text table.now part) result }
    {
        match part {
            Part::Bytes(bytes) => self.take_bytes(alloc, limits, bytes),
            Part::Ref(name) => self.take_piece(alloc, limits, value_text(table, &name)),
        }
    }

    /// Reads more bytes of an unquoted argument, without a copy where they are a run.
    fn take_bytes(
        &mut self,
        alloc: Global,
        limits: &ValueLimits,
        bytes: Name,
    ) -> Result<(), ValueFault>
        requires { IsReaderWithin limits.now self.old }
        ensures { TakesEntries limits.now self.old self.new bytes result }
    {
        if bytes.bytes().is_empty() || !are_inner(bytes.bytes()) {
            return self.take_piece(alloc, limits, bytes.bytes());
        }
        self.take_own_run(limits, bytes)
    }

    /// Reads a run as `take_run` does, without a copy if it begins an entry.
    fn take_own_run(&mut self, limits: &ValueLimits, run: Name) -> Result<(), ValueFault>
        requires some { 0 < length run }
        requires inner { list_all is_inner run ≡ true }
        requires within { IsReaderWithin limits.now self.old }
        ensures { TakesEntries limits.now self.old self.new run result }
    {
        self.release(limits)?;
        join_own(limits, &mut self.text, run)
    }

    fn take_piece(
        &mut self,
        alloc: Global,
        limits: &ValueLimits,
        piece: &[u8],
    ) -> Result<(), ValueFault>
        requires { IsReaderWithin limits.now self.old }
        ensures { TakesEntries limits.now self.old self.new piece.now result }
    {
        let mut at = 0;
        while at < piece.len() {
            let rest = &piece[at..];
            let inner = inner_len(rest);
            if inner == 0 {
                self.take_byte(alloc, limits, piece[at])?;
                at += 1;
            } else {
                self.take_run(limits, &rest[..inner])?;
                at += inner;
            }
        }
        Ok(())
    }

    /// Reads a run of an unquoted argument: each of its bytes belongs to an entry wherever it stands.
    fn take_run(&mut self, limits: &ValueLimits, run: &[u8]) -> Result<(), ValueFault>
        requires some { 0 < length run.now }
        requires inner { list_all is_inner run.now ≡ true }
        requires within { IsReaderWithin limits.now self.old }
        ensures { TakesEntries limits.now self.old self.new run.now result }
    {
        self.release(limits)?;
        join_text(limits, &mut self.text, run)
    }

    /// Reads one more byte of an unquoted argument.
    fn take_byte(&mut self, alloc: Global, limits: &ValueLimits, byte: u8) -> Result<(), ValueFault>
        requires { IsReaderWithin limits.now self.old }
        ensures { TakesEntries limits.now self.old self.new (byte ∷ []) result }
    {
        if byte != b';' {
            self.release(limits)?;
            return self.take_other(limits, byte);
        }
        if self.held {
            self.held = false;
            return join_text(limits, &mut self.text, &[byte]);
        }
        self.end_entry(alloc, limits)
    }

    /// Reads one more byte of an unquoted argument, which ends no entry.
    fn take_other(&mut self, limits: &ValueLimits, byte: u8) -> Result<(), ValueFault>
        requires free { self.old.held ≡ false }
        requires other { (byte == semicolon) ≡ false }
        requires within { IsReaderWithin limits.now self.old }
        ensures { TakesEntries limits.now self.old self.new (byte ∷ []) result }
    {
        if byte == b'\\' {
            self.held = true;
            return Ok(());
        }
        join_text(limits, &mut self.text, &[byte])
    }

    /// Reads the backslash that is held back as a byte of the entry, since no `;` comes behind it.
    fn release(&mut self, limits: &ValueLimits) -> Result<(), ValueFault>
        requires { IsReaderWithin limits.now self.old }
        ensures { Releases limits.now self.old self.new result }
    {
        if !self.held {
            return Ok(());
        }
        self.held = false;
        join_text(limits, &mut self.text, b"\\")
    }

    /// Ends an entry, which is a value if it is not empty.
    fn end_entry(&mut self, alloc: Global, limits: &ValueLimits) -> Result<(), ValueFault>
        requires { IsReaderWithin limits.now self.old }
        ensures within { OnOk result (IsReaderWithin limits.now self.new) }
        ensures values { OnOk result (self.new.values ≡ self.old.values ++ map bare (filter is_entry (self.old.text.items ∷ []))) }
        ensures empty { OnOk result (self.new.text.items ≡ []) }
        ensures held { OnOk result (self.new.held ≡ self.old.held) }
        ensures stopped { IfErr result (StopsFor limits.now (self.old.values ++ map bare (filter is_entry (self.old.text.items ∷ [])))) }
    {
        if self.text.is_empty() {
            return Ok(());
        }
        self.end_value(alloc, limits, true)
    }

    /// Appends what was read to the values.
    fn end_value(
        &mut self,
        alloc: Global,
        limits: &ValueLimits,
        unquoted: bool,
    ) -> Result<(), ValueFault>
        requires { IsReaderWithin limits.now self.old }
        ensures within { OnOk result (IsReaderWithin limits.now self.new) }
        ensures values { OnOk result (self.new.values ≡ self.old.values ++ record { text = self.old.text.items; unquoted = unquoted } ∷ []) }
        ensures empty { OnOk result (self.new.text.items ≡ []) }
        ensures held { OnOk result (self.new.held ≡ self.old.held) }
        ensures stopped { IfErr result (StopsFor limits.now (self.old.values ++ record { text = self.old.text.items; unquoted = unquoted } ∷ [])) }
    {
        let len = self.text.len() as u64;
        let Some(bytes) = raised(limits.all_value_bytes, self.bytes, len) else {
            return Err(ValueFault::TooLong);
        };
        let text = Name::from_vec(mem::replace(&mut self.text, Vec::new(alloc)));
        self.values.push(Value { text, unquoted })?;
        self.bytes = bytes;
        Ok(())
    }
}

/// Returns whether a byte belongs to an entry wherever it stands in an unquoted argument.
fn is_inner(byte: u8) -> bool
    ensures { result ≡ is_inner byte }
{
    !(byte == b';' || byte == b'\\')
}

/// Returns whether each of these bytes belongs to an entry wherever it stands.
fn are_inner(bytes: &[u8]) -> bool
    ensures { result ≡ list_all is_inner bytes.now }
{
    bytes.iter().all(|byte| is_inner(*byte))
}

/// Counts the bytes at the front of a text that belong to an entry wherever they stand.
fn inner_len(text: &[u8]) -> usize
    ensures count { result ≡ prefix_len is_inner text.now }
    ensures within { result ≤ length text.now }
{
    text.iter().take_while(|byte| is_inner(**byte)).count()
}

/// Appends the text of a part to a text, unless the value would be too long.
fn join_part(
    limits: &ValueLimits,
    table: &Table,
    text: &mut Vec<u8>,
    part: Part,
) -> Result<(), ValueFault>
    ensures joined { OnOk result (text.new.items ≡ text.old.items ++ part_text table.now part) }
    ensures within { OnOk result (length text.new.items ≤ limits.now.value_bytes) }
    ensures stopped { IfErr result (StopsIf (limits.now.value_bytes < length (text.old.items ++ part_text table.now part))) }
{
    match part {
        Part::Bytes(bytes) => join_own(limits, text, bytes),
        Part::Ref(name) => join_text(limits, text, value_text(table, &name)),
    }
}

/// Appends a piece to a text as `join_text` does, without a copy if the text is empty.
fn join_own(limits: &ValueLimits, text: &mut Vec<u8>, piece: Name) -> Result<(), ValueFault>
    ensures joined { OnOk result (text.new.items ≡ text.old.items ++ piece) }
    ensures within { OnOk result (length text.new.items ≤ limits.now.value_bytes) }
    ensures stopped { IfErr result (StopsIf (limits.now.value_bytes < length (text.old.items ++ piece))) }
{
    if !text.is_empty() {
        return join_text(limits, text, piece.bytes());
    }
    if raised(limits.value_bytes, 0, piece.bytes().len() as u64).is_none() {
        return Err(ValueFault::TooLong);
    }
    *text = piece.into_vec();
    Ok(())
}

/// Appends a piece to a text, unless the value would be too long.
fn join_text(limits: &ValueLimits, text: &mut Vec<u8>, piece: &[u8]) -> Result<(), ValueFault>
    ensures joined { OnOk result (text.new.items ≡ text.old.items ++ piece.now) }
    ensures within { OnOk result (length text.new.items ≤ limits.now.value_bytes) }
    ensures stopped { IfErr result (StopsIf (limits.now.value_bytes < length (text.old.items ++ piece.now))) }
{
    if raised(limits.value_bytes, text.len() as u64, piece.len() as u64).is_none() {
        return Err(ValueFault::TooLong);
    }
    Ok(extend(text, piece)?)
}

fn extend(text: &mut Vec<u8>, piece: &[u8]) -> Result<(), NoMemory>
    ensures { OnOk result (text.new.items ≡ text.old.items ++ piece.now) }
{
    text.extend_from_slice(piece)?;
    Ok(())
}
