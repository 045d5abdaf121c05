ghost use Rattle.std.specs.Prelude.{◌≡◌, ◌+◌, ◌≤◌, take, length, is_some, option_map, None, Some, true, false, IsErrOf, IfOk, IfSome, OnOk, OnErr, ◌∷◌, ◌++◌, []};
ghost use Rattle.std.specs.Option.{option_copied};
ghost use Rattle.ct_base.specs.Memory.{FailsAsDue, IsCall, held_by, is_due, no_calls, passed, told_by, with_pair};
ghost use Rattle.ct_base.specs.Outside.{HasCause, LooksAt, Makes, WritesTo};
ghost use Rattle.ct_base.specs.declared.file_call.FileCall.TheVariants as call;

use crate::calls::Calls;
use crate::{Blob, FileCall, Files, FilesFault, List, Name, NoMemory, Pair};
use std::alloc::Global;
use std::marker::Model;

/// Files in memory, on which planned calls fail, and which keep each call.
#[derive(Debug, Drop)]
pub struct MemFiles {
    pairs: List<Pair>,
    counts: Calls,
    refused: Option<Name>,
    made: Vec<FileCall>,
}

impl Model for MemFiles {
    ghost use Rattle.ct_base.specs.Memory.{MemFilesValue};

    ghost Value = { MemFilesValue };

    ghost view = { λ f. record { pairs = f.pairs; counts = f.counts; refused = f.refused; made = f.made.items } };
}

impl MemFiles {
    /// Makes files that hold these pairs of path and content; if a path has several pairs, the last
    /// one counts. The calls whose numbers, counted from 1, are in `fail_at` fail and change nothing.
    pub fn new(held: List<Pair>, fail_at: List<u64>) -> MemFiles
        ensures { result ≡ record { pairs = held; counts = no_calls fail_at; refused = None; made = [] } }
    {
        let pairs = held.into_vec();
        let made = Vec::new(*pairs.allocator());
        MemFiles {
            pairs: List::from_vec(pairs),
            counts: Calls::new(fail_at),
            refused: None,
            made,
        }
    }

    /// Lends what a path holds.
    pub fn held(&self, path: &Name) -> Option<&Name>
        ensures { option_copied result ≡ held_by self.now.pairs path.now }
    {
        last_value(self.pairs.as_slice(), path)
    }

    /// Lends the calls that were made, in order. One for which memory was wanting is not among them.
    pub fn made(&self) -> &[FileCall]
        ensures { result.now ≡ self.now.made }
    {
        self.made.as_slice()
    }

    /// Fails the call, counts it and keeps it, if it is due to fail. If not, returns it.
    fn admit(&mut self, alloc: Global, call: FileCall) -> Result<FileCall, FilesFault>
        ensures same { IfOk result (λ admitted. admitted ≡ call) }
        ensures kept { OnOk result (self.new ≡ self.old) }
        ensures due { OnOk result (is_due self.old.counts ≡ false) }
        ensures fails { IsErrOf result FilesFault.Failed → FailsAsDue call self.old self.new }
        ensures unchanged { IsErrOf result FilesFault.NoMemory → self.new ≡ self.old }
        ensures cause { HasCause FilesFault.Failed self.old.counts.faults self.new.counts.faults result }
    {
        if self.counts.is_due() {
            let refused = call.path().copy(alloc)?;
            self.made.push(call).map_err(NoMemory::from)?;
            self.counts.fail();
            self.refused = Some(refused);
            return Err(FilesFault::Failed);
        }
        Ok(call)
    }

    /// Counts a call that did not fail, and keeps it.
    fn pass(&mut self, call: FileCall) -> Result<(), NoMemory>
        ensures ok { OnOk result
            (self.new ≡ record self.old { counts = passed self.old.counts; made = self.old.made ++ call ∷ [] }) }
        ensures err { OnErr result (self.new ≡ self.old) }
    {
        self.made.push(call)?;
        self.counts.pass();
        Ok(())
    }
}

impl Files for MemFiles {
    ghost tells = { told_by };

    ghost calls = { λ files. Some files.made };

    fn read(&mut self, alloc: Global, path: &Name, most: u64) -> Result<Option<Blob>, FilesFault>
        ensures ok { IfOk result (λ got. got ≡ option_map (take (most + 1)) (held_by self.old.pairs path.now)) }
        ensures bound { IfOk result (λ got. IfSome got (λ bytes. length bytes ≤ most + 1)) }
        ensures looks { LooksAt path.now (told_by self.old) (told_by self.new) result }
        ensures planned { IsCall (call.Read path.now most) self.old.pairs self.old self.new result }
    {
        let path = path.copy(alloc)?;
        let call = self.admit(alloc, FileCall::Read { path, most })?;
        let got = read_last(alloc, self.pairs.as_slice(), call.path(), most)?;
        self.pass(call)?;
        Ok(got)
    }

    fn exists(&mut self, alloc: Global, path: &Name) -> Result<bool, FilesFault>
        ensures ok { IfOk result (λ is. is ≡ is_some (held_by self.old.pairs path.now)) }
        ensures looks { LooksAt path.now (told_by self.old) (told_by self.new) result }
        ensures planned { IsCall (call.Exists path.now) self.old.pairs self.old self.new result }
    {
        let path = path.copy(alloc)?;
        let call = self.admit(alloc, FileCall::Exists { path })?;
        let is = self.held(call.path()).is_some();
        self.pass(call)?;
        Ok(is)
    }

    fn write(&mut self, alloc: Global, path: &Name, bytes: &[u8]) -> Result<(), FilesFault>
        ensures writes { WritesTo path.now bytes.now (told_by self.old) (told_by self.new) result }
        ensures planned { IsCall (call.Write path.now (length bytes.now))
            (with_pair self.old.pairs path.now bytes.now) self.old self.new result }
    {
        let length = bytes.len() as u64;
        let path = path.copy(alloc)?;
        let call = self.admit(alloc, FileCall::Write { path, length })?;
        self.made.reserve(1).map_err(NoMemory::from)?;
        put_last(alloc, &mut self.pairs, call.path(), bytes)?;
        self.made.push_reserved(call);
        self.counts.pass();
        Ok(())
    }
}

/// Files in memory that never fail. They keep no calls.
#[derive(Debug, Drop)]
pub struct CalmFiles {
    pairs: List<Pair>,
}

impl Model for CalmFiles {
    ghost use Rattle.std.specs.Prelude.{List};
    ghost use Rattle.ct_base.specs.declared.defs.Pair.{Pair};

    ghost Value = { List Pair };

    ghost view = { λ f. f.pairs };
}

impl CalmFiles {
    /// Makes files that hold these pairs of path and content;
    /// if a path has several pairs, the last one counts.
    pub fn new(held: List<Pair>) -> CalmFiles
        ensures { result ≡ held }
    {
        CalmFiles { pairs: held }
    }

    /// Lends what a path holds.
    pub fn held(&self, path: &Name) -> Option<&Name>
        ensures { option_copied result ≡ held_by self.now path.now }
    {
        last_value(self.pairs.as_slice(), path)
    }
}

impl Files for CalmFiles {
    ghost tells = { λ files. record { held = Some (held_by files); refused = Some None; faults = 0 } };

    ghost calls = { λ _. None };

    fn read(&mut self, alloc: Global, path: &Name, most: u64) -> Result<Option<Blob>, FilesFault> {
        Ok(read_last(alloc, self.pairs.as_slice(), path, most)?)
    }

    fn exists(&mut self, _alloc: Global, path: &Name) -> Result<bool, FilesFault> {
        Ok(self.held(path).is_some())
    }

    fn write(&mut self, alloc: Global, path: &Name, bytes: &[u8]) -> Result<(), FilesFault> {
        put_last(alloc, &mut self.pairs, path, bytes)?;
        Ok(())
    }
}

/// Lends the value of the last pair of the path.
fn last_value<'a>(pairs: &'a [Pair], path: &Name) -> Option<&'a Name>
    ensures { option_copied result ≡ held_by pairs.entry.now path.now }
{
    let last = pairs.iter().rev().find(|pair| pair.name.is(path))?;
    Some(&last.value)
}

/// Copies what the path holds, at most `most + 1` bytes of it.
fn read_last(
    alloc: Global,
    pairs: &[Pair],
    path: &Name,
    most: u64,
) -> Result<Option<Blob>, NoMemory>
    ensures { IfOk result (λ got. got ≡ option_map (take (most + 1)) (held_by pairs.now path.now)) }
{
    match last_value(pairs, path) {
        None => Ok(None),
        Some(value) => Ok(Some(Blob::of(alloc, front(value.bytes(), most))?)),
    }
}

/// Lends the first `most + 1` bytes, or all of them if there are fewer.
fn front(bytes: &[u8], most: u64) -> &[u8]
    ensures { result.now ≡ take (most + 1) bytes.entry.now }
{
    if bytes.len() as u64 <= most {
        bytes
    } else {
        &bytes[..most as usize + 1]
    }
}

/// Appends a pair, which then counts for its path.
fn put_last(
    alloc: Global,
    pairs: &mut List<Pair>,
    path: &Name,
    bytes: &[u8],
) -> Result<(), NoMemory>
    ensures ok { OnOk result (pairs.new ≡ with_pair pairs.old path.now bytes.now) }
    ensures err { OnErr result (pairs.new ≡ pairs.old) }
{
    let name = path.copy(alloc)?;
    let value = Name::of(alloc, bytes)?;
    pairs.push(Pair { name, value })
}
