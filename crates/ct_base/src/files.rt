ghost use Rattle.std.specs.Prelude.{◌≡◌, ◌+◌, ◌≤◌, length, take, List, Option, IfOk, IfSome, is_some, option_map};
ghost use Rattle.ct_base.specs.Outside.{FilesTell, LooksAt, Makes, WritesTo};
ghost use Rattle.ct_base.specs.declared.file_call.FileCall.{FileCall};
ghost use Rattle.ct_base.specs.declared.file_call.FileCall.TheVariants.{Exists, Read, Write};
ghost use Rattle.ct_base.specs.declared.files.FilesFault.TheVariants as FilesCause;

use crate::{Blob, Name, NoMemory};
use std::alloc::Global;

/// Why a call on files returned no answer.
#[derive(Clone, Copy, Debug, PartialEq, Eq)]
pub enum FilesFault {
    /// The operation failed, in the system or in what stands for it.
    Failed,
    /// Memory was wanting.
    NoMemory,
}

impl From<NoMemory> for FilesFault {
    ghost from_gives = { λ _ e. e ≡ FilesCause.NoMemory };

    fn from(_e: NoMemory) -> FilesFault {
        FilesFault::NoMemory
    }
}

/// Files by their paths.
///
/// `tells` has three parts: what the files hold, the path of the last call that failed, and how
/// many calls failed. Files may leave the first two untold. The count never falls.
///
/// `calls` is each call that was made, in order, where the files tell it: of a read and an exists with its
/// path, of a read also with the most bytes asked for, of a write with how many bytes it writes.
pub trait Files {
    ghost tells: { Self → FilesTell };

    ghost calls: { Self → Option (List FileCall) };

    /// Reads a file: the whole of it if it has at most `most` bytes, else its first `most + 1`
    /// bytes. An absent path gives `None`.
    fn read(&mut self, alloc: Global, path: &Name, most: u64) -> Result<Option<Blob>, FilesFault>
        ensures ok { IfOk result (λ got. IfSome (tells self.old).held (λ files. got ≡ option_map (take (most + 1)) (files path.now))) }
        ensures bound { IfOk result (λ got. IfSome got (λ bytes. length bytes ≤ most + 1)) }
        ensures looks { LooksAt path.now (tells self.old) (tells self.new) result }
        ensures made { Makes (Read path.now most) (calls self.old) (calls self.new) result };

    /// Returns whether the files hold something at the path.
    fn exists(&mut self, alloc: Global, path: &Name) -> Result<bool, FilesFault>
        ensures ok { IfOk result (λ is. IfSome (tells self.old).held (λ files. is ≡ is_some (files path.now))) }
        ensures looks { LooksAt path.now (tells self.old) (tells self.new) result }
        ensures made { Makes (Exists path.now) (calls self.old) (calls self.new) result };

    /// Makes the path hold the bytes, in place of what it held.
    fn write(&mut self, alloc: Global, path: &Name, bytes: &[u8]) -> Result<(), FilesFault>
        ensures writes { WritesTo path.now bytes.now (tells self.old) (tells self.new) result }
        ensures made { Makes (Write path.now (length bytes.now)) (calls self.old) (calls self.new) result };
}
