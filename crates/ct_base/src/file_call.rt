ghost use Rattle.std.specs.Prelude.{◌≡◌};
ghost use Rattle.ct_base.specs.Outside.{path_of};

use crate::Name;

/// A call on files: what it asks for, whatever the answer is.
#[derive(Debug, Drop)]
pub enum FileCall {
    /// A read of a file: the whole of it if it has at most `most` bytes.
    Read { path: Name, most: u64 },
    /// Whether there is something at a path.
    Exists { path: Name },
    /// A write of so many bytes.
    Write { path: Name, length: u64 },
}

impl FileCall {
    /// Lends the path that the call is about.
    pub fn path(&self) -> &Name
        ensures { result.now ≡ path_of self.now }
    {
        match self {
            FileCall::Read { path, most: _ } => path,
            FileCall::Exists { path } => path,
            FileCall::Write { path, length: _ } => path,
        }
    }
}
