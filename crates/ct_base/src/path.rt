ghost use Rattle.std.specs.Prelude.{◌≡◌, IfOk, ◌==◌};
ghost use Rattle.ct_base.specs.Path.{is_absolute, joined};

use crate::{Name, NoMemory};
use std::alloc::Global;

/// Joins a folder and a name: the name alone if it begins with `/`, else both with `/` between them.
///
/// Source: this project's choice.
pub fn join_path(alloc: Global, dir: &Name, name: &Name) -> Result<Name, NoMemory>
    ensures { IfOk result (λ path. path ≡ joined dir.now name.now) }
{
    if begins_at_root(name.bytes()) {
        return name.copy(alloc);
    }
    let mut path = Vec::from_slice(alloc, dir.bytes())?;
    path.push(b'/')?;
    path.extend_from_slice(name.bytes())?;
    Ok(Name::from_vec(path))
}

fn begins_at_root(name: &[u8]) -> bool
    ensures { result ≡ is_absolute name.now }
{
    match name {
        [] => false,
        [first, ..] => *first == b'/',
    }
}
