ghost use Rattle.std.specs.Prelude.{◌≡◌, ◌∷◌, [], IfOk};
ghost use Rattle.ct_testfile.specs.Ifs.{innermost, is_live};

use crate::branch::{OpenIf, is_taken};
use ct_base::NoMemory;
use std::alloc::Global;
use std::collections::VecDeque;
use std::marker::Model;

/// The open ifs of a file. Contracts see them from the innermost one outwards.
#[derive(Drop)]
pub(crate) struct Ifs {
    items: VecDeque<OpenIf>,
}

impl Model for Ifs {
    ghost use Rattle.std.specs.Prelude.{List};
    ghost use Rattle.ct_testfile.specs.declared.branch.OpenIf.{OpenIf};

    ghost Value = { List OpenIf };

    ghost view = { λ i. i.items.items };
}

impl Ifs {
    /// Makes the value without an open `if`.
    pub(crate) fn new(alloc: Global) -> Ifs
        ensures { result ≡ [] }
    {
        Ifs {
            items: VecDeque::new(alloc),
        }
    }

    /// Opens an `if` inside the others.
    pub(crate) fn with(self, inner: OpenIf) -> Result<Ifs, NoMemory>
        ensures { IfOk result (λ ifs. ifs ≡ inner ∷ self) }
    {
        let Ifs { mut items } = self;
        items.push_front(inner)?;
        Ok(Ifs { items })
    }

    /// Takes off the innermost `if`.
    pub(crate) fn take_inner(self) -> Option<(OpenIf, Ifs)>
        ensures { result ≡ innermost self }
    {
        let Ifs { mut items } = self;
        match items.pop_front() {
            None => None,
            Some(inner) => Some((inner, Ifs { items })),
        }
    }

    /// Returns whether commands are carried out at this point.
    pub(crate) fn is_live(&self) -> bool
        ensures { result ≡ is_live self.now }
    {
        match self.items.front() {
            None => true,
            Some(inner) => is_taken(inner.branch),
        }
    }
}
