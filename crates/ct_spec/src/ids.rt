ghost use Rattle.std.specs.Prelude.{◌≡◌, ◌++◌, ◌∷◌, [], List, ℕ, IfOk};
ghost use Rattle.ct_spec.specs.Ids.{AreIds};
ghost use Rattle.ct_base.specs.Names.{is_among};

use ct_base::NoMemory;
use std::alloc::Global;
use std::collections::HashSet;
use std::marker::Model;

/// The ids that earlier entries of a kind have. Contracts see them in an order without meaning.
#[derive(Drop)]
pub(crate) struct Ids {
    ids: HashSet<Vec<u8>>,
}

impl Model for Ids {
    ghost use Rattle.std.specs.Prelude.{List, ℕ, map};

    ghost Value = { List (List ℕ) };

    ghost view = { λ i. map (λ id. id.items) i.ids.keys };
}

impl Ids {
    /// Makes the empty set.
    pub(crate) fn new(alloc: Global) -> Ids
        ensures { AreIds result [] }
    {
        Ids {
            ids: HashSet::new(alloc),
        }
    }

    pub(crate) fn has(&self, id: &[u8]) -> bool
        ensures { result ≡ is_among id.now self.now }
    {
        self.ids.contains(id)
    }

    /// Adds an id to the set.
    pub(crate) fn with(self, alloc: Global, id: &[u8]) -> Result<Ids, NoMemory>
        ensures { IfOk result (λ ids. (taken : List (List ℕ)) → AreIds self taken → AreIds ids (taken ++ id.now ∷ [])) }
    {
        let Ids { mut ids } = self;
        ids.insert(Vec::from_slice(alloc, id)?)?;
        Ok(Ids { ids })
    }
}
