ghost use Rattle.std.specs.Prelude.{◌≡◌, ℕ, ◌&&◌, ◌||◌, not, true, false, List, IfOk, OnOk, bytes_eq, if◌then◌else◌};
ghost use Rattle.std.specs.List.{list_any, list_all};
ghost use Rattle.ct_core.specs.Locks.{is_held, knows};
ghost use Rattle.ct_base.specs.Names.{is_among};

use ct_base::{Name, NoMemory};
use ct_history::PlanTest;
use indexmap::IndexMap;
use std::alloc::Global;

/// The locks of a plan, and which of them are held alone.
///
/// Source: CMake manual, cmake-properties(7), RESOURCE_LOCK.
#[derive(Drop)]
pub(crate) struct Locks {
    held: IndexMap<Vec<u8>, bool>,
}

/// Makes the locks that these tests name, of which none is held.
pub(crate) fn none_held(alloc: Global, tests: &[PlanTest]) -> Result<Locks, NoMemory>
    ensures known { IfOk result (λ locks. (name : List ℕ) → knows locks name ≡ list_any (λ t. is_among name t.locks) tests.now) }
    ensures none { IfOk result (λ locks. (name : List ℕ) → is_held locks name ≡ false) }
{
    let mut locks = Locks {
        held: IndexMap::new(alloc),
    };
    for test in tests {
        locks.know_each(alloc, test.locks.as_slice())?;
    }
    Ok(locks)
}

impl Locks {
    /// Returns whether one of these locks is held.
    pub(crate) fn is_any_held(&self, names: &[Name]) -> bool
        ensures { result ≡ list_any (is_held self.now) names.now }
    {
        names.iter().any(|name| self.is_held(name))
    }

    /// Returns whether this lock is held.
    pub(crate) fn is_held(&self, name: &Name) -> bool
        ensures { result ≡ is_held self.now name.now }
    {
        match self.held.get(name.bytes()) {
            Some(held) => *held,
            None => false,
        }
    }

    /// Marks these locks as held.
    pub(crate) fn hold(&mut self, names: &[Name])
        requires { list_all (knows self.old) names.now ≡ true }
        ensures known { (name : List ℕ) → knows self.new name ≡ knows self.old name }
        ensures held { (name : List ℕ) → is_held self.new name ≡ (is_held self.old name || is_among name names.now) }
    {
        for name in names {
            self.set(name, true);
        }
    }

    /// Marks these locks as not held.
    pub(crate) fn release(&mut self, names: &[Name])
        requires { list_all (knows self.old) names.now ≡ true }
        ensures known { (name : List ℕ) → knows self.new name ≡ knows self.old name }
        ensures held { (name : List ℕ) → is_held self.new name ≡ (is_held self.old name && not (is_among name names.now)) }
    {
        for name in names {
            self.set(name, false);
        }
    }

    fn set(&mut self, name: &Name, held: bool)
        requires { knows self.old name.now ≡ true }
        ensures known { (asked : List ℕ) → knows self.new asked ≡ knows self.old asked }
        ensures held { (asked : List ℕ) → is_held self.new asked
            ≡ (if bytes_eq asked name.now then held else is_held self.old asked) }
    {
        if let Some(here) = self.held.get_mut(name.bytes()) {
            *here = held;
        }
    }

    fn know_each(&mut self, alloc: Global, names: &[Name]) -> Result<(), NoMemory>
        requires { (name : List ℕ) → is_held self.old name ≡ false }
        ensures known { OnOk result ((name : List ℕ) → knows self.new name ≡ (knows self.old name || is_among name names.now)) }
        ensures none { OnOk result ((name : List ℕ) → is_held self.new name ≡ false) }
    {
        for name in names {
            self.know(alloc, name)?;
        }
        Ok(())
    }

    fn know(&mut self, alloc: Global, name: &Name) -> Result<(), NoMemory>
        requires { (asked : List ℕ) → is_held self.old asked ≡ false }
        ensures known { OnOk result ((asked : List ℕ) → knows self.new asked ≡ (knows self.old asked || bytes_eq asked name.now)) }
        ensures none { OnOk result ((asked : List ℕ) → is_held self.new asked ≡ false) }
    {
        self.held
            .insert(Vec::from_slice(alloc, name.bytes())?, false)?;
        Ok(())
    }
}
