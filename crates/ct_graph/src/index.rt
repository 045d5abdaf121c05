ghost use Rattle.std.specs.Prelude.{◌≡◌, ℕ, ◌<◌, ◌≤◌, [], List as Bytes, IfOk, OnOk, length};
ghost use Rattle.std.specs.List.Sorted.{IsStrictlyIncreasing};
ghost use Rattle.ct_graph.specs.Before.{before_of, setups_of};
ghost use Rattle.ct_graph.specs.ByName.{tests_of};
ghost use Rattle.ct_graph.specs.Found.{AreFound, IsEmpty, Knows};
ghost use Rattle.ct_graph.specs.Index.{Indexed, IsIndexAt, IsReadySearch, AddsTest, FindsBefore, AreMembers, has_cleanup};

use crate::by_name::ByName;
use crate::found::Found;
use crate::known::Known;
use ct_base::{List, NoMemory, TestDef};
use ct_props::Props;
use std::alloc::Global;

/// The members that are not disabled, by the names through which other tests wait for them.
#[derive(Drop)]
pub(crate) struct Index<'a> {
    defs: &'a [TestDef],
    pub props: &'a [Props],
    pub members: &'a [u32],
    /// The members, by their own names.
    names: ByName<'a>,
    /// The members, by the fixtures that they set up.
    setups: ByName<'a>,
    /// Whether some test cleans a fixture.
    cleans: bool,
    /// The members, by the fixtures that they require, if some test cleans a fixture.
    users: ByName<'a>,
}

impl<'a> Index<'a> {
    pub(crate) fn of(
        alloc: Global,
        defs: &'a [TestDef],
        props: &'a [Props],
        members: &'a [u32],
    ) -> Result<Index<'a>, NoMemory>
        requires paired { length props.now ≡ length defs.now }
        requires within { AreMembers (length defs.now) members.now }
        ensures { IfOk result (IsIndexAt defs.now props.now members.now members.now) }
    {
        let mut index = Index {
            defs,
            props,
            members,
            names: ByName::new(alloc),
            setups: ByName::new(alloc),
            cleans: has_cleanup(props),
            users: ByName::new(alloc),
        };
        index.add_all(alloc)?;
        Ok(index)
    }

    /// Adds each member that is not disabled to an index that has none yet.
    fn add_all(&mut self, alloc: Global) -> Result<(), NoMemory>
        requires paired { length self.old.props.now ≡ length self.old.defs.now }
        requires within { AreMembers (length self.old.defs.now) self.old.members.now }
        requires none { IsIndexAt self.old.defs.now self.old.props.now self.old.members.now [] self.old }
        ensures { OnOk result (IsIndexAt self.old.defs.now self.old.props.now self.old.members.now self.old.members.now self.new) }
    {
        let members = self.members;
        for number in members {
            self.add(alloc, *number)?;
        }
        Ok(())
    }

    /// Adds a member, unless it is disabled.
    fn add(&mut self, alloc: Global, number: u32) -> Result<(), NoMemory>
        requires above { 0 < number }
        requires within { number ≤ length self.old.defs.now }
        requires paired { length self.old.props.now ≡ length self.old.defs.now }
        ensures { OnOk result (AddsTest number self.old self.new) }
    {
        let place = number as usize - 1;
        let props = &self.props[place];
        if props.disabled {
            return Ok(());
        }
        let name = self.defs[place].name.bytes();
        self.names.add(alloc, name, number)?;
        self.setups.add_all(alloc, props.setup.as_slice(), number)?;
        if self.cleans {
            self.users
                .add_all(alloc, props.required.as_slice(), number)?;
        }
        Ok(())
    }

    /// Finds what a test waits for.
    pub(crate) fn row(
        &self,
        alloc: Global,
        number: u32,
        search: &mut Search<'a>,
    ) -> Result<Row, NoMemory>
        requires indexed { Indexed self.now }
        requires above { 0 < number }
        requires within { number ≤ length self.now.props.now }
        requires ready { IsReadySearch self.now search.old }
        ensures ready { OnOk result (IsReadySearch self.now search.new) }
        ensures before { IfOk result (λ row. row.before ≡ before_of self.now.defs.now self.now.props.now self.now.members.now number) }
        ensures setups { IfOk result (λ row. row.setups ≡ setups_of self.now.props.now self.now.members.now number) }
    {
        let later = &self.props[number as usize - 1];
        if later.disabled {
            return Ok(Row {
                before: List::new(alloc),
                setups: List::new(alloc),
            });
        }
        let setups = self.setups.find(
            alloc,
            later.required.as_slice(),
            &mut search.setups,
            &mut search.found,
        )?;
        let before = self.before(alloc, later, setups.as_slice(), search)?;
        Ok(Row { before, setups })
    }

    /// Finds the members that come before a test with these properties, whose setups these are.
    fn before(
        &self,
        alloc: Global,
        later: &'a Props,
        setups: &[u32],
        search: &mut Search<'a>,
    ) -> Result<List<u32>, NoMemory>
        requires ready { IsReadySearch self.now search.old }
        requires setups { AreFound (tests_of self.now.setups) later.now.required setups.now }
        ensures ready { OnOk result (IsReadySearch self.now search.new) }
        ensures ascending { IfOk result (λ tests. IsStrictlyIncreasing tests) }
        ensures found { IfOk result (λ tests. FindsBefore (tests_of self.now.names) (tests_of self.now.setups) (tests_of self.now.users) later.now [] tests) }
    {
        let cleanup = later.cleanup.as_slice();
        let users = self
            .users
            .find(alloc, cleanup, &mut search.users, &mut search.found)?;
        let cleaned = self
            .setups
            .find(alloc, cleanup, &mut search.setups, &mut search.found)?;
        self.together(
            alloc,
            later,
            setups,
            users.as_slice(),
            cleaned.as_slice(),
            &mut search.found,
        )
    }

    /// Puts the tests of the names that these properties depend on together with those of the fixtures
    /// that they require, and with the users and the setups of those that they clean.
    fn together(
        &self,
        alloc: Global,
        later: &'a Props,
        setups: &[u32],
        users: &[u32],
        cleaned: &[u32],
        found: &mut Found,
    ) -> Result<List<u32>, NoMemory>
        requires empty { IsEmpty found.old }
        requires setups { AreFound (tests_of self.now.setups) later.now.required setups.now }
        requires users { AreFound (tests_of self.now.users) later.now.cleanup users.now }
        requires cleaned { AreFound (tests_of self.now.setups) later.now.cleanup cleaned.now }
        ensures empty { OnOk result (IsEmpty found.new) }
        ensures ascending { IfOk result (λ tests. IsStrictlyIncreasing tests) }
        ensures found { IfOk result (λ tests. FindsBefore (tests_of self.now.names) (tests_of self.now.setups) (tests_of self.now.users) later.now [] tests) }
    {
        self.names.find_all(alloc, later.depends.as_slice(), found)?;
        found.add_all(setups)?;
        found.add_all(users)?;
        found.add_all(cleaned)?;
        found.take(alloc)
    }
}

/// Returns whether some test cleans a fixture.
fn has_cleanup(props: &[Props]) -> bool
    ensures { result ≡ has_cleanup props.now }
{
    props.iter().any(|own| !own.cleanup.is_empty())
}

/// What a test waits for.
#[derive(Drop)]
pub(crate) struct Row {
    /// The members that come before it, in order.
    pub before: List<u32>,
    /// The members that set up a fixture which it requires, in order.
    pub setups: List<u32>,
}

/// What a search keeps from test to test.
#[derive(Drop)]
pub(crate) struct Search<'a> {
    found: Found,
    /// The tests found so far that set fixtures up, by the list of fixtures.
    setups: Known<'a>,
    /// The tests found so far that require fixtures, by the list of fixtures.
    users: Known<'a>,
}

impl<'a> Search<'a> {
    /// Makes a search that has found nothing.
    pub(crate) fn new(alloc: Global) -> Search<'a>
        ensures empty { IsEmpty result.found }
        ensures setups { (find : Bytes ℕ → Bytes ℕ) → Knows find result.setups }
        ensures users { (find : Bytes ℕ → Bytes ℕ) → Knows find result.users }
    {
        Search {
            found: Found::new(alloc),
            setups: Known::new(alloc),
            users: Known::new(alloc),
        }
    }
}
