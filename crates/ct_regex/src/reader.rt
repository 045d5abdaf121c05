ghost use Rattle.std.specs.Prelude.{◌≡◌, [], ◌∷◌, ◌++◌, IfOk, map};
ghost use Rattle.ct_regex.specs.Tree.{repeat, sequence_of, branch_of};
ghost use Rattle.ct_regex.specs.Meaning.{meaning, sign_of, last_of, group_of, groups_of};
ghost use Rattle.ct_regex.specs.Reading.{can_be_empty as tree_can_be_empty, may_repeat, opened_at, last_parts, with_atom, with_branch, with_quantifier, closed, with_sign, with_group, with_close, at_end};
ghost use Rattle.ct_regex.specs.Gives.{Gives};

use crate::RegexFault;
use crate::sign::Sign;
use crate::tree::{Node, Quantifier};
use ct_base::NoMemory;
use std::alloc::Global;

/// How many groups may be open at once.
///
/// Source: this project's choice.
const MOST_GROUPS: usize = 200;

/// The last part of a branch.
#[derive(Drop)]
pub enum Last {
    Nothing,
    /// A part without a quantifier.
    Bare(Node),
    Quantified(Node),
}

/// A group that is open, or the whole pattern.
#[derive(Drop)]
pub struct Level {
    /// Where its `(` stands.
    pub place: u32,
    /// The branches in front of the last one.
    pub branches: Vec<Node>,
    /// The parts of the last branch, without its last part.
    pub parts: Vec<Node>,
    pub last: Last,
}

/// The part of a pattern that is read so far.
#[derive(Drop)]
pub struct Reader {
    /// The innermost open group.
    pub level: Level,
    /// The groups around it, the innermost last.
    pub outer: Vec<Level>,
}

impl Reader {
    pub(crate) fn new(alloc: Global) -> Reader
        ensures inner { (groups_of result).inner ≡ opened_at 0 }
        ensures outer { result.outer.items ≡ [] }
    {
        Reader {
            level: Level::new(alloc, 0),
            outer: Vec::new(alloc),
        }
    }

    /// Takes the sign at a place.
    pub(crate) fn take(self, alloc: Global, sign: Sign, place: u32) -> Result<Reader, RegexFault>
        ensures { Gives groups_of result (with_sign (groups_of self) (sign_of place sign)) }
    {
        match sign {
            Sign::Opens => self.open(alloc, place),
            Sign::Closes => self.close(place),
            Sign::Atom(node) => {
                let Reader { level, outer } = self;
                let level = level.with_atom(node)?;
                Ok(Reader { level, outer })
            }
            Sign::Bar => {
                let Reader { level, outer } = self;
                let level = level.with_branch(alloc)?;
                Ok(Reader { level, outer })
            }
            Sign::Often(quantifier) => {
                let Reader { level, outer } = self;
                let level = level.with_quantifier(alloc, quantifier, place)?;
                Ok(Reader { level, outer })
            }
        }
    }

    fn open(self, alloc: Global, place: u32) -> Result<Reader, RegexFault>
        ensures { Gives groups_of result (with_group place (groups_of self)) }
    {
        if self.outer.len() >= MOST_GROUPS {
            drop(self);
            return Err(RegexFault::TooLarge(place));
        }
        let Reader { level, outer } = self;
        let outer = with_level(outer, level)?;
        Ok(Reader {
            level: Level::new(alloc, place),
            outer,
        })
    }

    fn close(mut self, place: u32) -> Result<Reader, RegexFault>
        ensures { Gives groups_of result
            (with_close place (groups_of self).inner (groups_of self).outer) }
    {
        let Some(around) = self.outer.pop() else {
            drop(self);
            return Err(RegexFault::StrayClose(place));
        };
        let Reader { level, outer } = self;
        match level.end_in(around) {
            Ok(level) => Ok(Reader { level, outer }),
            Err(NoMemory) => {
                drop(outer);
                Err(RegexFault::NoMemory)
            }
        }
    }

    /// Ends the reading: every group has to be closed.
    pub(crate) fn finish(self) -> Result<Node, RegexFault>
        ensures { Gives meaning result (at_end (groups_of self).inner (groups_of self).outer) }
    {
        if !self.outer.is_empty() {
            let place = self.level.place;
            drop(self);
            return Err(RegexFault::OpenGroup(place));
        }
        let Reader { level, outer } = self;
        drop(outer);
        let root = level.closed()?;
        Ok(root)
    }
}

impl Level {
    fn new(alloc: Global, place: u32) -> Level
        ensures { group_of result ≡ opened_at place }
    {
        Level {
            place,
            branches: Vec::new(alloc),
            parts: Vec::new(alloc),
            last: Last::Nothing,
        }
    }

    fn with_atom(self, atom: Node) -> Result<Level, NoMemory>
        ensures { IfOk result (λ level. group_of level ≡ with_atom (meaning atom) (group_of self)) }
    {
        let Level {
            place,
            branches,
            parts,
            last,
        } = self;
        let parts = all_parts(parts, last)?;
        Ok(Level {
            place,
            branches,
            parts,
            last: Last::Bare(atom),
        })
    }

    fn with_branch(self, alloc: Global) -> Result<Level, NoMemory>
        ensures { IfOk result (λ level. group_of level ≡ with_branch (group_of self)) }
    {
        let Level {
            place,
            branches,
            parts,
            last,
        } = self;
        let parts = all_parts(parts, last)?;
        let branches = with_node(branches, Node::Sequence(parts))?;
        Ok(Level {
            place,
            branches,
            parts: Vec::new(alloc),
            last: Last::Nothing,
        })
    }

    fn with_quantifier(
        self,
        alloc: Global,
        quantifier: Quantifier,
        at: u32,
    ) -> Result<Level, RegexFault>
        ensures { Gives group_of result
            (with_quantifier quantifier at (group_of self) (group_of self).last) }
    {
        let Level {
            place,
            branches,
            parts,
            last,
        } = self;
        match last {
            Last::Nothing => Err(RegexFault::NothingToRepeat(at)),
            Last::Quantified(_) => Err(RegexFault::NestedRepeat(at)),
            Last::Bare(node) => {
                if !may_be_repeated(quantifier, &node) {
                    return Err(RegexFault::EmptyRepeat(at));
                }
                let node = repeated(alloc, quantifier, node)?;
                Ok(Level {
                    place,
                    branches,
                    parts,
                    last: Last::Quantified(node),
                })
            }
        }
    }

    /// Ends this group as an atom of the group around it.
    fn end_in(self, around: Level) -> Result<Level, NoMemory>
        ensures { IfOk result (λ level. group_of level ≡ with_atom (closed (group_of self)) (group_of around)) }
    {
        match self.closed() {
            Ok(group) => around.with_atom(group),
            Err(NoMemory) => {
                drop(around);
                Err(NoMemory)
            }
        }
    }

    fn closed(self) -> Result<Node, NoMemory>
        ensures { IfOk result (λ node. meaning node ≡ closed (group_of self)) }
    {
        let Level {
            place: _,
            branches,
            parts,
            last,
        } = self;
        let parts = all_parts(parts, last)?;
        let branches = with_node(branches, Node::Sequence(parts))?;
        Ok(Node::Choice(branches))
    }
}

/// Appends the last part of a branch to its other parts.
fn all_parts(parts: Vec<Node>, last: Last) -> Result<Vec<Node>, NoMemory>
    ensures { IfOk result (λ all.
        map meaning all.items ≡ map meaning parts.items ++ last_parts (last_of last)) }
{
    match last {
        Last::Nothing => Ok(parts),
        Last::Bare(node) => with_node(parts, node),
        Last::Quantified(node) => with_node(parts, node),
    }
}

fn with_node(mut nodes: Vec<Node>, node: Node) -> Result<Vec<Node>, NoMemory>
    ensures { IfOk result (λ all.
        map meaning all.items ≡ map meaning nodes.items ++ meaning node ∷ []) }
{
    nodes.push(node)?;
    Ok(nodes)
}

fn with_level(mut levels: Vec<Level>, level: Level) -> Result<Vec<Level>, NoMemory>
    ensures { IfOk result (λ all. all.items ≡ levels.items ++ level ∷ []) }
{
    levels.push(level)?;
    Ok(levels)
}

fn repeated(alloc: Global, quantifier: Quantifier, node: Node) -> Result<Node, NoMemory>
    ensures { IfOk result (λ all. meaning all ≡ repeat quantifier (meaning node)) }
{
    Ok(Node::Repeat(quantifier, Box::new(alloc, node)?))
}

fn may_be_repeated(quantifier: Quantifier, node: &Node) -> bool
    ensures { result ≡ may_repeat quantifier (meaning node.now) }
{
    match quantifier {
        Quantifier::ZeroOrOne => true,
        Quantifier::ZeroOrMore => !can_be_empty(node),
        Quantifier::OneOrMore => !can_be_empty(node),
    }
}

/// Returns whether the tree can match the empty text, by the rule for a quantifier behind it.
#[cycle(can_be_empty)]
pub(crate) fn can_be_empty(node: &Node) -> bool
    ensures { result ≡ tree_can_be_empty (meaning node.now) }
{
    match node {
        Node::Start => true,
        Node::End => true,
        Node::One(_) => false,
        Node::Sequence(parts) => all_can_be_empty(parts),
        Node::Choice(branches) => any_can_be_empty(branches),
        Node::Repeat(Quantifier::OneOrMore, _) => false,
        Node::Repeat(_, _) => true,
    }
}

#[cycle(can_be_empty)]
fn all_can_be_empty(parts: &[Node]) -> bool
    ensures { result ≡ tree_can_be_empty (sequence_of (map meaning parts.now)) }
{
    for i in 0..parts.len() {
        if !can_be_empty(&parts[i]) {
            return false;
        }
    }
    true
}

#[cycle(can_be_empty)]
fn any_can_be_empty(branches: &[Node]) -> bool
    ensures { result ≡ tree_can_be_empty (branch_of (map meaning branches.now)) }
{
    for i in 0..branches.len() {
        if can_be_empty(&branches[i]) {
            return true;
        }
    }
    false
}
