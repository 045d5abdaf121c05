ghost use Rattle.std.specs.Prelude.{◌≡◌, ◌≤◌, IsTrue, length};
ghost use Rattle.ct_regex.specs.Limits.{most_pattern_bytes};
ghost use Rattle.ct_regex.specs.Meaning.{meaning};
ghost use Rattle.ct_regex.specs.Sound.{is_sound};
ghost use Rattle.ct_regex.specs.Reading.{reading};
ghost use Rattle.ct_regex.specs.Gives.{Gives};

use crate::reader::Reader;
use crate::sign::sign_at;
use crate::tree::Node;
use crate::{RegexFault, Scan};
use ct_base::NoMemory;
use std::alloc::Global;

/// How many bytes a pattern may have.
///
/// Source: this project's choice.
const MOST_BYTES: u32 = 65_536;

/// A pattern of CMake. In contracts `regex_tree` is its tree.
///
/// Source: CMake manual, string(REGEX), Regex Specification.
#[derive(Debug, Drop)]
pub struct Regex {
    root: Node,
    // `*` and `+` repeat only what cannot be empty.
    ghost sound: { IsTrue (is_sound (meaning root)) },
}

impl Regex {
    ghost use Rattle.std.specs.Prelude.{◌≡◌, IfOk};
    ghost use Rattle.ct_regex.specs.Meaning.{meaning as tree_of};
    ghost use Rattle.ct_regex.specs.Tree.{Tree};
    ghost use Rattle.ct_regex.specs.TreeOf.{regex_tree};
    ghost use Rattle.ct_regex.specs.Ends.{hits};
    ghost use Rattle.ct_regex.specs.Reading.{reading};
    ghost use Rattle.ct_regex.specs.Gives.{Gives, IsReadAs};
    ghost use Rattle.ct_regex.specs.Grammar.{IsPattern};
    ghost use Rattle.ct_regex.specs.Faulty.{RefusesFault, IsSoleAnswer};
    ghost use Rattle.ct_regex.specs.OneAnswer.{HasOneAnswer};

    /// Reads a pattern, or finds its first fault from the left.
    ///
    /// Source: CMake manual, string(REGEX), Regex Specification. The faults and the limits are this
    /// project's choice.
    pub fn parse(alloc: Global, text: &[u8]) -> Result<Regex, RegexFault>
        ensures exact { Gives regex_tree result (reading text.now) }
        // The tree is what the grammar writes. The grammar does not depend on how a text is read.
        ensures written { IfOk result (λ regex. IsPattern text.now (regex_tree regex)) }
        ensures read { (tree : Tree) → IsPattern text.now tree → IsReadAs regex_tree tree result }
        // A refusal has the kind and the place that the grammar of faulty texts gives, and a text that it
        // calls faulty is refused so.
        ensures refused { RefusesFault text.now result }
        ensures sole { IsSoleAnswer text.now result }
        // The two grammars agree: a text is written as one tree or has one fault.
        ensures one { HasOneAnswer text.now }
    {
        if text.len() > MOST_BYTES as usize {
            return Err(RegexFault::TooLarge(MOST_BYTES));
        }
        let root = read(alloc, text)?;
        Ok(Regex { root })
    }

    /// Returns whether the text has a match anywhere.
    ///
    /// Source: CMake manual, string(REGEX), Regex Specification.
    pub fn hit(&self, alloc: Global, text: &[u8]) -> Result<bool, NoMemory>
        ensures { IfOk result (λ found. found ≡ hits (regex_tree self.now) text.now) }
    {
        let mut scan = Scan::of_text(alloc, self, text)?;
        scan.feed(text);
        Ok(scan.ended())
    }

    pub(crate) fn root(&self) -> &Node
        ensures tree { tree_of result.now ≡ regex_tree self.now }
        ensures sound { IsTrue (is_sound (regex_tree self.now)) }
    {
        &self.root
    }
}

fn read(alloc: Global, text: &[u8]) -> Result<Node, RegexFault>
    requires few { length text.now ≤ most_pattern_bytes }
    ensures { Gives meaning result (reading text.now) }
{
    let mut reader = Reader::new(alloc);
    let mut at = 0;
    'signs: while at < text.len() {
        let (sign, behind) = sign_at(alloc, text, at)?;
        reader = reader.take(alloc, sign, at as u32)?;
        at = behind;
    }
    reader.finish()
}
