ghost use Rattle.std.specs.Prelude.{◌≡◌, map, IfErr};
ghost use Rattle.ct_base.specs.Entries.{entries_of};
ghost use Rattle.ct_regex.specs.TreeOf.{regex_tree};
ghost use Rattle.ct_regex.specs.Gives.{Gives};
ghost use Rattle.ct_props.specs.Values.{text_of_key, patterns_in, patterns_of as trees_of, resource_groups_in};
ghost use Rattle.ct_props.specs.Refusal.{ReadsKey, HasReason};

use crate::fault::bad;
use crate::texts::text_of;
use crate::{PropFault, PropKind};
use ct_base::{List, Pair, split_list};
use ct_groups::{Groups, GroupsFault};
use ct_regex::{Regex, RegexFault};
use std::alloc::Global;

/// Returns the patterns of a key, each parsed once.
#[tactic(auto, using(crate::proofs::ReasonLemmas::pattern_reason, crate::proofs::ReasonLemmas::groups_reason))]
pub fn patterns(alloc: Global, props: &[Pair], key: &[u8]) -> Result<List<Regex>, PropFault>
    ensures value { ReadsKey (map regex_tree) key.now (patterns_in (text_of_key props.now key.now)) result }
    ensures reason { IfErr result HasReason }
{
    match patterns_of(alloc, text_of(props, key)) {
        Ok(patterns) => Ok(patterns),
        Err(RegexFault::NoMemory) => Err(PropFault::NoMemory),
        Err(why) => Err(bad(alloc, key, PropKind::BadPattern(why))),
    }
}

fn patterns_of(alloc: Global, text: &[u8]) -> Result<List<Regex>, RegexFault>
    ensures { Gives (map regex_tree) result (trees_of (entries_of text.now)) }
{
    let texts = split_list(alloc, text)?;
    let mut patterns = List::new(alloc);
    for text in texts.as_slice() {
        patterns.push(Regex::parse(alloc, text.bytes())?)?;
    }
    Ok(patterns)
}

/// Returns the resource groups of a key.
#[tactic(auto, using(crate::proofs::ReasonLemmas::pattern_reason, crate::proofs::ReasonLemmas::groups_reason))]
pub fn groups(alloc: Global, props: &[Pair], key: &[u8]) -> Result<Groups, PropFault>
    ensures value { ReadsKey (λ x. x) key.now (resource_groups_in (text_of_key props.now key.now)) result }
    ensures reason { IfErr result HasReason }
{
    match Groups::parse(alloc, text_of(props, key)) {
        Ok(groups) => Ok(groups),
        Err(GroupsFault::NoMemory) => Err(PropFault::NoMemory),
        Err(why) => Err(bad(alloc, key, PropKind::BadGroups(why))),
    }
}
