ghost use Rattle.std.specs.Prelude.{◌-◌, ◌^◌, ◌<◌, length, IfOk};
ghost use Rattle.ct_args.specs.Invocation.{invocation_in, invocation_seen, IsBounded};
ghost use Rattle.ct_args.specs.Read.{IsRead};

use crate::invocation::Invocation;
use crate::settings::Settings;
use crate::usage::UsageFault;
use ct_base::Name;
use std::alloc::Global;

/// Reads the words of a command line, or finds the first from the left that is refused.
///
/// Source: CMake manual, ctest(1), Options. What is refused, and that most options may be given
/// once, is this project's choice.
#[tactic(auto, using(crate::proofs::ReadingLemmas::reads_words, crate::proofs::ReadingLemmas::refuses_words, crate::proofs::BoundLemmas::bounded))]
pub fn read_words(alloc: Global, words: &[Name]) -> Result<Invocation, UsageFault>
    requires few { length words.now < 2 ^ 32 - 1 }
    ensures exact { IsRead invocation_seen (invocation_in words.now) result }
    ensures bounds { IfOk result IsBounded }
{
    let settings = Settings::read(alloc, words)?;
    Ok(settings.into_invocation(alloc)?)
}
