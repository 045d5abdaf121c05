ghost use Rattle.std.specs.Prelude.{◌≡◌, ◌<◌, ◌≤◌, ◌^◌, ◌-◌, IfOk, IsErrOf, length, vec_len};
ghost use Rattle.ct_start.specs.declared.fault.BeginFault.TheVariants as BeginCause;
ghost use Rattle.ct_start.specs.Start.{pairs_in, words_in};

use crate::BeginFault;
use ct_base::{Name, NoMemory, Pair};
use std::alloc::Global;

/// The greatest number of words. They are numbered by a u32, so there are fewer than it has values.
///
/// Source: this project's choice.
const MOST_WORDS: usize = 4_294_967_294;

/// Returns the words behind the program's own name.
///
/// Fails with `Failed` only where there are more than 4,294,967,294, and with `NoMemory` only where memory is wanting.
///
/// Source: this project's choice.
pub fn words_of(alloc: Global, args: &[String]) -> Result<Vec<Name>, BeginFault>
    ensures words { IfOk result (λ words. words.items ≡ words_in args.now) }
    ensures few { IfOk result (λ words. vec_len words < 2 ^ 32 - 1) }
    ensures many { IsErrOf result BeginCause.Failed → 2 ^ 32 ≤ length args.now }
{
    let words = args.get(1..).unwrap_or(&[]);
    if words.len() > MOST_WORDS {
        return Err(BeginFault::Failed);
    }
    let mut names = Vec::new(alloc);
    for word in words {
        names.push(Name::of(alloc, word.as_bytes())?)?;
    }
    Ok(names)
}

/// Returns the variables of the environment, in its order. Fails where memory is wanting.
pub fn pairs_of(alloc: Global, vars: &[(String, String)]) -> Result<Vec<Pair>, NoMemory>
    ensures { IfOk result (λ pairs. pairs.items ≡ pairs_in vars.now) }
{
    let mut pairs = Vec::new(alloc);
    for (name, value) in vars {
        pairs.push(Pair {
            name: Name::of(alloc, name.as_bytes())?,
            value: Name::of(alloc, value.as_bytes())?,
        })?;
    }
    Ok(pairs)
}
