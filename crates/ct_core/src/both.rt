ghost use Rattle.std.specs.Prelude.{◌≡◌, Ok, IfOk};

use ct_base::NoMemory;

/// Joins a value to the one that was made after it. If memory was wanting for that, the value is dropped.
///
/// A caller that makes several large values then holds none when it returns early.
pub(crate) fn both<A: Drop, B: Drop>(one: A, next: Result<B, NoMemory>) -> Result<(A, B), NoMemory>
    ensures one { IfOk result (λ both. both.0 ≡ one) }
    ensures next { IfOk result (λ both. next ≡ Ok both.1) }
{
    Ok((one, next?))
}
