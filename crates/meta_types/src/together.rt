//! Results taken together. What one of them owns is dropped in here. So a caller owns nothing if it
//! fails, and its proof has no case for that.

ghost use Rattle.std.specs.Prelude.{◌≡◌, ◌⊎◌, Ok, Err, IfOk, IfErr};

/// Returns both values, or the first refusal.
pub fn both<A: Drop, B: Drop, E: Drop>(
    first: Result<A, E>,
    second: Result<B, E>,
) -> Result<(A, B), E>
    ensures value { IfOk result (λ both. (first ≡ Ok both.0) × (second ≡ Ok both.1)) }
    ensures fault { IfErr result (λ fault. (first ≡ Err fault) ⊎ (second ≡ Err fault)) }
{
    let first = first?;
    let second = second?;
    Ok((first, second))
}
