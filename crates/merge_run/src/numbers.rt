//! The numbers of an array, from their text.
ghost use Rattle.std.specs.Prelude.{◌≡◌, ◌++◌, ◌∷◌, ℕ, ℤ, List, IfOk, IfSome, MatchOption};
ghost use Rattle.job_meaning.specs.Longs.{AllFit};
ghost use Rattle.merge_run.specs.Taken.{parted};

use crate::taking::{after, take_number};
use report::NoMemory;
use std::alloc::Global;

/// The numbers before the bracket that ends an array, and what follows the bracket.
pub(crate) fn take_numbers(
    alloc: Global,
    bytes: &[u8],
) -> Result<Option<(Vec<i64>, &[u8])>, NoMemory>
    ensures complete { IfOk result (λ found. (values : List ℤ) (rest : List ℕ) → AllFit values
        → bytes.now ≡ parted values ++ 93 ∷ rest
        → MatchOption found ⊥ (λ taken. (taken.0.items ≡ values) × (taken.1.now ≡ rest))) }
    ensures small { IfOk result (λ found. IfSome found (λ taken. AllFit taken.0.items)) }
{
    let mut numbers = Vec::new(alloc);
    if let Some(rest) = after(bytes, b"]") {
        return Ok(Some((numbers, rest)));
    }
    let Some((first, mut left)) = take_number(bytes) else {
        return Ok(None);
    };
    numbers.push(first)?;
    while let Some(more) = after(left, b",") {
        let Some((number, rest)) = take_number(more) else {
            return Ok(None);
        };
        numbers.push(number)?;
        left = rest;
    }
    Ok(ended(numbers, left))
}

/// These numbers, if the bytes begin with the bracket that ends an array, and what follows it.
fn ended(numbers: Vec<i64>, bytes: &[u8]) -> Option<(Vec<i64>, &[u8])>
    ensures complete { (rest : List ℕ) → bytes.now ≡ 93 ∷ rest
        → MatchOption result ⊥ (λ taken. (taken.0.items ≡ numbers.items) × (taken.1.now ≡ rest)) }
    ensures same { IfSome result (λ taken. taken.0.items ≡ numbers.items) }
{
    match after(bytes, b"]") {
        Some(rest) => Some((numbers, rest)),
        None => None,
    }
}
