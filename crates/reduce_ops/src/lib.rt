//! The operators of folds and prefixes, and folds of pieces that merge in encounter order.
//!
//! Stands on `trace`, for items and the fault that ends a walk. Used by whatever folds a stream: on one thread, or in
//! pieces. What it promises to them: `Op::apply` is `value_of` of `specs/Operators.antt`, and `Partial::merge`, clause
//! `stands`, gives the fold of two pieces side by side, where the first fault ends the whole. `laws.rt` says why: each
//! operator is associative, and each identity works on both sides.
//! An exact sum is a fold of another kind, since the order of its steps decides whether it has a fault. `ExactPart`
//! keeps the total of a piece with the least and the greatest of its running sums (`Reach`), and merges as `Partial`
//! does. `Exact` is the sum from the first item on: the sum, a fault, or `Search`, where a sum overflows in a piece of
//! which no more is known; a walk in order finds the item. `SumPart` is one or the other: the piece that begins the
//! stream has an `Exact`, and ends at its first overflow.
//! Begin with `specs/Operators.antt` and `specs/Folds.antt`, then `op.rt` and `partial.rt`; for exact sums with
//! `specs/ExactSums.antt` and `exact_part.rt`. No call takes memory.
//! Not promised: that an operator is commutative; `affine`, `first` and `last` are not.
//! Java: `Long::sum`, `Long::min`, `Long::max`, `Math::addExact` and `reduce` of `LongStream` (Java SE 17,
//! `java.util.stream`).
//!
//! Tested: `calls.rt` of `test_low`; runs of the programs in `tests`.
#![tactic(auto)]

mod exact;
mod exact_part;
mod laws;
mod op;
mod partial;
mod reach;
mod reaching;
mod sum_part;

pub use exact::Exact;
pub use exact_part::ExactPart;
pub use laws::{
    affine_composes_maps, counts_are_sums_of_ones, identities_are_two_sided,
    operators_are_associative, sums_are_wrapped_totals,
};
pub use op::Op;
pub use partial::Partial;
pub use reach::Reach;
pub use sum_part::SumPart;
