//! Sources that hand out items one by one, or split into two that lie side by side.
//!
//! Stands on `trace`, for items and the values of sources. For other programs, which walk a source in pieces:
//! `streamrun` cuts its sources by position, in `job_plan`. What it promises to them: the clauses of `LongSpliterator`,
//! which a caller that is generic over the trait sees too. `try_split` hands out a prefix and keeps the rest, both with
//! items, and `None` means at most one item.
//! Begin with `specs/Splits.antt` and `long_spliterator.rt`, then `range_split.rt`. No call takes memory.
//! Not promised: that a split is even, but for `RangeSplit` and `ArraySplit` (clause `half`).
//! Java: `Spliterator.OfLong` (Java SE 17, `java.util`).
//!
//! Tested: `splits.rt` of `test_low`.
#![tactic(auto)]

mod array_split;
mod characteristics;
mod concat_split;
mod long_spliterator;
mod plain_split;
mod range_split;

pub use array_split::ArraySplit;
pub use characteristics::{
    CONCURRENT, DISTINCT, IMMUTABLE, NONNULL, ORDERED, SIZED, SORTED, SUBSIZED,
};
pub use concat_split::ConcatSplit;
pub use long_spliterator::LongSpliterator;
pub use plain_split::PlainSplit;
pub use range_split::RangeSplit;
