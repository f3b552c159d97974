//! The stages that look at a whole walk: `limit`, `skip`, `takeWhile` and `dropWhile`, also over pieces.
//!
//! Stands on `trace`, for chunks, and on `lambda_values`, for the tests. Used by whatever runs one of these stages.
//! What it promises to them: `SlicePart::join`, clause `ok`, gives the part of two pieces side by side, and
//! `SlicePart::finish` what the stage makes of the whole, as `specs/Slices.antt` says. `SliceRest::cut`, clause
//! `passes`, says which of the next items of a walk pass, and what is then left of the slice.
//! Begin with `specs/Slices.antt`, then `shorten.rt`, `slice_part.rt` and `rest.rt`. The four calls on a chunk shorten
//! it in place and take no memory.
//! Not promised: that a piece is walked no further than needed.
//! Java: `limit`, `skip`, `takeWhile`, `dropWhile` of `LongStream` (Java SE 17, `java.util.stream`).
//!
//! Tested: `calls.rt` of `test_low`; runs of the programs in `tests`.
#![tactic(auto)]

mod rest;
mod shorten;
mod slice_part;

pub use rest::{SliceCut, SliceRest};
pub use shorten::{drop_while, limit, skip, take_while};
pub use slice_part::{Slice, SlicePart};
