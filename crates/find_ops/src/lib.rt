//! Terminals that look for an item: the first one, and the three matches, also over pieces of a stream.
//!
//! Stands on `trace`, for items and chunks, and on `lambda_values`, for the tests of the matches. Used by whatever
//! walks a stream to one of these terminals. What it promises to them: `FindPart::merge`, clause `stands`, gives what
//! two pieces side by side decide, and `FindPart::finish` the answer of `specs/Finds.antt`.
//! Begin with `specs/Finds.antt`, then `find_part.rt`. `finder.rt` has the sink that ends a walk early, and `laws.rt`
//! says why it may. No call takes memory.
//! Not promised: that a piece is walked no further than needed, but by `Finder`, whose `flow` says so.
//! Java: `findFirst`, `anyMatch`, `allMatch`, `noneMatch` of `LongStream` (Java SE 17, `java.util.stream`).
//!
//! Tested: `calls.rt` of `test_low`; runs of the programs in `tests`.
#![tactic(auto)]

mod find_part;
mod finder;
mod laws;
mod terminal;

pub use find_part::{FindPart, Found};
pub use finder::Finder;
pub use laws::decided_parts_stay;
pub use terminal::FindTerminal;
