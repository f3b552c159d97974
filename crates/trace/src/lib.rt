//! Walks over items, how they join, and the stages that look at one item at a time.
//!
//! Stands on `lambda_values`, which gives the value of a lambda at an item. Used by each crate that
//! walks a source or joins pieces of a walk. What it promises to them: `feed_all`, clause `fed`: a
//! sink gets what `specs/Stages.antt` says that the stages make of the source; `Chunk::append`, clause
//! `ok`: `append` of `specs/Trace.antt`, where the first fault ends the whole.
//! Begin with `specs/Trace.antt` and `specs/Stages.antt`, then `chunk.rt`, `specs/Sinks.antt` and
//! `feeding.rt`; `laws.rt` says why a walk may be cut anywhere. `specs/Cover.antt` and `source.rt` have
//! the items of sources.
//! Not promised: that memory for an item is there.
//! The stages are `map`, `filter` and `flatMap` of `LongStream` (Java SE 17, `java.util.stream`).
//!
//! Tested: `walks.rt` of `test_completers`; `lists.rt`, `refusals.rt`, `reports.rt`, `shown.rt` of `test_engine`;
//! `batches.rt`, `calls.rt`, `full_sinks.rt`, `random.rt`, `splits.rt`, `values.rt`, `walks.rt`, `words.rt` of
//! `test_low`; runs of the programs in `tests`.
#![tactic(auto)]

mod chunk;
mod feeding;
mod item;
mod laws;
mod sink;
mod source;
mod stage;

pub use chunk::{Chunk, EndTest, Rewrite};
pub use feeding::{Fed, asked, feed, feed_all};
pub use item::{End, Fault};
pub use lambda_values::Item;
pub use laws::{
    joining_is_associative, nothing_is_the_unit, stages_go_item_by_item, stages_keep_joining,
};
pub use sink::{Flow, LongSink};
pub use source::{InnerItems, MAX_SOURCE_SIZE, PlacedValues, RangeItems, SourceItems};
pub use stage::Stage;
pub use std::alloc::AllocError as NoMemory;
