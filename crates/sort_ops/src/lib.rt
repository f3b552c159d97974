//! The stages that put a walk in order, or take equal values out of it: `sorted` and `distinct`, also over pieces.
//!
//! Stands on `trace`, for items and ends. Used by whatever runs one of these stages. What it promises to them: a part
//! describes a piece of a walk, and two parts side by side merge to the part of both (`SortedPart::append` and
//! `DistinctPart::append`, clause `ok`); `finish` gives what the stage makes of the whole, `sorted` as runs that share
//! it (`SortedRuns`). Of items that are all at place 0, a sort keeps the values alone (`item_list.rt`); items that came
//! in order, or in reverse, stay where they lie (`sorted_run.rt`). `laws.rt` says what the order of items is and what
//! firsts are, and that every tree of pieces gives them. Begin with `specs/Orders.antt` and `specs/Firsts.antt`, then
//! `merging.rt`, `runs.rt`, `sorted_part.rt`, `sorted_runs.rt` and `distinct_part.rt`. Not promised: how much of a part
//! is in order, or was looked up in its set, before `finish`, and how many runs there are. Java: `sorted` and
//! `distinct` of `LongStream` (Java SE 17, `java.util.stream`).
//!
//! Tested: runs of the programs in `tests`.
#![tactic(auto)]

mod adding;
mod distinct_part;
mod ends;
mod held;
mod item_list;
mod item_slice;
mod laws;
mod lookup;
mod merging;
mod new_values;
mod noted;
mod ordered_list;
mod placing;
mod runs;
mod sorted_part;
mod sorted_run;
mod sorted_runs;

pub use distinct_part::DistinctPart;
pub use item_slice::{ItemSlice, ValueRange};
pub use laws::{
    an_item_stays_if_its_value_is_new, every_tree_of_pieces_gives_the_firsts,
    every_tree_of_pieces_gives_the_order, the_order_is_the_only_one, two_orders_merge,
};
pub use ordered_list::OrderedList;
pub use sorted_part::SortedPart;
pub use sorted_run::SortedRun;
pub use sorted_runs::SortedRuns;
