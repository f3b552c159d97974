//! The two passes of a prefix over pieces: folds go up, and what lies left of each piece comes down.
//!
//! Stands on `reduce_ops` for operators and on `trace` for items and chunks. `up` folds the items of a chunk, `down`
//! scans them in place. Used by `prefix_walks`, which cuts a range to a piece (`cut_to`) and scans its values
//! (`scan_values`). What it promises: folds and scans meet `specs/Scans.antt`, and by `two_passes_give_the_prefix` two
//! passes over the pieces of a walk give the prefix of `specs/Prefixes.antt`.
//! Begin with `specs/Prefixes.antt` and `laws.rt`, then `scan.rt`. No call takes memory.
//! Not promised: how the pieces are cut, or on which threads they are scanned.
//! Java: `Arrays.parallelPrefix` (Java SE 17, `java.util`).
//!
//! Tested: `calls.rt` of `test_low`; runs of the programs in `tests`.
#![tactic(auto)]

mod block;
mod descent;
mod laws;
mod scan;

pub use block::{merge, up};
pub use descent::down;
pub use laws::{
    calls_give_the_prefix, every_split_tree_gives_the_prefix, two_passes_give_the_prefix,
};
pub use scan::{cut_to, scan_values};
