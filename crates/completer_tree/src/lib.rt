//! Trees of completers: continuations that run on pairs of `pending_count`, with results that climb to the top.
//!
//! A fork claims a node for two continuations and gives a seat and a place for each of its sides. A value is handed in
//! at each place. The last of the two runs a continuation, and hands its answer in at the parent. Whoever completes the
//! top gets the result of the tree, and nobody else does. The calls are named after `CountedCompleter` of Java SE 17.
//!
//! Stands on `pending_count` for the counts and on `trace` for `Fault`. Used by `job_runner`, which runs jobs by trees:
//! it cites `Tree::fork`, clauses `split` and `tops`, and `Tree::try_complete`, clauses `found` and `kept`.
//! Begin with `continuation.rt` and `specs/Places.antt`, then `specs/Trees.antt`, `tree.rt` and `climbing.rt`;
//! docs/completers.md has a worked picture. Proved callers and tests are in the crate `test_completers`.
//! Not promised: that a result ever comes, since a seat may be dropped. No call allocates or waits.
//!
//! Tested: `paths.rt`, `runs.rt`, `trees.rt`, `walks.rt` of `test_completers`; runs of the programs in `tests`.
#![tactic(auto)]

mod climbing;
mod completer;
mod continuation;
mod part;
mod path;
mod tree;

pub use climbing::{Finisher, First, Looker, Next, Unwatched};
pub use completer::{Completer, place_at};
pub use continuation::Continuation;
pub use part::{Failure, Handed, PartValue};
pub use tree::{CompleterTree, Forked, Half, Tree, TreeCounts, TreeSeat};
