//! Tests of the public calls of `completion_core`, `pending_count` and `completer_tree`, and callers of them that are
//! proved.
//!
//! Nothing stands on this crate, and it promises nothing. Begin with `counting.rt` and `trees.rt`, the callers that
//! docs/library.md shows.
#![tactic(auto)]

#[cfg(test)]
mod counting;
pub mod cut;
#[cfg(test)]
mod machine;
#[cfg(test)]
mod paths;
#[cfg(test)]
mod random_tree;
#[cfg(test)]
mod runs;
#[cfg(test)]
mod trees;
#[cfg(test)]
mod walks;
