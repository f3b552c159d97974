//! The machine of completers: nodes, the arrivals that are owed to them, and what actors do with these.
//!
//! It is pure: a state and seven actions, each of them one event, and no thread. The calls of Java's `CountedCompleter`
//! (Java SE 17) are lists of these actions: a pending count p is p + 1 arrivals that aren't made, `firstComplete` is
//! `Arrive`, and `addToPendingCount` is `Add`. `tryComplete` is `Arrive` and, after `Last`, `Run` and another
//! `tryComplete` at what the node kept.
//!
//! It stands on no other crate. Whoever counts arrivals in another way, in words or under a lock, is held to
//! `specs/Graph.antt` and `specs/Legal.antt`: `step`, clauses `legal`, `answer`, `after` and `refused`. A whole list of
//! actions is `play`, whose clauses `once`, `after_all` and `made_once` say that each node runs once, after all its
//! arrivals. These two calls are for other programs: `streamrun` counts in words, by `pending_count`, whose clauses
//! cite the definitions of this crate.
//!
//! Begin with `specs/Graph.antt`, then `specs/Legal.antt`, `specs/Refusals.antt` and `stepping.rt`. `graph.rt` and
//! `specs/Book.antt` have what is stored, and which graphs a store may mean. Tests are in the crate `test_completers`.
//! Not promised: that a last arrival ever comes.
//!
//! Tested: `counting.rt`, `machine.rt`, `paths.rt`, `random_tree.rt`, `trees.rt` of `test_completers`; runs of the
//! programs in `tests`.
#![tactic(auto)]

mod action;
mod changes;
mod graph;
mod holdings;
mod legal;
mod node_state;
mod nodes;
mod replay;
mod stepping;

pub use action::{Action, Actor, Illegal, Node, Reply};
pub use graph::{END, Graph};
pub use nodes::Nodes;
pub use replay::play;
pub use std::alloc::AllocError as NoMemory;
pub use stepping::step;
