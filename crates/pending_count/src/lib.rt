//! Counts of pending arrivals, each in one atomic word, and the seats that hold the arrivals.
//!
//! A node of a completion tree owes a number of arrivals. Threads share the `Counts` by `&`; what each of them
//! may do stands in its `Seat`, a token that is passed in and given back. Each step is one atomic instruction on
//! one word, and one action of the machine of `completion_core`, on whose graph and actions this crate stands,
//! beside `atomic_table`. No call but `Counts::new` takes memory, and none can wait. Nodes of `arm` have any number
//! of arrivals; pairs, of `arm_pair`, have two, which bring values. `completer_tree` runs continuations on both: it
//! cites `Counts::arrive`, clause `arrived`, and `Counts::arrive_with`, clause `closed`.
//! Begin with `specs/Shows.antt`, then `specs/Steps.antt` and `src/steps.rt`; docs/completers.md has the words,
//! the tokens and a worked trace. Tests and proved callers are in the crate `test_completers`.
//! Not promised: that a last arrival ever comes, since a seat may be dropped, nor which of two threads comes first.
//! Java SE 17: the pending count of `CountedCompleter`, which is here the number of arrivals owed, less one.
//!
//! Tested: `counting.rt`, `random_tree.rt`, `walks.rt` of `test_completers`; runs of the programs in `tests`.
#![tactic(auto)]

mod counts;
mod pairs;
mod parting;
mod place;
mod rule;
mod seat;
mod steps;
mod view;

pub use counts::Counts;
pub use place::{Fits, Place, Side};
pub use seat::{Arrived, ArrivedPair, Finish, FinishPair, Seat};
pub use std::alloc::AllocError as NoMemory;
