//! The values of lambdas: expressions over numbers of 64 bits, and what each gives at an item.
//!
//! It stands on `stream_tokens` for the bytes of a name. Its users:
//! - `trace` and the crates above it evaluate by `LongExpr::eval`, `BoolExpr::eval` and
//!   `InnerExpr::eval_into`: the value over unbounded integers, cut to 64 bits where Java does it
//!   (JLS 17, chapter 15), or the first fault from left to right. `BinaryOperator::apply` and its
//!   like are for what evaluates in another order, as `batch_eval`;
//! - `lambda_expr` makes expressions out of texts. `Lambda::names` lists the `$` names of one that is
//!   read.
//!
//! Begin with `specs/Operators.antt` and `specs/Value.antt`, then `expr.rt`.
//!
//! Not promised: that memory is there, that an expression that is nested without limit fits the stack
//! (what `lambda_expr::read_lambda` gives is at most 64 deep), and how fast an expression is
//! evaluated.
//!
//! Tested: `walks.rt` of `test_completers`; `plans.rt`, `refusals.rt`, `reports.rt`, `shown.rt` of `test_engine`;
//! `batches.rt`, `calls.rt`, `full_sinks.rt`, `lambdas.rt`, `messages.rt`, `walks.rt` of `test_low`; runs of the
//! programs in `tests`.
#![tactic(auto)]

mod arithmetic;
mod cells;
mod env;
mod expr;
mod fault;
mod inner;
mod item;
mod lambda;
mod names;
mod operands;
mod operator;
mod places;
mod quotient;
mod run;
mod wrapping;

pub use arithmetic::{bits_are_combined_place_by_place, division_rounds_toward_zero};
pub use env::{Env, NamedNumber};
pub use expr::{BoolChoice, BoolExpr, BoolPair, LongChoice, LongExpr, LongPair};
pub use fault::FaultKind;
pub use inner::{Inner, InnerExpr, ListedValues, closed_range, range};
pub use item::Item;
pub use lambda::{Body, Lambda, PairForm};
pub use names::references_decide;
pub use operands::Operands;
pub use operator::{BinaryOperator, Comparison, Connective, Faults, UnaryOperator};
pub use places::values_decide;
pub use run::Run;
pub use wrapping::wrap_is_the_remainder_in_64_bits;
