//! Tests of the public calls of the crates below jobs, but for completers: what no clause says, and what no run of the
//! program shows.
//!
//! A crate with tests is proved twice, so the tests of crates that others stand on are here, above them. What a lambda,
//! an operator, a slice, a find or a column file gives is shown by the files of `examples/`, which `tests/examples`
//! runs. Here is what only a caller sees: sinks and readers of one's own, memory that is not copied, sources that
//! split, tasks that are dropped, run once or held.
//!
//! `calls.rt` has a call of each kind that the program doesn't make, from `stream_tokens` to `prefix_scan`, and calls
//! `messages.rt`, in which faults become texts, and `decimal_jobs.rt`, for `job_language`; `words.rt` calls
//! `early_stop`. `lambdas.rt` is for `lambda_expr`, `walks.rt` for `trace`, `batches.rt` with `random.rt`, and
//! `full_sinks.rt`, for `batch_eval`, `values.rt` for `job_meaning`, `splits.rt` for `spliterator`, `pieces.rt` with
//! `decimals.rt`, and `readers.rt`, for `columns`, `handles.rt` for `deques`; `sums.rt`, a small `Work` of one's own,
//! `held_leaves.rt` and `small_works.rt` for `worker_pool`.
//!
//! Nothing stands on this crate, and it promises nothing.
#![tactic(auto)]

#[cfg(test)]
mod batches;
#[cfg(test)]
mod calls;
#[cfg(test)]
mod decimal_jobs;
#[cfg(test)]
mod decimals;
#[cfg(test)]
mod full_sinks;
#[cfg(test)]
mod handles;
#[cfg(test)]
mod held_leaves;
#[cfg(test)]
mod lambdas;
#[cfg(test)]
mod messages;
#[cfg(test)]
mod pieces;
#[cfg(test)]
mod random;
#[cfg(test)]
mod readers;
#[cfg(test)]
mod small_works;
#[cfg(test)]
mod splits;
#[cfg(test)]
mod sums;
#[cfg(test)]
mod values;
#[cfg(test)]
mod walks;
#[cfg(test)]
mod words;
