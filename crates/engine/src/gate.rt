//! What a run says to its caller while it goes on.

use worker_pool::Gate;

/// A gate of a whole run: it is also called as the run goes from one part to the next. None of these calls changes the
/// report.
pub trait RunGate: Gate {
    /// Called for each job of the file in turn, before the first of them begins. `items` is how many items its first
    /// walk goes over, as far as that is known then; it is 0 of a job that is walked through its slices, in one piece.
    fn before_job(&self, _job: usize, _items: u64) {}

    /// Called once all jobs have answers, if one of them is a fault or says that its job is unusable.
    fn without_value(&self) {}

    /// Called before the first byte of the report is written. No call of the gate comes after it.
    fn before_report(&self) {}
}
