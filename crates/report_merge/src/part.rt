//! What is known of a part of a table.

use job_meaning::Answer;

/// What the run over one part of a table gave.
#[derive(Debug, Drop)]
pub struct PartAnswers {
    /// How many rows the part has, the header aside.
    pub rows: u64,
    /// An answer for each job, in file order.
    pub answers: Vec<Answer>,
}
