//! The start nodes of the jobs.
ghost use Rattle.std.specs.Prelude.{◌≡◌, ◌++◌, ◌∷◌, []};
ghost use Rattle.job_runner.specs.Waits.{nodes_in};

use completion_core::Node;

/// A job that waits for another one, and its start node.
#[derive(Clone, Copy)]
pub struct Waiting {
    pub(crate) job: usize,
    pub(crate) node: Node,
}

/// The start node of a job. It owes an arrival for each job that its job names, and one more. It is END if the job
/// names none and none waits for it: such a job begins with its arrival there.
#[derive(Drop)]
pub struct Start {
    pub(crate) node: Node,
    /// What it keeps: an arrival at the start node of each job that waits for its job, and one at END.
    pub(crate) onward: Vec<Node>,
    /// The jobs that wait for its job, in file order.
    pub(crate) waiting: Vec<Waiting>,
    ghost same: { onward.items ≡ nodes_in waiting.items ++ 0 ∷ [] },
}
