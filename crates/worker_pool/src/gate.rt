//! What is called before each leaf and on its way, and after each answer.

/// How the caller of a run follows it. No answer depends on it.
pub trait Gate {
    /// Called before each leaf with the index of its job and its positions in the source: `from` up to but not
    /// including `to`. A gate may hold the leaf. It is how tests see which leaves are open at one time.
    fn at_leaf(&self, job: usize, from: u64, to: u64);

    /// Called in a leaf of this job each time that it has walked over 65,536 positions, or values of inner streams. It
    /// does nothing, unless a gate says otherwise.
    fn at_stretch(&self, _job: usize) {}

    /// Called after the answer of a job was made, if the work has answers. It does nothing, unless a gate says
    /// otherwise.
    fn at_answer(&self, _job: usize) {}
}
