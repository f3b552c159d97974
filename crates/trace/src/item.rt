//! How a walk over items ends.

use lambda_values::FaultKind;

/// The first fault that a walk met.
#[derive(Clone, Copy, Debug, PartialEq, Eq)]
pub struct Fault {
    pub kind: FaultKind,
    /// 0 for the source, then the stages from 1; the terminal is the stage after the last.
    pub stage: u32,
    /// The place of the item at which the fault happened, or none.
    pub origin: Option<u64>,
}

/// How a walk ends.
#[derive(Clone, Copy, Debug, PartialEq, Eq)]
pub enum End {
    Done,
    Fault(Fault),
}
