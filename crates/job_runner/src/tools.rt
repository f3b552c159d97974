//! What a worker uses while it runs a task.

use crate::cut::{CutPiece, TableKept, TablePart};
use crate::legs::JobLegs;
use crate::task::{RunBrand, Spare};
use crate::watch::Watch;
use pending_count::Fits;

/// The gate that a worker enters and where it puts tasks, what it keeps from one leaf to the next, what it asks the
/// words of early stop with, and its credit.
pub(crate) struct Tools<'w, S: JobLegs, V, K: Fits<V, Tag = CutPiece>, R: RunBrand, G, P> {
    pub(crate) gate: &'w G,
    pub(crate) spawn: &'w mut P,
    pub(crate) scratch: S::Scratch,
    pub(crate) watch: Watch<'w, 'w, S, R, G>,
    pub(crate) spare: Option<Spare<V, K, R>>,
}

pub(crate) type TableTools<'w, S, R, G, P> = Tools<'w, S, TablePart<S>, TableKept<S>, R, G, P>;
