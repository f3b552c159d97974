//! What is kept of a walk.

use crate::scanned::ScannedWalk;
use sort_ops::SortedRuns;
use trace::{End, Item};

/// What is kept of a walk.
#[derive(Drop)]
pub enum Kept<'a> {
    /// That it has no items, and how it ended.
    Ended(End),
    /// What comes before a prefix, scanned as it is walked.
    Scanned(ScannedWalk<'a>),
    /// Its items, and how it ended.
    Items(Vec<Item>, End),
    /// Runs whose items it has in order, and how it ended.
    Sorted(SortedRuns, End),
}
