//! The operator of a prefix, and the positions at which it folds.

use reduce_ops::Op;

/// A prefix of the values of a walk: each becomes the fold of the values up to and with it.
#[derive(Clone, Copy)]
pub struct Prefix {
    pub op: Op,
    /// The positions of the walk at which it does so, from the first up to, not with, the second; without them, all.
    pub range: Option<(u64, u64)>,
}
