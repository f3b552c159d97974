//! Items of a piece that are worked out where they are read.

ghost use Rattle.std.specs.Prelude.{◌≡◌, ◌≤◌, length};
ghost use Rattle.trace.specs.Stages.{stages_of};
ghost use Rattle.batch_eval.specs.BatchItems.{batch_items};
ghost use Rattle.batch_eval.specs.Faultless.{left_by};

use crate::cheap_stages::CheapStages;
use batch_eval::BatchItems;

/// What cheap stages leave of up to 1,024 items of a source: this number of items.
#[derive(Drop)]
pub struct Worked<'a> {
    pub(crate) stages: CheapStages<'a>,
    pub(crate) lent: BatchItems<'a>,
    pub(crate) count: usize,
    ghost few: { length (batch_items lent) ≤ 1024 },
    ghost counted: { count ≡ length (left_by (stages_of stages.stages.now) (batch_items lent)) },
}
