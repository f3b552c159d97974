//! What a fold keeps of a piece: one partial result, and how it is finished.

ghost use Rattle.std.specs.Prelude.{◌≡◌, ◌≤◌, ℤ, Bool, true, false, List, [], ◌∷◌, length, map, Option};
ghost use Rattle.trace.specs.Trace.{Trace, trace, nothing, append};
ghost use Rattle.trace.specs.declared.item.End.TheVariants as end;
ghost use Rattle.lambda_values.specs.declared.item.Item.{Item as item};
ghost use Rattle.reduce_ops.specs.declared.op.Op.{Op};
ghost use Rattle.job_plan.specs.Parts.{IsFold};
ghost use Rattle.prefix_walks.specs.Batches.{counted_as};
ghost use Rattle.job_routes.specs.Legs.{folded};
ghost use Rattle.job_meaning.specs.Walks.{unless_fault};
ghost use Rattle.job_plan.specs.declared.part.Part.TheVariants as part;

use crate::end_part::{EndPart, LastStage, is_fault};
use batch_eval::{FlaggedLanes, LaneItems};
use job_meaning::Answer;
use job_routes::Fold;
use lambda_values::Run;
use prefix_walks::{folded, folded_flagged, folded_run, folds_runs};
use reduce_ops::Partial;
use trace::{End, Item, NoMemory};

/// The fold of a piece.
#[derive(Clone, Copy)]
pub struct FoldPart {
    pub(crate) partial: Partial,
    pub(crate) start: Option<i64>,
    pub(crate) counts: bool,
}

impl FoldPart {
    /// The fold of no item.
    pub(crate) fn none(fold: Fold) -> FoldPart
        ensures { IsFold fold.op fold.start fold.counts result nothing }
    {
        FoldPart {
            partial: Partial::none(fold.op, End::Done),
            start: fold.start,
            counts: fold.counts,
        }
    }

    /// The answer of the fold.
    pub(crate) fn finish(self) -> Answer
        ensures { (f : Op) (a : Option ℤ) (counts : Bool) (t : Trace) → IsFold f a counts self t
            → result ≡ unless_fault t.ending (folded f a (counted_as counts t.items)) }
    {
        match self.start {
            Some(start) => match self.partial.finish_from(start) {
                Ok(number) => Answer::Number(number),
                Err(fault) => Answer::Fault(fault),
            },
            None => match self.partial.finish() {
                Ok(value) => Answer::Optional(value),
                Err(fault) => Answer::Fault(fault),
            },
        }
    }
}

impl EndPart for FoldPart {
    ghost as_part = { part.Fold };

    fn push(&mut self, _last: LastStage<'_, '_>, item: Item) -> Result<(), NoMemory> {
        self.partial.push(counted(self.counts, item));
        Ok(())
    }

    fn push_all(
        &mut self,
        _last: LastStage<'_, '_>,
        lanes: LaneItems<'_>,
        _room: &mut [i64],
    ) -> Result<(), NoMemory> {
        let right = folded(self.partial.op(), self.counts, lanes.values);
        self.partial = self.partial.merge(right);
        Ok(())
    }

    fn push_flagged(&mut self, lanes: FlaggedLanes<'_>) -> bool {
        match folded_flagged(self.partial.op(), self.counts, lanes) {
            Some(right) => {
                self.partial = self.partial.merge(right);
                true
            }
            None => false,
        }
    }

    fn takes_runs(&self) -> bool {
        folds_runs(self.partial.op(), self.counts)
    }

    fn push_run(&mut self, run: Run) -> bool {
        match folded_run(self.partial.op(), self.counts, run) {
            Some(right) => {
                self.partial = self.partial.merge(right);
                true
            }
            None => false,
        }
    }

    fn end_with(&mut self, ending: End) {
        self.partial.end_with(ending);
    }

    fn is_settled(&self) -> bool {
        is_fault(self.partial.end())
    }

    fn merge(self, right: FoldPart) -> Result<FoldPart, (FoldPart, FoldPart)> {
        Ok(FoldPart {
            partial: self.partial.merge(right.partial),
            start: self.start,
            counts: self.counts,
        })
    }
}

/// The item, or a 1 in its place.
fn counted(counts: bool, item: Item) -> Item
    ensures { result ∷ [] ≡ counted_as counts (item ∷ []) }
{
    if counts {
        return Item {
            origin: item.origin,
            value: 1,
        };
    }
    item
}
