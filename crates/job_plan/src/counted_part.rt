//! The part of a count after stages that leave one item for each that they take: no item is looked at.

ghost use Rattle.std.specs.Prelude.{◌≡◌, ◌≤◌, ◌^◌, List, IfSome, length, true};
ghost use Rattle.lambda_values.specs.Earlier.{Numbers};
ghost use Rattle.trace.specs.Trace.{Trace, trace};
ghost use Rattle.trace.specs.declared.item.End.TheVariants as end;
ghost use Rattle.lambda_values.specs.declared.item.Item.{Item as item};
ghost use Rattle.reduce_ops.specs.Folds.{ones};
ghost use Rattle.reduce_ops.specs.Parts.{StandsFor as FoldStands};
ghost use Rattle.job_plan.specs.Parts.{IsFold, StandsFor, walk_in};
ghost use Rattle.job_routes.specs.Legs.{segment_in};
ghost use Rattle.prefix_walks.specs.Pieces.{piece_of};

use crate::fold_part::FoldPart;
use crate::part::Part;
use crate::source::Source;
use batch_eval::{are_faultless, are_maps};
use job_routes::{Fold, Segment, SegmentEnd};
use prefix_walks::{Window, within};
use reduce_ops::{Op, Partial};
use trace::{End, Item, MAX_SOURCE_SIZE, Stage};

/// The part of the items at these positions, if the segment counts them and its stages are maps that can't have a
/// fault: it has the number of the positions. `None` also if the source has more than 2^62 items.
///
/// It takes time for each stage, and for each source of the job, but not for the items.
pub(crate) fn counted_part<'p>(
    segment: &Segment,
    source: &Source,
    window: Window,
) -> Option<Part<'p>>
    ensures { IfSome result (λ part. (env : Numbers)
        → StandsFor (segment_in segment.now) env part (piece_of window.from window.to (walk_in source.now))) }
{
    let SegmentEnd::Fold(fold) = &segment.end else {
        return None;
    };
    if !is_count(*fold) {
        return None;
    }
    let stages: &[Stage] = &segment.stages.list;
    if !are_maps(stages) || !are_faultless(stages) {
        return None;
    }
    let size = source.size();
    if size > MAX_SOURCE_SIZE {
        return None;
    }
    let (_, count) = within(window.from, window.to, size);
    let part = FoldPart::of_count(*fold, count, source.piece_end(window.to));
    Some(Part::Fold(part))
}

/// Whether a fold adds up a 1 for each item.
fn is_count(fold: Fold) -> bool
    ensures { result ≡ true → (fold.op ≡ Op.Sum) × (fold.counts ≡ true) }
{
    fold.counts && matches!(fold.op, Op::Sum)
}

impl FoldPart {
    /// The fold of this number of items, of a walk with this end.
    fn of_count(fold: Fold, count: u64, ending: End) -> FoldPart
        requires adds { fold.op ≡ Op.Sum }
        requires counts { fold.counts ≡ true }
        requires few { count ≤ 2 ^ 62 }
        ensures { (t : Trace) → length t.items ≡ count → t.ending ≡ ending
            → IsFold fold.op fold.start fold.counts result t }
    {
        let mut partial = sum_of_ones(count);
        partial.end_with(ending);
        FoldPart {
            partial,
            start: fold.start,
            counts: fold.counts,
        }
    }
}

/// The sum of this number of ones.
fn sum_of_ones(count: u64) -> Partial
    requires few { count ≤ 2 ^ 62 }
    ensures op { result.op ≡ Op.Sum }
    ensures stands { (xs : List item) → length xs ≡ count → FoldStands result (trace (ones xs) end.Done) }
{
    if count == 0 {
        return Partial::none(Op::Sum, End::Done);
    }
    let value = count as i64;
    Partial::of(Op::Sum, Item { origin: 0, value })
}
