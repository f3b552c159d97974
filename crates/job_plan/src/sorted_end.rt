//! What a piece gives to `sorted` at the end of a segment.

ghost use Rattle.std.specs.Prelude.{◌≡◌, ℕ, Option, IfOk};
ghost use Rattle.trace.specs.Trace.{Trace};
ghost use Rattle.sort_ops.specs.Orders.{sorted_walk};
ghost use Rattle.sort_ops.specs.Parts.{done_after, least_of};
ghost use Rattle.job_plan.specs.declared.part.Part.TheVariants as part;

use crate::end_part::{EndPart, LastStage, is_fault};
use batch_eval::LaneItems;
use prefix_walks::GivenWalk;
use sort_ops::{ItemSlice, SortedPart};
use trace::{End, NoMemory};

impl EndPart for SortedPart {
    ghost as_part = { part.Sorted };

    fn push_all(
        &mut self,
        last: LastStage<'_, '_>,
        lanes: LaneItems<'_>,
        _room: &mut [i64],
    ) -> Result<(), NoMemory> {
        if last.end.keeps_places() {
            return SortedPart::push_all(self, &lanes);
        }
        SortedPart::push_all(self, &ItemSlice::Values(lanes.values))
    }

    fn end_with(&mut self, ending: End) {
        SortedPart::end_with(self, ending);
    }

    fn is_settled(&self) -> bool {
        is_fault(self.end())
    }

    fn merge(mut self, right: SortedPart) -> Result<SortedPart, (SortedPart, SortedPart)> {
        match self.append(right) {
            Ok(()) => Ok(self),
            Err(right) => Err((self, right)),
        }
    }
}

/// What `sorted` gives of a whole walk.
pub(crate) fn sorted_walk<'a>(part: SortedPart) -> Result<GivenWalk<'a>, NoMemory>
    ensures { IfOk result (λ given. (m : Option ℕ) (t : Trace) → part ≡ least_of m t
        → given ≡ done_after m (sorted_walk t)) }
{
    let (runs, end) = part.finish()?;
    Ok(GivenWalk::sorted(runs, end))
}
