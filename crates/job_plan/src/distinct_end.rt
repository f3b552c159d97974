//! What a piece gives to `distinct` at the end of a segment.

ghost use Rattle.std.specs.Prelude.{◌≡◌, [], ℕ, Option, IfOk};
ghost use Rattle.trace.specs.Trace.{Trace};
ghost use Rattle.sort_ops.specs.Firsts.{distinct_walk};
ghost use Rattle.sort_ops.specs.Parts.{AreFirsts, done_after};
ghost use Rattle.job_plan.specs.declared.part.Part.TheVariants as part;

use crate::end_part::{EndPart, LastStage, is_fault};
use batch_eval::LaneItems;
use prefix_walks::GivenWalk;
use sort_ops::DistinctPart;
use trace::{End, NoMemory};

impl EndPart for DistinctPart {
    ghost as_part = { part.Distinct };

    fn push_all(
        &mut self,
        _last: LastStage<'_, '_>,
        lanes: LaneItems<'_>,
        _room: &mut [i64],
    ) -> Result<(), NoMemory> {
        DistinctPart::push_all(self, &lanes)
    }

    fn end_with(&mut self, ending: End) {
        DistinctPart::end_with(self, ending);
    }

    fn is_settled(&self) -> bool {
        is_fault(self.end()) || self.is_full()
    }

    fn merge(mut self, right: DistinctPart) -> Result<DistinctPart, (DistinctPart, DistinctPart)> {
        match self.append(right) {
            Ok(()) => Ok(self),
            Err(right) => Err((self, right)),
        }
    }
}

/// What `distinct` gives of a whole walk.
pub(crate) fn distinct_walk<'a>(part: DistinctPart) -> Result<GivenWalk<'a>, NoMemory>
    ensures { IfOk result (λ given. (m : Option ℕ) (t : Trace) → AreFirsts m part t
        → given ≡ done_after m (distinct_walk [] t)) }
{
    let (items, end) = part.finish()?;
    Ok(GivenWalk::items(items, end))
}
