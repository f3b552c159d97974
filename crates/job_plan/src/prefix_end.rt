//! What a piece gives to a prefix at the end of a segment.

ghost use Rattle.job_plan.specs.declared.part.Part.TheVariants as part;

use crate::end_part::{EndPart, LastStage, is_fault};
use batch_eval::LaneItems;
use prefix_walks::PrefixPart;
use trace::{End, NoMemory};

impl<'a> EndPart for PrefixPart<'a> {
    ghost as_part = { part.Prefix };

    fn push_all(
        &mut self,
        _last: LastStage<'_, '_>,
        lanes: LaneItems<'_>,
        _room: &mut [i64],
    ) -> Result<(), NoMemory> {
        PrefixPart::push_all(self, &lanes, lanes.values)
    }

    fn end_with(&mut self, ending: End) {
        PrefixPart::end_with(self, ending);
    }

    fn is_settled(&self) -> bool {
        is_fault(self.end())
    }

    fn merge(
        mut self,
        right: PrefixPart<'a>,
    ) -> Result<PrefixPart<'a>, (PrefixPart<'a>, PrefixPart<'a>)> {
        match self.append(right) {
            Ok(()) => Ok(self),
            Err(right) => Err((self, right)),
        }
    }
}
