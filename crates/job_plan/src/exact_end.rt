//! What a piece gives to an exact sum at the end of a segment.

ghost use Rattle.job_plan.specs.declared.part.Part.TheVariants as part;

use crate::end_part::{EndPart, LastStage};
use batch_eval::LaneItems;
use reduce_ops::SumPart;
use trace::{End, Item, NoMemory};

impl EndPart for SumPart {
    ghost as_part = { part.Exact };

    fn push(&mut self, last: LastStage<'_, '_>, item: Item) -> Result<(), NoMemory> {
        SumPart::push(self, last.number, item);
        Ok(())
    }

    fn push_all(
        &mut self,
        last: LastStage<'_, '_>,
        lanes: LaneItems<'_>,
        _room: &mut [i64],
    ) -> Result<(), NoMemory> {
        SumPart::push_all(self, last.number, &lanes, lanes.values);
        Ok(())
    }

    fn end_with(&mut self, ending: End) {
        SumPart::end_with(self, ending);
    }

    fn is_settled(&self) -> bool {
        SumPart::is_settled(self)
    }

    fn merge(self, right: SumPart) -> Result<SumPart, (SumPart, SumPart)> {
        Ok(SumPart::merge(self, right))
    }
}
