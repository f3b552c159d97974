//! What a piece gives to a find or a match at the end of a segment.

ghost use Rattle.job_plan.specs.declared.part.Part.TheVariants as part;

use crate::end_part::{EndPart, LastStage};
use crate::fronts::undecided;
use batch_eval::LaneItems;
use find_ops::FindPart;
use job_routes::SegmentEnd;
use trace::{End, Item, NoMemory};

impl EndPart for FindPart {
    ghost as_part = { part.Find };

    fn push(&mut self, last: LastStage<'_, '_>, item: Item) -> Result<(), NoMemory> {
        if let SegmentEnd::Find(find) = last.end {
            *self = self.look_at(find, last.number, last.env, item);
        }
        Ok(())
    }

    fn push_all(
        &mut self,
        last: LastStage<'_, '_>,
        lanes: LaneItems<'_>,
        room: &mut [i64],
    ) -> Result<(), NoMemory> {
        if let SegmentEnd::Find(find) = last.end {
            let first = undecided(find, last.env, lanes, room);
            *self = self.look_after(find, last.number, last.env, &lanes, first);
        }
        Ok(())
    }

    fn end_with(&mut self, ending: End) {
        *self = FindPart::end_with(*self, ending);
    }

    fn is_settled(&self) -> bool {
        self.is_decided()
    }

    fn merge(self, right: FindPart) -> Result<FindPart, (FindPart, FindPart)> {
        Ok(FindPart::merge(self, right))
    }
}
