//! The stages that make a batch no longer, over a batch.

ghost use Rattle.batch_eval.specs.BatchItems.{laid};
ghost use Rattle.batch_eval.specs.Pipelines.{AreImages, piped, walk_from};
ghost use Rattle.batch_eval.specs.Rooms.{FitsEach, FitsStages};
ghost use Rattle.std.specs.Prelude.{◌≡◌, ◌≤◌, IfSome, IsTrue, length, take};
ghost use Rattle.trace.specs.Stages.{stages_of};
ghost use Rattle.trace.specs.Trace.{trace};

use crate::batch::Batch;
use crate::cheap::stay_in_lanes;
use crate::faultless::are_maps;
use crate::lane_items::LaneItems;
use crate::pipeline::Pipeline;
use crate::register::LANES;
use trace::{End, Stage};

// Functions of their own keep what is there for each kind of sink small.
impl Batch {
    /// Starts again with what the first stage makes of items that lie elsewhere, if it is a `map`, or with a copy of
    /// them. The result are the stages to come.
    #[inline(never)]
    pub(crate) fn begin<'a>(
        &mut self,
        lanes: LaneItems<'_>,
        line: Pipeline<'a>,
        room: &mut [i64],
    ) -> Pipeline<'a>
        requires lanes { length lanes.values.now ≤ 1024 }
        requires room { FitsStages (stages_of line.stages.now) (length room.old) }
        ensures walk { piped result self.new ≡ piped line.entry (trace (laid lanes.entry) End.Done) }
        ensures room { FitsStages (stages_of result.stages.now) (length room.old) }
    {
        let Some((Stage::Map(image), later)) = line.split_first() else {
            self.copy(lanes);
            return line;
        };
        let (_, room) = room.split_at_mut(LANES);
        self.map_from(lanes, image, line, room);
        later
    }

    /// Starts again with the images of all items that lie elsewhere, by one stage or more. The answer is false if a
    /// stage isn't a `map` or an item has no image: then the batch has other items.
    #[inline(never)]
    pub(crate) fn map_lanes(
        &mut self,
        lanes: LaneItems<'_>,
        line: Pipeline<'_>,
        room: &mut [i64],
    ) -> bool
        requires lanes { length lanes.values.now ≤ 1024 }
        requires room { FitsStages (stages_of line.stages.now) (length room.old) }
        ensures images { IsTrue result → AreImages line.entry (laid lanes.entry) self.new.items }
        ensures count { IsTrue result → length self.new.items ≡ length lanes.entry.values.now }
    {
        if !are_maps(line.stages) {
            return false;
        }
        let Some((Stage::Map(image), later)) = line.split_first() else {
            return false;
        };
        let (_, room) = room.split_at_mut(LANES);
        self.map_from(lanes, image, line, room);
        self.live == lanes.values.len() && self.map_all(later, room)
    }

    /// Goes through these `map`s over all items, and answers whether each item has an image.
    fn map_all(&mut self, line: Pipeline<'_>, room: &mut [i64]) -> bool
        requires room { FitsEach (stages_of line.stages.now) (length room.old) }
        ensures images { IsTrue result → AreImages line.entry self.old.items self.new.items }
        ensures count { IsTrue result → length self.new.items ≡ length self.old.items }
    {
        match line.split_first() {
            Some((Stage::Map(image), later)) => {
                let live = self.live;
                self.map(image, line, room);
                self.live == live && self.map_all(later, room)
            }
            Some(_) => false,
            None => true,
        }
    }

    /// Goes through the stages up to the first `flatMap`, or, for a sink that takes flags, up to a `filter` that comes
    /// last. The result are the stages to come. If it is `None`, all were gone through, and only the items of the lanes
    /// whose flag is set passed: the flags are in the first register of the room.
    #[inline(never)]
    pub(crate) fn go_on<'a>(
        &mut self,
        line: Pipeline<'a>,
        takes_flags: bool,
        room: &mut [i64],
    ) -> Option<Pipeline<'a>>
        requires { FitsStages (stages_of line.stages.now) (length room.old) }
        ensures walk { walk_from result (take 1024 room.new) self.new ≡ piped line.entry self.old }
        ensures fewer { IfSome result (λ rest. length rest.stages.now ≤ length line.entry.stages.now) }
        ensures room { IfSome result (λ rest. FitsStages (stages_of rest.stages.now) (length room.old)) }
    {
        let (flags, rest) = room.split_at_mut(LANES);
        match line.split_first() {
            Some((Stage::Map(image), later)) => {
                self.map(image, line, rest);
                self.go_on(later, takes_flags, room)
            }
            Some((Stage::Filter(test), later)) if !takes_flags || !later.stages.is_empty() => {
                self.flag_lanes(test, line, flags, rest);
                let in_lanes = stay_in_lanes(later.stages, takes_flags);
                let later = self.sift(later, in_lanes, flags, rest);
                if takes_flags && later.stages.is_empty() {
                    return None;
                }
                self.keep(flags);
                self.go_on(later, takes_flags, room)
            }
            _ => Some(line),
        }
    }
}
