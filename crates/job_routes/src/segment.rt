//! Stages that look at one item at a time, and what ends them.

ghost use Rattle.std.specs.Prelude.{◌≡◌};
ghost use Rattle.job_routes.specs.Legs.{is_in_order, segment_in};

use crate::ends::SegmentEnd;
use crate::many::makes_many;
use crate::numbered_stages::NumberedStages;

/// Stages that look at one item at a time, and what ends them: the end is the stage after them.
#[derive(Drop)]
pub struct Segment {
    pub stages: NumberedStages,
    pub end: SegmentEnd,
}

/// How many `flatMap`s to lists may stand in an exact sum that is cut into pieces: one item becomes at most 4,096.
const LISTS: u32 = 2;

impl Segment {
    /// Whether it is walked in order, whatever its length is: an exact sum of the many items that one may be made into.
    /// The only end of a piece may be the item at which the sum from the left is outside 64 bits.
    pub(crate) fn is_in_order(&self) -> bool
        ensures { result ≡ is_in_order (segment_in self.now) }
    {
        match self.end {
            SegmentEnd::ExactSum => makes_many(&self.stages.list, LISTS),
            _ => false,
        }
    }
}
