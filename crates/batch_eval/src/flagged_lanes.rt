//! Values in lanes with a flag each.

ghost use Rattle.batch_eval.specs.Batches.{origin_at};
ghost use Rattle.batch_eval.specs.LaneValues.{lanes_with, value_at};
ghost use Rattle.std.specs.Prelude.{◌≡◌, ℕ, ◌+◌, ◌<◌, ◌≤◌, ◌^◌, None, Some, length};

use crate::batch::origin_of;
use crate::lanes::{Counting, Lanes};
use crate::number_test::NumberTest;
use trace::Item;

/// The values of lanes: where they lie, or the first of integers that count up.
#[derive(Clone, Copy)]
pub enum LaneValues<'a> {
    Listed(&'a [i64]),
    CountUp(i64),
}

impl LaneValues<'_> {
    /// The value of a lane.
    pub fn at_lane(self, lane: usize) -> i64
        requires { lane < lanes_with self }
        ensures { result ≡ value_at self.entry lane }
    {
        match self {
            LaneValues::Listed(values) => values[lane],
            LaneValues::CountUp(first) => Counting(first).get(lane, 0),
        }
    }
}

/// Values in lanes, a flag for each of the first lanes, and the test that says which flags are set. The items are the
/// values of the lanes whose flag is set.
#[derive(Clone, Copy)]
pub struct FlaggedLanes<'a> {
    pub(crate) start: Option<u64>,
    pub(crate) origins: &'a [u64],
    pub values: LaneValues<'a>,
    pub flags: &'a [i64],
    pub set: NumberTest,
    ghost counts: { (first : ℕ) → start ≡ Some first → first + length flags.now < 2 ^ 64 },
    ghost listed: { start ≡ None → length flags.now ≤ length origins.now },
    ghost valued: { length flags.now ≤ lanes_with values },
}

impl FlaggedLanes<'_> {
    /// The item of a lane, whatever its flag is.
    pub(crate) fn item(self, lane: usize) -> Item
        requires { lane < length self.flags.now }
        ensures { result ≡ record {
          origin = origin_at self.entry.start self.entry.origins.now lane;
          value = value_at self.entry.values lane;
        } }
    {
        Item {
            origin: origin_of(self.start, self.origins, lane),
            value: self.values.at_lane(lane),
        }
    }
}
