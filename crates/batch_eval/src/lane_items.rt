//! Items in lanes: values that lie side by side in memory, with their places.

ghost use Rattle.batch_eval.specs.Batches.{CountsUp, item_at, laid_items, lanes, origin_at};
ghost use Rattle.std.specs.Prelude.{◌≡◌, ◌+◌, ◌<◌, ◌≤◌, ◌^◌, ℕ, None, Some, drop, length, take};

use crate::batch::origin_of;
use crate::listing::copy_front;
use trace::{Item, SourceItems};

/// Items in lanes. Their values lie side by side in memory, and so do their places, unless these count up from one.
#[derive(Clone, Copy)]
pub struct LaneItems<'a> {
    pub start: Option<u64>,
    pub places: &'a [u64],
    pub values: &'a [i64],
    ghost counts: { (first : ℕ) → start ≡ Some first → first + length values.now < 2 ^ 64 },
    ghost listed: { start ≡ None → length places.now ≡ length values.now },
}

impl<'a> LaneItems<'a> {
    /// The items of the first lanes of registers.
    pub(crate) fn front(
        live: usize,
        start: Option<u64>,
        origins: &'a [u64],
        values: &'a [i64],
    ) -> LaneItems<'a>
        requires counts { CountsUp start live }
        requires origins { live ≤ length origins.now }
        requires values { live ≤ length values.now }
        ensures items { laid_items result.start result.places.now result.values.now
            ≡ lanes live (item_at start origins.now values.now) }
        ensures count { length result.values.now ≡ live }
    {
        LaneItems {
            start,
            places: &origins[..live],
            values: &values[..live],
        }
    }

    /// Some of the items, one after the other.
    pub fn part(self, from: u64, count: u64) -> LaneItems<'a>
        requires { from + count ≤ length self.values.now }
        ensures items { laid_items result.start result.places.now result.values.now
            ≡ take count (drop from (laid_items self.entry.start self.entry.places.now self.entry.values.now)) }
        ensures count { length result.values.now ≡ count }
    {
        let first = from as usize;
        let end = first + count as usize;
        let values = &self.values[first..end];
        let Some(start) = self.start else {
            return LaneItems {
                start: None,
                places: &self.places[first..end],
                values,
            };
        };
        LaneItems {
            start: Some(start + from),
            places: self.places,
            values,
        }
    }

    /// Copies the places to the front of others, if they are listed.
    pub(crate) fn copy_places(self, to: &mut [u64])
        requires { length self.values.now ≤ length to.old }
        ensures places { (k : ℕ) → k < length self.entry.values.now
            → origin_at self.entry.start to.new k ≡ origin_at self.entry.start self.entry.places.now k }
        ensures size { length to.new ≡ length to.old }
    {
        if self.start.is_none() {
            copy_front(self.places, to);
        }
    }
}

impl SourceItems for LaneItems<'_> {
    ghost items = { λ lanes. laid_items lanes.start lanes.places.now lanes.values.now };

    fn count(&self) -> u64 {
        self.values.len() as u64
    }

    fn item_at(&self, position: u64) -> Item {
        let lane = position as usize;
        Item {
            origin: origin_of(self.start, self.places, lane),
            value: self.values[lane],
        }
    }
}
