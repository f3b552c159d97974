//! Items that batches are made of.

ghost use Rattle.batch_eval.specs.BatchItems.{batch_items};
ghost use Rattle.std.specs.Int.{w64};
ghost use Rattle.std.specs.Prelude.{◌≡◌, ◌+◌, ◌<◌, ◌≤◌, ◌^◌, pos, ◌+ℤ◌, FitsSigned, drop, length, take};
ghost use Rattle.trace.specs.Cover.{placed};

use crate::lane_items::LaneItems;
use trace::{Item, RangeItems, SourceItems};

/// Items that batches are made of: they lie in lanes, or their values count up, and so do their places.
#[derive(Drop)]
pub enum BatchItems<'a> {
    Lanes(LaneItems<'a>),
    Range(RangeItems),
}

impl<'a> BatchItems<'a> {
    /// Values that lie side by side, at places that count up from this one.
    pub fn placed(origin: u64, values: &'a [i64]) -> BatchItems<'a>
        requires { origin + length values.now ≤ 2 ^ 62 }
        ensures { batch_items result ≡ placed origin values.now }
    {
        BatchItems::Lanes(LaneItems {
            start: Some(origin),
            places: &[],
            values,
        })
    }

    /// This many of the items, from a position on.
    pub fn part(&self, from: u64, count: u64) -> BatchItems<'a>
        requires some { 0 < count }
        requires within { from + count ≤ length (batch_items self.now) }
        ensures { batch_items result ≡ take count (drop from (batch_items self.now)) }
    {
        match self {
            BatchItems::Lanes(lanes) => BatchItems::Lanes(lanes.part(from, count)),
            BatchItems::Range(range) => BatchItems::Range(RangeItems {
                origin: range.origin + from,
                first: counted_from(range.first, from),
                count,
            }),
        }
    }
}

/// The integer at a position of those that count up from the first one.
fn counted_from(first: i64, position: u64) -> i64
    requires few { position ≤ 2 ^ 62 }
    requires fits { FitsSigned w64 (first +ℤ pos position) }
    ensures { result ≡ first +ℤ pos position }
{
    first + position as i64
}

impl SourceItems for BatchItems<'_> {
    ghost items = { λ items. batch_items items };

    fn count(&self) -> u64 {
        match self {
            BatchItems::Lanes(lanes) => lanes.count(),
            BatchItems::Range(range) => range.count(),
        }
    }

    fn item_at(&self, position: u64) -> Item {
        match self {
            BatchItems::Lanes(lanes) => lanes.item_at(position),
            BatchItems::Range(range) => range.item_at(position),
        }
    }
}
