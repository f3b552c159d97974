//! Items of a piece in a buffer, in which they are scanned, and out of which they are fed.

ghost use Rattle.std.specs.Prelude.{◌≡◌, ◌+◌, ◌≤◌, ◌<◌, ◌^◌, ◌++◌, ◌∷◌, [], ℕ, Some, length, map};
ghost use Rattle.trace.specs.declared.sink.Flow.TheVariants as flows;
ghost use Rattle.batch_eval.specs.Batches.{laid_items};
ghost use Rattle.reduce_ops.specs.Operators.{value_of};
ghost use Rattle.prefix_scan.specs.Scans.{fold_at, scan_at};
ghost use Rattle.sort_ops.specs.Runs.{items_of};
ghost use Rattle.prefix_walks.specs.Placing.{items_at, places_from};

use batch_eval::{BatchSink, LaneItems, accept_each};
use prefix_scan::scan_values;
use reduce_ops::Op;
use sort_ops::ItemSlice;
use std::marker::Model;
use trace::{Fed, Flow, Item, LongSink, NoMemory, SourceItems};

/// How many items a piece has at most.
pub(crate) const MOST_ITEMS: usize = 1_024;

/// Up to 1,024 items: their values, and their places, which count up from the first one or are listed. Contracts see
/// the list of the items.
///
/// As a sink it takes items as long as there is space for them. It needs no memory.
#[derive(Drop)]
pub(crate) struct PieceBuffer {
    start: Option<u64>,
    places: [u64; MOST_ITEMS],
    values: [i64; MOST_ITEMS],
    count: usize,
}

impl Model for PieceBuffer {
    ghost use Rattle.std.specs.Prelude.{List, take};
    ghost use Rattle.lambda_values.specs.declared.item.Item.{Item as item};
    ghost use Rattle.prefix_walks.specs.Placing.{IsBuffer, items_at};

    ghost Value = { List item };

    ghost view = { λ buffer.
        items_at buffer.start (take buffer.count buffer.places) (take buffer.count buffer.values) };

    ghost invariant = { λ buffer. IsBuffer buffer.start buffer.places buffer.values buffer.count };
}

impl PieceBuffer {
    /// A buffer without items.
    pub(crate) fn new() -> PieceBuffer
        ensures { result ≡ [] }
    {
        PieceBuffer {
            start: None,
            places: [0; MOST_ITEMS],
            values: [0; MOST_ITEMS],
            count: 0,
        }
    }

    /// Holds no items any more.
    pub(crate) fn clear(&mut self)
        ensures { self.new ≡ [] }
    {
        self.start = None;
        self.count = 0;
    }

    /// Starts again with these items, if there is space for them.
    pub(crate) fn hold(&mut self, lanes: LaneItems<'_>)
        ensures { length lanes.entry.values.now ≤ 1024
            → self.new ≡ items_at lanes.entry.start lanes.entry.places.now lanes.entry.values.now }
    {
        let count = lanes.values.len();
        if count > MOST_ITEMS {
            return;
        }
        if lanes.start.is_none() {
            self.places[..count].copy_from_slice(lanes.places);
        }
        self.values[..count].copy_from_slice(lanes.values);
        self.start = lanes.start;
        self.count = count;
    }

    /// Adds an item after the others, if there is space for it. The places are listed then.
    fn add(&mut self, item: Item)
        ensures { length self.old < 1024 → self.new ≡ self.old ++ item ∷ [] }
    {
        list_counted(self.start, &mut self.places[..self.count]);
        self.start = None;
        if self.count < MOST_ITEMS {
            self.places[self.count] = item.origin;
            self.values[self.count] = item.value;
            self.count += 1;
        }
    }

    /// Starts again with these items, if there is space for them.
    pub(crate) fn fill(&mut self, slice: ItemSlice<'_>)
        ensures { length (items_of slice.entry) ≤ 1024 → self.new ≡ items_of slice.entry }
    {
        self.clear();
        for position in 0..slice.count() {
            self.add(slice.item_at(position));
        }
    }

    /// The items, where they lie.
    pub(crate) fn lanes(&self) -> LaneItems<'_>
        ensures { laid_items result.start result.places.now result.values.now ≡ self.now }
    {
        LaneItems {
            start: self.start,
            places: &self.places[..self.count],
            values: &self.values[..self.count],
        }
    }

    /// The values.
    pub(crate) fn values(&self) -> &[i64]
        ensures { result.now ≡ map (λ x. x.value) self.now }
    {
        &self.values[..self.count]
    }

    /// Replaces each item at a position of the range by the fold of `start` and of all these items up to and with it;
    /// the others stay. The answer is the fold of all.
    pub(crate) fn scan(
        &mut self,
        op: Op,
        range: Option<(u64, u64)>,
        start: Option<i64>,
    ) -> Option<i64>
        ensures items { self.new ≡ scan_at (value_of op) range 0 start self.old }
        ensures fold { result ≡ fold_at (value_of op) range 0 start self.old }
    {
        scan_values(op, range, start, &mut self.values[..self.count])
    }
}

/// Lists places that count up from the first one, if it is given. Else they stay.
fn list_counted(start: Option<u64>, places: &mut [u64])
    requires { (first : ℕ) → start ≡ Some first → first + length places.old < 2 ^ 64 }
    ensures { places.new ≡ places_from start places.old }
{
    if let Some(first) = start {
        for i in 0..places.len() {
            places[i] = first + i as u64;
        }
    }
}

impl LongSink for PieceBuffer {
    ghost has_taken = { λ buffer items. length items ≤ 1024 → buffer ≡ items };

    ghost flow = { λ _. flows.More };

    ghost takes_memory = { ⊥ };

    fn accept(&mut self, item: Item) -> Result<Flow, NoMemory> {
        self.add(item);
        Ok(Flow::More)
    }
}

impl BatchSink for PieceBuffer {
    fn accept_lanes(&mut self, lanes: LaneItems<'_>, _room: &mut [i64]) -> Result<Fed, NoMemory> {
        if self.count == 0 {
            self.hold(lanes);
            return Ok(Fed::More);
        }
        accept_each(&lanes, self)
    }
}
