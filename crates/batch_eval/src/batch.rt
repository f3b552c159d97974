//! A batch of items in registers, and the stages over it.

ghost use Rattle.batch_eval.specs.Batches.{CountsUp, StopsInside, end_after, item_at, lanes};
ghost use Rattle.batch_eval.specs.BatchItems.{laid};
ghost use Rattle.batch_eval.specs.Batches.{origin_at};
ghost use Rattle.batch_eval.specs.Lanes.{at};
ghost use Rattle.batch_eval.specs.Pours.{inner_items};
ghost use Rattle.batch_eval.specs.Rooms.{Fits};
ghost use Rattle.lambda_values.specs.Term.{long_of};
ghost use Rattle.std.specs.Prelude.{◌≡◌, ◌+◌, ◌<◌, ◌≤◌, ◌^◌, List, [], ◌++◌, IfOk, IsTrue, None, Some, length, map};
ghost use Rattle.std.specs.Prelude.{take};
ghost use Rattle.trace.specs.Cover.{counted, placed};
ghost use Rattle.trace.specs.Stages.{of_item};
ghost use Rattle.trace.specs.Stages.{map as abstract_map};
ghost use Rattle.trace.specs.Trace.{each, trace};
ghost use Rattle.lambda_values.specs.declared.item.Item.{Item};

use crate::counted::eval_counted;
use crate::lane_items::LaneItems;
use crate::listing::{copy_front, list_numbers, list_places, list_values};
use crate::pipeline::Pipeline;
use crate::reached::Reached;
use crate::register::{Inputs, LANES, eval_long};
use crate::rows::Rows;
use lambda_values::LongExpr;
use std::alloc::Global;
use std::marker::Model;
use std::mem;
use trace::{End, Fault, InnerItems, Item, NoMemory, RangeItems, SourceItems};

/// Up to 1,024 items in registers, and how the walk ends after them.
///
/// Contracts see a batch as the trace of those items.
#[derive(Drop)]
pub(crate) struct Batch {
    pub(crate) live: usize,
    /// The place of the first lane, if the places count up from it; else they are listed.
    pub(crate) start: Option<u64>,
    pub(crate) origins: Vec<u64>,
    pub(crate) values: Vec<i64>,
    pub(crate) spare: Vec<i64>,
    pub(crate) end: End,
}

impl Model for Batch {
    ghost use Rattle.batch_eval.specs.Batches.{IsSized, item_at, lanes};
    ghost use Rattle.trace.specs.Trace.{Trace, trace};

    ghost Value = { Trace };

    ghost view = { λ b. trace (lanes b.live (item_at b.start b.origins.items b.values.items)) b.end };

    ghost invariant = { λ b. IsSized b.live b.start b.origins.items b.values.items b.spare.items };
}

/// The place of a lane.
pub(crate) fn origin_of(start: Option<u64>, origins: &[u64], lane: usize) -> u64
    requires counts { CountsUp start (lane + 1) }
    requires listed { start ≡ None → lane < length origins.now }
    ensures { result ≡ origin_at start origins.now lane }
{
    match start {
        Some(start) => start + lane as u64,
        None => origins[lane],
    }
}

/// The value of a lane.
fn value_of(values: &[i64], lane: usize) -> i64
    requires { lane < length values.now }
    ensures { result ≡ at values.now lane }
{
    values[lane]
}

/// How a batch ends after a stage: as before, or by the fault of the lane after those that went on.
pub(crate) fn stopped(
    end: End,
    stage: u32,
    live: usize,
    start: Option<u64>,
    origins: &[u64],
    reached: Reached,
) -> End
    requires counts { CountsUp start live }
    requires listed { start ≡ None → live ≤ length origins.now }
    requires inside { StopsInside reached.fault reached.live live }
    ensures { result ≡ end_after end stage (origin_at start origins.now reached.live) reached.fault }
{
    match reached.fault {
        None => end,
        Some(kind) => End::Fault(Fault {
            kind,
            stage,
            origin: Some(origin_of(start, origins, reached.live)),
        }),
    }
}

impl Batch {
    /// An empty batch.
    pub(crate) fn new(alloc: Global) -> Result<Batch, NoMemory>
        ensures { IfOk result (λ batch. batch ≡ trace [] End.Done) }
    {
        Ok(Batch {
            live: 0,
            start: None,
            values: vec![in alloc; 0i64; LANES]?,
            origins: vec![in alloc; 0u64; LANES]?,
            spare: vec![in alloc; 0i64; LANES]?,
            end: End::Done,
        })
    }

    /// `map` of `LongStream`: the image of each item, at the place of that item.
    pub(crate) fn map(&mut self, image: &LongExpr, line: Pipeline<'_>, room: &mut [i64])
        requires { Fits (long_of image.now) (length room.old) }
        ensures { self.new ≡ each (of_item line.entry.first (abstract_map (long_of image.now)) line.entry.env.now)
            self.old.items self.old.ending }
    {
        let inputs = Inputs {
            env: line.env,
            xs: &self.values,
            live: self.live,
            rows: Rows::of(self.start, &self.origins),
        };
        let reached = eval_long(image, inputs, &mut self.spare, room);
        self.end = stopped(
            self.end,
            line.first,
            self.live,
            self.start,
            &self.origins,
            reached,
        );
        self.live = reached.live;
        mem::swap(&mut self.values, &mut self.spare);
    }

    /// Starts again with the images of items that lie elsewhere.
    pub(crate) fn map_from(
        &mut self,
        lanes: LaneItems<'_>,
        image: &LongExpr,
        line: Pipeline<'_>,
        room: &mut [i64],
    )
        requires lanes { length lanes.values.now ≤ 1024 }
        requires room { Fits (long_of image.now) (length room.old) }
        ensures { self.new ≡ each (of_item line.entry.first (abstract_map (long_of image.now)) line.entry.env.now)
            (laid lanes.entry) End.Done }
    {
        let live = lanes.values.len();
        let inputs = Inputs {
            env: line.env,
            xs: lanes.values,
            live,
            rows: Rows::of(lanes.start, lanes.places),
        };
        let reached = eval_long(image, inputs, &mut self.values, room);
        self.end = stopped(
            End::Done,
            line.first,
            live,
            lanes.start,
            lanes.places,
            reached,
        );
        lanes.copy_places(&mut self.origins);
        self.live = reached.live;
        self.start = lanes.start;
    }

    /// Starts again with the images of a range, if there are loops for it that read no register; else answers false.
    pub(crate) fn map_counted(
        &mut self,
        range: &RangeItems,
        image: &LongExpr,
        line: Pipeline<'_>,
    ) -> bool
        requires { range.now.count ≤ 1024 }
        ensures { IsTrue result → self.new ≡ each
            (of_item line.entry.first (abstract_map (long_of image.now)) line.entry.env.now)
            (placed range.now.origin (counted range.now.first range.now.count)) End.Done }
    {
        let live = range.count as usize;
        let counted = eval_counted(
            image,
            line.env,
            range.origin,
            range.first,
            live,
            &mut self.values,
        );
        let Some(reached) = counted else {
            return false;
        };
        let start = Some(range.origin);
        self.end = stopped(End::Done, line.first, live, start, &self.origins, reached);
        self.live = reached.live;
        self.start = start;
        true
    }

    /// Starts again with the items of a range.
    pub(crate) fn count_up(&mut self, range: &RangeItems)
        requires { range.now.count ≤ 1024 }
        ensures { self.new
            ≡ trace (placed range.now.origin (counted range.now.first range.now.count)) End.Done }
    {
        let live = range.count as usize;
        list_numbers(range.first, 1, live, &mut self.values);
        self.live = live;
        self.start = Some(range.origin);
        self.end = End::Done;
    }

    /// Starts again with items that lie elsewhere.
    pub(crate) fn copy(&mut self, lanes: LaneItems<'_>)
        requires { length lanes.values.now ≤ 1024 }
        ensures { self.new ≡ trace (laid lanes.entry) End.Done }
    {
        copy_front(lanes.values, &mut self.values);
        lanes.copy_places(&mut self.origins);
        self.live = lanes.values.len();
        self.start = lanes.start;
        self.end = End::Done;
    }

    /// No items, and a walk that is done.
    pub(crate) fn clear(&mut self)
        ensures { self.new ≡ trace [] End.Done }
    {
        self.live = 0;
        self.start = None;
        self.end = End::Done;
    }

    /// Ends the walk so after the items.
    pub(crate) fn end_with(&mut self, end: End)
        ensures { self.new ≡ trace self.old.items end }
    {
        self.end = end;
    }

    /// Adds values of an inner stream, from a position on, after the items that are there.
    pub(crate) fn add(&mut self, source: &InnerItems<'_>, position: u64, count: u64)
        requires within { position + count ≤ length (inner_items source.now) }
        requires bound { length (inner_items source.now) < 2 ^ 64 }
        requires space { length self.old.items + count ≤ 1024 }
        ensures items { (part : List Item) × (self.new.items ≡ self.old.items ++ part)
            × (take (position + count) (inner_items source.now) ≡ take position (inner_items source.now) ++ part) }
        ensures ending { self.new.ending ≡ self.old.ending }
    {
        let count = count as usize;
        list_places(self.start, self.live, &mut self.origins);
        self.start = None;
        list_values(
            source,
            position,
            self.live,
            count,
            &mut self.origins,
            &mut self.values,
        );
        self.live += count;
    }

    /// The items, where they lie.
    pub(crate) fn lanes(&self) -> LaneItems<'_>
        ensures { laid result ≡ self.now.items }
    {
        LaneItems::front(self.live, self.start, &self.origins, &self.values)
    }

    /// The values of the items, in encounter order.
    pub(crate) fn values(&self) -> &[i64]
        ensures { result.now ≡ map (λ x. x.value) self.now.items }
    {
        &self.values[..self.live]
    }

    /// How the walk ends after the items.
    pub(crate) fn end(&self) -> End
        ensures { result ≡ self.now.ending }
    {
        self.end
    }
}

impl SourceItems for Batch {
    ghost items = { λ batch. batch.items };

    fn count(&self) -> u64 {
        self.live as u64
    }

    fn item_at(&self, position: u64) -> Item {
        let lane = position as usize;
        Item {
            origin: origin_of(self.start, &self.origins, lane),
            value: value_of(&self.values, lane),
        }
    }
}
