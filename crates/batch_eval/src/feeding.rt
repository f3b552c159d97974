//! Items in batches, through the stages and into a sink.

ghost use Rattle.batch_eval.specs.BatchItems.{batch_items, laid};
ghost use Rattle.batch_eval.specs.Pipelines.{piped};
ghost use Rattle.batch_eval.specs.Rooms.{FitsStages};
ghost use Rattle.std.specs.Prelude.{◌≡◌, ◌+◌, ◌<◌, ◌≤◌, ◌^◌, List, Ok, OnErr, false, length, take, true};
ghost use Rattle.trace.specs.Cover.{counted, placed};
ghost use Rattle.trace.specs.Sinks.{IsFed, flow_after};
ghost use Rattle.trace.specs.Stages.{stages_of};
ghost use Rattle.trace.specs.Trace.{trace};
ghost use Rattle.trace.specs.declared.feeding.Fed.TheVariants as fed;
ghost use Rattle.trace.specs.declared.item.End.TheVariants as end;
ghost use Rattle.lambda_values.specs.declared.item.Item.{Item};

use crate::batch_items::BatchItems;
use crate::cheap::stay_in_lanes;
use crate::flagged::{Tested, flag_counted, give_counted, give_passing};
use crate::lane_items::LaneItems;
use crate::pipeline::Pipeline;
use crate::register::LANES;
use crate::registers::{Registers, Space, may_grow};
use crate::sink::BatchSink;
use crate::staging::feed_batch;
use lambda_values::Run;
use trace::{End, Fed, Flow, NoMemory, RangeItems, SourceItems, Stage, feed_all};

/// The first batch of a walk. Each further one is four times as large, up to `most_items`, so that a sink that soon has
/// enough doesn't pay for a large one.
const FIRST_BATCH: u64 = 16;

/// Takes items through all stages and into a sink, a batch at a time.
///
/// The sink gets what `feed_all` of `trace` gives it. Each operator of a stage goes over a whole batch before the next
/// one, so lambdas may be evaluated at up to one batch of items more than decide the result, and after each `flatMap`
/// at one batch of inner values more. Expressions that need more than 527 registers are evaluated item by item. So are
/// all items if there are under 8 of them and no `flatMap`, if they are under 64 and no registers are there yet, or if
/// an allocation of registers failed. `NoMemory` comes from the sink alone, which then keeps what it has accepted
/// before.
pub fn feed_batches<S: BatchSink>(
    line: Pipeline<'_>,
    items: &BatchItems<'_>,
    registers: &mut Registers,
    sink: &mut S,
) -> Result<Fed, NoMemory>
    requires wants { S.flow sink.old ≡ Flow.More }
    ensures fed { (xs : List Item) → S.has_taken sink.old xs → IsFed S.has_taken xs
        (piped line.entry (trace (batch_items items.now) end.Done)) result sink.new }
    ensures flow { S.flow sink.new ≡ flow_after result }
    ensures refused { OnErr result S.takes_memory }
{
    if takes_run(line, items, sink) {
        return Ok(Fed::More);
    }
    feed_from(line, items, FIRST_BATCH, registers, sink)
}

/// Gives a sink the items of a range at once, if there is no stage and the sink takes them so. It answers whether the
/// sink took them.
fn takes_run<S: BatchSink>(line: Pipeline<'_>, items: &BatchItems<'_>, sink: &mut S) -> bool
    requires wants { S.flow sink.old ≡ Flow.More }
    ensures fed { result ≡ true → (xs : List Item) → S.has_taken sink.old xs → IsFed S.has_taken xs
        (piped line.entry (trace (batch_items items.now) end.Done)) (Ok fed.More) sink.new }
    ensures other { result ≡ false → sink.new ≡ sink.old }
    ensures flow { S.flow sink.new ≡ Flow.More }
{
    match items {
        BatchItems::Range(range) if line.stages.is_empty() && sink.takes_runs() => {
            sink.accept_run(Run {
                first: range.first,
                count: range.count,
            })
        }
        _ => false,
    }
}

/// Feeds items as `feed_batches` does, but the first batch may hold 1,024 items already. It is for items that were
/// in one batch together: they stay in one batch.
pub fn feed_at_once<S: BatchSink>(
    line: Pipeline<'_>,
    items: &BatchItems<'_>,
    registers: &mut Registers,
    sink: &mut S,
) -> Result<Fed, NoMemory>
    requires wants { S.flow sink.old ≡ Flow.More }
    ensures fed { (xs : List Item) → S.has_taken sink.old xs → IsFed S.has_taken xs
        (piped line.entry (trace (batch_items items.now) end.Done)) result sink.new }
    ensures flow { S.flow sink.new ≡ flow_after result }
    ensures refused { OnErr result S.takes_memory }
{
    feed_from(line, items, LANES as u64, registers, sink)
}

/// Feeds items as `feed_batches` does, with a first batch of `first` items.
fn feed_from<S: BatchSink>(
    line: Pipeline<'_>,
    items: &BatchItems<'_>,
    first: u64,
    registers: &mut Registers,
    sink: &mut S,
) -> Result<Fed, NoMemory>
    requires wants { S.flow sink.old ≡ Flow.More }
    requires some { 0 < first }
    requires few { first ≤ 1024 }
    ensures fed { (xs : List Item) → S.has_taken sink.old xs → IsFed S.has_taken xs
        (piped line.entry (trace (batch_items items.now) end.Done)) result sink.new }
    ensures flow { S.flow sink.new ≡ flow_after result }
    ensures refused { OnErr result S.takes_memory }
{
    let Some(mut space) = registers.take_for(line.stages, sink.test(), items.count()) else {
        return feed_all(line.stages, line.first, line.env, items, sink);
    };
    let fed = feed_pieces(line, items, first, &mut space, sink);
    registers.put_back(space);
    fed
}

/// Feeds items as `feed_batches` does, with a first batch of `first` items, through stages for which the room is
/// enough.
fn feed_pieces<S: BatchSink>(
    line: Pipeline<'_>,
    items: &BatchItems<'_>,
    first: u64,
    space: &mut Space,
    sink: &mut S,
) -> Result<Fed, NoMemory>
    requires wants { S.flow sink.old ≡ Flow.More }
    requires some { 0 < first }
    requires few { first ≤ 1024 }
    requires room { FitsStages (stages_of line.stages.now) (length space.old.room.items) }
    ensures fed { (xs : List Item) → S.has_taken sink.old xs → IsFed S.has_taken xs
        (piped line.entry (trace (batch_items items.now) end.Done)) result sink.new }
    ensures flow { S.flow sink.new ≡ flow_after result }
    ensures refused { OnErr result S.takes_memory }
{
    let count = items.count();
    let most = most_items(line.stages);
    let mut position = 0;
    let mut size = first;
    while position < count {
        let taken = size.min(count - position);
        match feed_piece(line, items, position, taken, space, sink)? {
            Fed::More => {}
            ended => return Ok(ended),
        }
        position += taken;
        size = (size * 4).min(most);
    }
    Ok(Fed::More)
}

/// How many items a batch has at most. Before a `flatMap` they fill half a register: with two operands for each and a
/// batch of inner values they then take 28 KB, so all stay in the first cache of a processor.
fn most_items(stages: &[Stage]) -> u64
    ensures some { 0 < result }
    ensures few { result ≤ 1024 }
{
    if may_grow(stages) {
        LANES as u64 / 2
    } else {
        LANES as u64
    }
}

/// Takes up to 1,024 of the items, from a position on.
fn feed_piece<S: BatchSink>(
    line: Pipeline<'_>,
    items: &BatchItems<'_>,
    position: u64,
    count: u64,
    space: &mut Space,
    sink: &mut S,
) -> Result<Fed, NoMemory>
    requires wants { S.flow sink.old ≡ Flow.More }
    requires room { FitsStages (stages_of line.stages.now) (length space.old.room.items) }
    requires some { 0 < count }
    requires lanes { count ≤ 1024 }
    requires within { position + count ≤ length (batch_items items.now) }
    requires bound { length (batch_items items.now) < 2 ^ 64 }
    ensures fed { (xs : List Item)
        → IsFed S.has_taken xs (piped line.entry (trace (take position (batch_items items.now)) end.Done))
        (Ok fed.More) sink.old
        → IsFed S.has_taken xs (piped line.entry (trace (take (position + count) (batch_items items.now)) end.Done))
        result sink.new }
    ensures flow { S.flow sink.new ≡ flow_after result }
    ensures refused { OnErr result S.takes_memory }
    ensures room { length space.new.room.items ≡ length space.old.room.items }
{
    match items.part(position, count) {
        BatchItems::Lanes(lanes) => feed_in_place(line, lanes, space, sink),
        BatchItems::Range(range) => feed_range(line, &range, space, sink),
    }
}

/// Takes up to 1,024 items whose values lie side by side. A `map` that comes first reads them there, and so does a
/// sink. So do a `filter` that comes first and the `map`s after it, if they are all and the sink takes flags.
fn feed_in_place<S: BatchSink>(
    line: Pipeline<'_>,
    lanes: LaneItems<'_>,
    space: &mut Space,
    sink: &mut S,
) -> Result<Fed, NoMemory>
    requires wants { S.flow sink.old ≡ Flow.More }
    requires room { FitsStages (stages_of line.stages.now) (length space.old.room.items) }
    requires lanes { length lanes.values.now ≤ 1024 }
    ensures fed { (xs : List Item) → S.has_taken sink.old xs → IsFed S.has_taken xs
        (piped line.entry (trace (laid lanes.entry) end.Done)) result sink.new }
    ensures flow { S.flow sink.new ≡ flow_after result }
    ensures refused { OnErr result S.takes_memory }
    ensures room { length space.new.room.items ≡ length space.old.room.items }
{
    let Some((stage, later)) = line.split_first() else {
        return sink.accept_lanes(lanes, &mut space.room);
    };
    if let Stage::Filter(test) = stage {
        let end = End::Done;
        if sink.takes_flags() && later.stages.is_empty() {
            let images = lanes;
            let tested = Tested { lanes, images, end };
            return give_passing(test, line, tested, &mut space.room, sink);
        }
        if stay_in_lanes(later.stages, sink.takes_flags())
            && space.batch.map_lanes(lanes, later, &mut space.room)
        {
            let images = space.batch.lanes();
            let tested = Tested { lanes, images, end };
            return give_passing(test, line, tested, &mut space.room, sink);
        }
    }
    let later = space.batch.begin(lanes, line, &mut space.room);
    feed_space(later, space, sink)
}

/// Takes the items of a range of up to 1,024 integers. A `map` that comes first reads none of them. Nor does a `filter`
/// that is all, if the sink takes flags.
fn feed_range<S: BatchSink>(
    line: Pipeline<'_>,
    range: &RangeItems,
    space: &mut Space,
    sink: &mut S,
) -> Result<Fed, NoMemory>
    requires wants { S.flow sink.old ≡ Flow.More }
    requires room { FitsStages (stages_of line.stages.now) (length space.old.room.items) }
    requires lanes { range.now.count ≤ 1024 }
    ensures fed { (xs : List Item) → S.has_taken sink.old xs → IsFed S.has_taken xs
        (piped line.entry (trace (placed range.now.origin (counted range.now.first range.now.count)) end.Done))
        result sink.new }
    ensures flow { S.flow sink.new ≡ flow_after result }
    ensures refused { OnErr result S.takes_memory }
    ensures room { length space.new.room.items ≡ length space.old.room.items }
{
    match line.split_first() {
        Some((Stage::Map(image), later)) => {
            if space.batch.map_counted(range, image, line) {
                return feed_space(later, space, sink);
            }
        }
        Some((Stage::Filter(test), later)) if later.stages.is_empty() && sink.takes_flags() => {
            let room: &mut [i64] = &mut space.room;
            if let Some(found) = flag_counted(test, line.env, range, room) {
                return give_counted(line, range, found, room, sink);
            }
        }
        _ => {}
    }
    space.batch.count_up(range);
    feed_space(line, space, sink)
}

/// Takes the batch of these registers through the stages.
fn feed_space<S: BatchSink>(
    line: Pipeline<'_>,
    space: &mut Space,
    sink: &mut S,
) -> Result<Fed, NoMemory>
    requires wants { S.flow sink.old ≡ Flow.More }
    requires room { FitsStages (stages_of line.stages.now) (length space.old.room.items) }
    ensures fed { (xs : List Item) → S.has_taken sink.old xs → IsFed S.has_taken xs
        (piped line.entry space.old.batch) result sink.new }
    ensures flow { S.flow sink.new ≡ flow_after result }
    ensures refused { OnErr result S.takes_memory }
    ensures room { length space.new.room.items ≡ length space.old.room.items }
{
    feed_batch(
        line,
        &mut space.batch,
        &mut space.nested,
        &mut space.room,
        sink,
    )
}
