//! A batch through the stages and into a sink; the values of inner streams in batches of their own,
//! depth first.

ghost use Rattle.batch_eval.specs.Batches.{fed_of};
ghost use Rattle.batch_eval.specs.Pipelines.{piped};
ghost use Rattle.batch_eval.specs.Pours.{Holds, Poured, inner_items};
ghost use Rattle.batch_eval.specs.Rooms.{FitsStages};
ghost use Rattle.lambda_values.specs.Streams.{inner_of};
ghost use Rattle.std.specs.Prelude.{◌≡◌, ◌+◌, ◌<◌, ◌≤◌, ◌^◌, List, [], ◌++◌, Ok, OnErr, Some, length};
ghost use Rattle.trace.specs.Sinks.{IsFed, flow_after};
ghost use Rattle.trace.specs.Stages.{flat_map, of_item, stages_of};
ghost use Rattle.trace.specs.Trace.{each, trace};
ghost use Rattle.trace.specs.declared.feeding.Fed.TheVariants as fed;
ghost use Rattle.lambda_values.specs.declared.item.Item.{Item};

use crate::batch::Batch;
use crate::flagged::{Tested, give_passing, give_set};
use crate::inner_columns::{Columns, column_room, eval_columns};
use crate::lane_items::LaneItems;
use crate::pipeline::Pipeline;
use crate::register::LANES;
use crate::sink::{BatchSink, accept_each};
use lambda_values::{InnerExpr, ListedValues};
use trace::{
    End, Fault, Fed, Flow, InnerItems, Item, NoMemory, SourceItems, Stage, asked, feed_all,
};

/// With more values waiting there is no space for another.
const MOST_WAITING: u64 = LANES as u64 - 1;

/// A `flatMap` of a pipeline: its number, its expression, and the stages after it.
#[derive(Clone, Copy)]
struct FlatMapStage<'a> {
    number: u32,
    inner: &'a InnerExpr,
    later: Pipeline<'a>,
}

/// Takes a batch through all stages, and gives the sink what comes out.
#[cycle(batches)]
pub(crate) fn feed_batch<S: BatchSink>(
    line: Pipeline<'_>,
    batch: &mut Batch,
    nested: &mut [Batch],
    room: &mut [i64],
    sink: &mut S,
) -> Result<Fed, NoMemory>
    requires wants { S.flow sink.old ≡ Flow.More }
    requires room { FitsStages (stages_of line.stages.now) (length room.old) }
    ensures fed { (xs : List Item) → S.has_taken sink.old xs → IsFed S.has_taken xs
        (piped line.entry batch.old) result sink.new }
    ensures flow { S.flow sink.new ≡ flow_after result }
    ensures refused { OnErr result S.takes_memory }
{
    let Some(line) = batch.go_on(line, sink.takes_flags(), room) else {
        return give_set(batch, room, sink);
    };
    let Some((stage, later)) = line.split_first() else {
        return give(batch, room, sink);
    };
    match stage {
        Stage::Filter(test) if later.stages.is_empty() && sink.takes_flags() => {
            let lanes = LaneItems::front(batch.live, batch.start, &batch.origins, &batch.values);
            let tested = Tested {
                lanes,
                images: lanes,
                end: batch.end,
            };
            give_passing(test, line, tested, room, sink)
        }
        Stage::FlatMap(inner) => match nested.split_first_mut() {
            Some((pending, rest)) => {
                let stage = FlatMapStage {
                    number: line.first,
                    inner,
                    later,
                };
                feed_inner(stage, batch, pending, rest, room, sink)
            }
            None => feed_lanes(line, batch, sink),
        },
        Stage::Map(_) | Stage::Filter(_) => feed_lanes(line, batch, sink),
    }
}

/// Takes the inner values of the items of a batch through the later stages. They are put together in
/// `pending`, which goes on when it is full and after the last item.
#[cycle(batches)]
fn feed_inner<S: BatchSink>(
    stage: FlatMapStage<'_>,
    batch: &Batch,
    pending: &mut Batch,
    rest: &mut [Batch],
    room: &mut [i64],
    sink: &mut S,
) -> Result<Fed, NoMemory>
    requires wants { S.flow sink.old ≡ Flow.More }
    requires room { FitsStages (stages_of stage.later.stages.now) (length room.old) }
    ensures fed { (xs : List Item) → S.has_taken sink.old xs → IsFed S.has_taken xs
        (piped stage.entry.later (each (of_item stage.entry.number (flat_map (inner_of stage.entry.inner.now))
        stage.entry.later.env.now) batch.now.items batch.now.ending)) result sink.new }
    ensures flow { S.flow sink.new ≡ flow_after result }
    ensures refused { OnErr result S.takes_memory }
{
    let FlatMapStage { inner, later, .. } = stage;
    pending.clear();
    let part = column_room(inner, later.stages, room.len());
    let (registers, room) = room.split_at_mut(part);
    let lanes = eval_columns(inner, later.env, batch.lanes(), registers, room);
    let columns = Columns {
        inner,
        registers,
        lanes,
    };
    let mut listed = ListedValues::new();
    let count = batch.count();
    let mut position = pending.add_few(columns, batch, 0);
    while position < count {
        let item = batch.item_at(position);
        match inner.eval_into(item, later.env, &mut listed) {
            Ok(run) => {
                let values = InnerItems {
                    origin: item.origin,
                    run,
                    listed: listed.as_slice(),
                };
                match pour(later, &values, pending, rest, room, sink)? {
                    Fed::More => {}
                    stopped => return Ok(stopped),
                }
            }
            Err(kind) => {
                let end = End::Fault(Fault {
                    kind,
                    stage: stage.number,
                    origin: Some(item.origin),
                });
                return finish(later, end, pending, rest, room, sink);
            }
        }
        position = pending.add_few(columns, batch, position + 1);
    }
    let end = batch.end();
    finish(later, end, pending, rest, room, sink)
}

/// Takes the values of an inner stream after those that wait: at once if they are integers in a row, no stage comes
/// and the sink takes them so, else by adding them to those that wait. If such a sink refuses a run after all, it gets
/// the items one by one.
#[cycle(batches)]
fn pour<S: BatchSink>(
    line: Pipeline<'_>,
    values: &InnerItems<'_>,
    pending: &mut Batch,
    rest: &mut [Batch],
    room: &mut [i64],
    sink: &mut S,
) -> Result<Fed, NoMemory>
    requires wants { S.flow sink.old ≡ Flow.More }
    requires room { FitsStages (stages_of line.stages.now) (length room.old) }
    ensures poured { (xs whole : List Item) → Holds S.has_taken line.entry xs whole pending.old.items sink.old
        → Poured S.has_taken line.entry xs (whole ++ inner_items values.now)
        result pending.new.items sink.new }
    ensures flow { S.flow sink.new ≡ flow_after result }
    ensures refused { OnErr result S.takes_memory }
{
    if let Some(run) = values.run {
        if line.stages.is_empty() && sink.takes_runs() {
            match make_space(line, 0, pending, rest, room, sink)? {
                Fed::More => {}
                stopped => return Ok(stopped),
            }
            if sink.accept_run(run) {
                return Ok(asked(Fed::More, run.count, sink));
            }
            return accept_each(values, sink);
        }
    }
    pour_lanes(line, values, pending, rest, room, sink)
}

/// Adds the values of an inner stream to those that wait, and takes them through the stages whenever
/// the batch is full.
#[cycle(batches)]
fn pour_lanes<S: BatchSink>(
    line: Pipeline<'_>,
    values: &InnerItems<'_>,
    pending: &mut Batch,
    rest: &mut [Batch],
    room: &mut [i64],
    sink: &mut S,
) -> Result<Fed, NoMemory>
    requires wants { S.flow sink.old ≡ Flow.More }
    requires room { FitsStages (stages_of line.stages.now) (length room.old) }
    ensures poured { (xs whole : List Item) → Holds S.has_taken line.entry xs whole pending.old.items sink.old
        → Poured S.has_taken line.entry xs (whole ++ inner_items values.now)
        result pending.new.items sink.new }
    ensures flow { S.flow sink.new ≡ flow_after result }
    ensures refused { OnErr result S.takes_memory }
{
    let count = values.count();
    let mut position = 0;
    while position < count {
        match make_space(line, MOST_WAITING, pending, rest, room, sink)? {
            Fed::More => {}
            stopped => return Ok(stopped),
        }
        let taken = (LANES as u64 - pending.count()).min(count - position);
        pending.add(values, position, taken);
        position += taken;
    }
    Ok(Fed::More)
}

/// Takes the values that wait through the stages, if they are more than these.
#[cycle(batches)]
fn make_space<S: BatchSink>(
    line: Pipeline<'_>,
    most: u64,
    pending: &mut Batch,
    rest: &mut [Batch],
    room: &mut [i64],
    sink: &mut S,
) -> Result<Fed, NoMemory>
    requires wants { S.flow sink.old ≡ Flow.More }
    requires room { FitsStages (stages_of line.stages.now) (length room.old) }
    ensures poured { (xs whole : List Item) → Holds S.has_taken line.entry xs whole pending.old.items sink.old
        → Poured S.has_taken line.entry xs whole result pending.new.items sink.new }
    ensures space { result ≡ Ok fed.More → length pending.new.items ≤ most }
    ensures flow { S.flow sink.new ≡ flow_after result }
    ensures refused { OnErr result S.takes_memory }
{
    let waiting = pending.count();
    if waiting <= most {
        return Ok(Fed::More);
    }
    pending.end_with(End::Done);
    let fed = feed_batch(line, pending, rest, room, sink)?;
    pending.clear();
    Ok(asked(fed, waiting, sink))
}

/// Takes the values that wait through the stages, after which the walk ends so.
#[cycle(batches)]
fn finish<S: BatchSink>(
    line: Pipeline<'_>,
    end: End,
    pending: &mut Batch,
    rest: &mut [Batch],
    room: &mut [i64],
    sink: &mut S,
) -> Result<Fed, NoMemory>
    requires wants { S.flow sink.old ≡ Flow.More }
    requires room { FitsStages (stages_of line.stages.now) (length room.old) }
    ensures fed { (xs whole : List Item) → Holds S.has_taken line.entry xs whole pending.old.items sink.old
        → IsFed S.has_taken xs (piped line.entry (trace whole end)) result sink.new }
    ensures flow { S.flow sink.new ≡ flow_after result }
    ensures refused { OnErr result S.takes_memory }
{
    pending.end_with(end);
    feed_batch(line, pending, rest, room, sink)
}

/// Takes the items of a batch through all stages one after the other.
fn feed_lanes<S: BatchSink>(
    line: Pipeline<'_>,
    batch: &Batch,
    sink: &mut S,
) -> Result<Fed, NoMemory>
    requires wants { S.flow sink.old ≡ Flow.More }
    ensures fed { (xs : List Item) → S.has_taken sink.old xs → IsFed S.has_taken xs
        (piped line.entry batch.now) result sink.new }
    ensures flow { S.flow sink.new ≡ flow_after result }
    ensures refused { OnErr result S.takes_memory }
{
    match feed_all(line.stages, line.first, line.env, batch, sink)? {
        Fed::More => Ok(fed_by(batch.end())),
        stopped => Ok(stopped),
    }
}

/// Gives the sink the items of a batch.
fn give<S: BatchSink>(batch: &Batch, room: &mut [i64], sink: &mut S) -> Result<Fed, NoMemory>
    requires wants { S.flow sink.old ≡ Flow.More }
    ensures fed { (xs : List Item) → S.has_taken sink.old xs → IsFed S.has_taken xs batch.now result sink.new }
    ensures flow { S.flow sink.new ≡ flow_after result }
    ensures refused { OnErr result S.takes_memory }
{
    match sink.accept_lanes(batch.lanes(), room)? {
        Fed::More => Ok(fed_by(batch.end())),
        stopped => Ok(stopped),
    }
}

/// What becomes of items after which the walk ends so.
pub(crate) fn fed_by(end: End) -> Fed
    ensures { result ≡ fed_of end }
{
    match end {
        End::Done => Fed::More,
        End::Fault(fault) => Fed::Fault(fault),
    }
}
