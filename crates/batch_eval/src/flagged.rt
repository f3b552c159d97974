//! Lanes with a flag each, as filters give them to a sink: nothing is moved. A flag is what the test of the one filter
//! compares with a number, if it is such a comparison; else it is a boolean.

ghost use Rattle.batch_eval.specs.Batches.{StopsInside, counted_item, flagged_walk, holds};
ghost use Rattle.batch_eval.specs.BatchItems.{laid, set_in};
ghost use Rattle.batch_eval.specs.Choices.{at_each};
ghost use Rattle.batch_eval.specs.Lanes.{Reaches, at, flag_of, flagged};
ghost use Rattle.batch_eval.specs.Pipelines.{AreImages, piped};
ghost use Rattle.batch_eval.specs.Rooms.{FitsTest};
ghost use Rattle.batch_eval.specs.Rows.{HasRows};
ghost use Rattle.batch_eval.specs.declared.pipeline.Pipeline.{Pipeline as AbstractPipeline};
ghost use Rattle.lambda_values.specs.Term.{Truth, truth_of};
ghost use Rattle.lambda_values.specs.Value.{truth_value};
ghost use Rattle.std.specs.Prelude.{◌≡◌, ℕ, ◌+◌, ◌-◌, ◌<◌, ◌≤◌, ◌^◌, IfSome, List, None, OnErr, Some, length, take};
ghost use Rattle.trace.specs.Cover.{counted, placed};
ghost use Rattle.trace.specs.Sinks.{IsFed, flow_after};
ghost use Rattle.trace.specs.Stages.{filter, of_item};
ghost use Rattle.trace.specs.Trace.{each, trace};
ghost use Rattle.trace.specs.declared.item.End.TheVariants as end;
ghost use Rattle.lambda_values.specs.declared.item.Item.{Item};

use crate::batch::{Batch, stopped};
use crate::choose::none_set;
use crate::counted::eval_counted;
use crate::flagged_lanes::{FlaggedLanes, LaneValues};
use crate::kernel::Infix;
use crate::lane_items::LaneItems;
use crate::number_test::NumberTest;
use crate::pipeline::Pipeline;
use crate::reached::Reached;
use crate::register::{Inputs, LANES, eval_between, eval_bool, eval_held};
use crate::rows::Rows;
use crate::sink::BatchSink;
use crate::staging::fed_by;
use crate::step::{compared_with, comparison_of, with_number};
use lambda_values::{BoolExpr, Env};
use trace::{End, Fed, Flow, Item, LongSink, NoMemory, RangeItems};

/// Gives a sink the items of lanes whose flag is set one after the other, until it has enough. The loop takes a step
/// for each lane, so it isn't entered where no flag is set.
pub fn accept_each_flagged<S: LongSink>(
    lanes: FlaggedLanes<'_>,
    sink: &mut S,
) -> Result<Fed, NoMemory>
    requires wants { S.flow sink.old ≡ Flow.More }
    ensures fed { (xs : List Item) → S.has_taken sink.old xs → IsFed S.has_taken xs
        (trace (set_in lanes.entry) end.Done) result sink.new }
    ensures flow { S.flow sink.new ≡ flow_after result }
    ensures refused { OnErr result S.takes_memory }
{
    if none_set(lanes.flags, lanes.set, lanes.flags.len()) {
        return Ok(Fed::More);
    }
    for lane in 0..lanes.flags.len() {
        if lanes.set.holds(lanes.flags[lane]) {
            match sink.accept(lanes.item(lane))? {
                Flow::More => {}
                Flow::Enough => return Ok(Fed::Enough),
            }
        }
    }
    Ok(Fed::More)
}

/// Items that are tested, their images, and how the walk ends after them.
#[derive(Clone, Copy)]
pub(crate) struct Tested<'a> {
    pub(crate) lanes: LaneItems<'a>,
    pub(crate) images: LaneItems<'a>,
    pub(crate) end: End,
    ghost each_has_one: { length images.values.now ≡ length lanes.values.now },
}

/// Tests items, and gives a sink the images of those at which the test is true. The first register of the room gets
/// the flags.
pub(crate) fn give_passing<S: BatchSink>(
    test: &BoolExpr,
    line: Pipeline<'_>,
    tested: Tested<'_>,
    room: &mut [i64],
    sink: &mut S,
) -> Result<Fed, NoMemory>
    requires lanes { length tested.lanes.values.now ≤ 1024 }
    requires flags { 1024 ≤ length room.old }
    requires room { FitsTest (truth_of test.now) (length room.old - 1024) }
    requires wants { S.flow sink.old ≡ Flow.More }
    ensures fed { (later : AbstractPipeline) → AreImages later (laid tested.entry.lanes) (laid tested.entry.images)
        → (xs : List Item) → S.has_taken sink.old xs → IsFed S.has_taken xs
        (piped later (each (of_item line.entry.first (filter (truth_of test.now)) line.entry.env.now)
        (laid tested.entry.lanes) tested.entry.end)) result sink.new }
    ensures flow { S.flow sink.new ≡ flow_after result }
    ensures refused { OnErr result S.takes_memory }
{
    let Tested { lanes, images, end } = tested;
    let inputs = Inputs {
        env: line.env,
        xs: lanes.values,
        live: lanes.values.len(),
        rows: Rows::of(lanes.start, lanes.places),
    };
    let (flags, rest) = room.split_at_mut(LANES);
    let (flags, set, reached) = flags_of(test, inputs, flags, rest);
    let end = stopped(
        end,
        line.first,
        inputs.live,
        lanes.start,
        lanes.places,
        reached,
    );
    let flagged = FlaggedLanes {
        start: images.start,
        origins: images.places,
        values: LaneValues::Listed(images.values),
        flags: &flags[..reached.live],
        set,
    };
    give_flagged(flagged, end, sink)
}

/// A flag for each value, the test that says which flags are set, and how far the test of the values came. No flag is
/// written for a test that compares the values themselves with a number.
fn flags_of<'a>(
    test: &BoolExpr,
    inputs: Inputs<'a, '_>,
    register: &'a mut [i64],
    room: &mut [i64],
) -> (&'a [i64], NumberTest, Reached)
    requires lanes { inputs.live ≤ 1024 }
    requires xs { inputs.live ≤ length inputs.xs.now }
    requires rows { HasRows inputs.rows inputs.live }
    requires register { inputs.live ≤ length register.old }
    requires room { FitsTest (truth_of test.now) (length room.old) }
    ensures flags { inputs.entry.live ≤ length result.0.now }
    ensures reached { Reaches (at_each inputs.entry (λ x env. flagged (truth_value (truth_of test.now) x env)))
        (λ k. flag_of (holds result.1 (at result.0.now k))) inputs.entry.live result.2 }
{
    let Some((comparison, pair)) = comparison_of(test) else {
        let reached = eval_bool(test, inputs, register, room);
        return (register, NumberTest::is_set(), reached);
    };
    if let Some((left, set)) = with_number(comparison, pair, inputs.env) {
        let (held, reached) = eval_held(left, inputs, register, room);
        return (held.register(register), set, reached);
    }
    let reached = eval_between(Infix::Compare(comparison), pair, inputs, register, room);
    (register, NumberTest::is_set(), reached)
}

/// Puts into a register what a test compares at each integer of a range, if there are loops for it that read none of
/// the integers. It answers which of these numbers pass, and how far the test of the integers came.
pub(crate) fn flag_counted(
    test: &BoolExpr,
    env: &Env,
    range: &RangeItems,
    register: &mut [i64],
) -> Option<(NumberTest, Reached)>
    requires lanes { range.now.count ≤ 1024 }
    requires register { range.now.count ≤ length register.old }
    ensures { IfSome result (λ found. Reaches (λ k. flagged (truth_value (truth_of test.now)
        (counted_item range.now.origin range.now.first k) env.now))
        (λ k. flag_of (holds found.0 (at register.new k))) range.now.count found.1) }
{
    let (left, set) = compared_with(test, env)?;
    let live = range.count as usize;
    let reached = eval_counted(left, env, range.origin, range.first, live, register)?;
    Some((set, reached))
}

/// Gives a sink the integers of a range that pass a test, by what `flag_counted` found for it.
pub(crate) fn give_counted<S: BatchSink>(
    line: Pipeline<'_>,
    range: &RangeItems,
    found: (NumberTest, Reached),
    register: &[i64],
    sink: &mut S,
) -> Result<Fed, NoMemory>
    requires lanes { range.now.count ≤ 1024 }
    requires register { range.now.count ≤ length register.now }
    requires inside { StopsInside found.1.fault found.1.live range.now.count }
    requires within { found.1.live ≤ range.now.count }
    requires wants { S.flow sink.old ≡ Flow.More }
    ensures fed { (test : Truth) → Reaches (λ k. flagged (truth_value test
        (counted_item range.now.origin range.now.first k) line.entry.env.now))
        (λ k. flag_of (holds found.0 (at register.now k))) range.now.count found.1
        → (xs : List Item) → S.has_taken sink.old xs → IsFed S.has_taken xs
        (each (of_item line.entry.first (filter test) line.entry.env.now)
        (placed range.now.origin (counted range.now.first range.now.count)) end.Done) result sink.new }
    ensures flow { S.flow sink.new ≡ flow_after result }
    ensures refused { OnErr result S.takes_memory }
{
    let (set, reached) = found;
    let start = Some(range.origin);
    let live = range.count as usize;
    let lanes = FlaggedLanes {
        start,
        origins: &[],
        values: LaneValues::CountUp(range.first),
        flags: &register[..reached.live],
        set,
    };
    let end = stopped(End::Done, line.first, live, start, &[], reached);
    give_flagged(lanes, end, sink)
}

/// Gives a sink the items of the lanes of a batch whose flag is set. The flags are in the first register of the room.
pub(crate) fn give_set<S: BatchSink>(
    batch: &Batch,
    room: &[i64],
    sink: &mut S,
) -> Result<Fed, NoMemory>
    requires flags { 1024 ≤ length room.now }
    requires wants { S.flow sink.old ≡ Flow.More }
    ensures fed { (xs : List Item) → S.has_taken sink.old xs → IsFed S.has_taken xs
        (flagged_walk (take 1024 room.now) batch.now) result sink.new }
    ensures flow { S.flow sink.new ≡ flow_after result }
    ensures refused { OnErr result S.takes_memory }
{
    let lanes = FlaggedLanes {
        start: batch.start,
        origins: &batch.origins,
        values: LaneValues::Listed(&batch.values),
        flags: &room[..batch.live],
        set: NumberTest::is_set(),
    };
    give_flagged(lanes, batch.end, sink)
}

/// Gives a sink the items of lanes whose flag is set, after which the walk ends so.
fn give_flagged<S: BatchSink>(
    lanes: FlaggedLanes<'_>,
    end: End,
    sink: &mut S,
) -> Result<Fed, NoMemory>
    requires wants { S.flow sink.old ≡ Flow.More }
    ensures fed { (xs : List Item) → S.has_taken sink.old xs → IsFed S.has_taken xs
        (trace (set_in lanes.entry) end) result sink.new }
    ensures flow { S.flow sink.new ≡ flow_after result }
    ensures refused { OnErr result S.takes_memory }
{
    match sink.accept_flagged(lanes)? {
        Fed::More => Ok(fed_by(end)),
        stopped => Ok(stopped),
    }
}
