//! A slice that comes after other stages, as a sink: what passes goes on at once, a batch at a time, through the stages
//! after the slice and into the next sink. Nothing is kept.

ghost use Rattle.std.specs.Prelude.{◌≡◌, ◌-◌, ◌≤◌, List, [], drop, length, take, ⊤, ◌++◌, OnOk};
ghost use Rattle.batch_eval.specs.Batches.{laid_items};
ghost use Rattle.lambda_values.specs.Earlier.{nothing_named};
ghost use Rattle.trace.specs.Sinks.{IsFed, flow_after};
ghost use Rattle.trace.specs.Trace.{Trace, append, trace};
ghost use Rattle.trace.specs.declared.feeding.Fed.TheVariants as fed;
ghost use Rattle.trace.specs.declared.item.End.TheVariants as end;
ghost use Rattle.lambda_values.specs.declared.item.Item.{Item as item};
ghost use Rattle.slice_ops.specs.Rests.{rest_of};
ghost use Rattle.slice_ops.specs.Slices.{AbstractSlice, limit, sliced};
ghost use Rattle.batch_eval.specs.Pipelines.{piped};
ghost use Rattle.job_plan.specs.Passages.{AbstractJunction, EndsAs, HasPassed, IsAfter, fed_by, junction_in};
ghost use Rattle.job_plan.specs.Passages.{passage_flow, through_link};
ghost use Rattle.job_routes.specs.Legs.{collecting};

use crate::closing::Closing;
use crate::fronts::tested;
use batch_eval::{BatchItems, BatchSink, LaneItems, Pipeline, Registers, feed_at_once};
use lambda_values::BoolExpr;
use slice_ops::{SliceCut, SliceRest};
use std::marker::{Brand, PhantomData};
use trace::{End, Fed, Flow, Item, LongSink, NoMemory};

/// How a slice of a walk began, and where it stands, as contracts see it. No value has this type.
pub(crate) trait LinkBrand {
    ghost begun: { AbstractSlice };

    ghost junction: { AbstractJunction };
}

impl LinkBrand for Brand {
    ghost begun = { limit 0 };

    ghost junction = { record {
      stage = 0;
      next = record { first = 0; stages = []; ending = collecting };
      env = nothing_named;
    } };
}

/// Whether items go on from a slice.
#[derive(Clone, Copy)]
pub(crate) enum Passage {
    /// Items go on from the slice.
    Open,
    /// The next sink has enough.
    Enough,
    /// No item comes any more: the walk after the slice has ended so.
    Ended(End),
    /// Memory was refused.
    Refused,
}

impl Passage {
    /// The state of a slice after a batch whose items all passed. `rest` is what is left of the slice.
    pub(crate) fn of(rest: &SliceRest<'_>) -> Passage
        ensures { IsAfter fed.More end.Done (rest_of rest.now) result }
    {
        if rest.is_closed() {
            Passage::Ended(End::Done)
        } else {
            Passage::Open
        }
    }

    /// How the walk into the next sink ends, if that into the slice ends with `ending`; `None` if memory was refused.
    fn end_after(self, rest: &SliceRest<'_>, ending: End) -> Option<End>
        ensures { EndsAs self (rest_of rest.now) ending result }
    {
        match self {
            Passage::Open => Some(rest.end_after(ending)),
            Passage::Enough => Some(End::Done),
            Passage::Ended(end) => Some(end),
            Passage::Refused => None,
        }
    }
}

/// A slice in the middle of a walk.
#[derive(Drop)]
pub(crate) struct Passing<'p, S: Drop> {
    pub(crate) rest: SliceRest<'p>,
    pub(crate) passage: Passage,
    /// What takes the items that pass, after the stages of the next segment. It is in a box, so that a nest of sinks
    /// takes little stack: each sink that is moved is small.
    pub(crate) inner: Box<S>,
}

/// Where a slice stands in a walk.
#[derive(Clone, Copy)]
pub(crate) struct Junction<'e> {
    /// The number of its stage.
    pub(crate) stage: u32,
    /// The stages after it, with the values of the job's names.
    pub(crate) next: Pipeline<'e>,
}

/// A sink that lets items pass as a slice does, and takes them through the stages of the next segment into the next
/// sink.
#[derive(Drop)]
pub(crate) struct LinkSink<'p, 'e, K: LinkBrand, S: Drop> {
    pub(crate) passing: Passing<'p, S>,
    pub(crate) junction: Junction<'e>,
    pub(crate) registers: Registers,
    pub(crate) of: PhantomData<K>,
}

/// How a slice goes on after items that it cut so, and of those that pass this became.
fn after(fed: Fed, cut: &SliceCut<'_>) -> Passage
    ensures { IsAfter fed cut.now.end (rest_of cut.now.rest) result }
{
    match fed {
        Fed::Enough => Passage::Enough,
        Fed::Fault(fault) => Passage::Ended(End::Fault(fault)),
        Fed::More => match cut.end {
            End::Fault(_) => Passage::Ended(cut.end),
            End::Done => Passage::of(&cut.rest),
        },
    }
}

/// What a slice answers that goes on so.
fn answer(passage: Passage) -> Fed
    ensures { result ≡ fed_by passage }
{
    match passage {
        Passage::Open => Fed::More,
        Passage::Enough | Passage::Ended(_) | Passage::Refused => Fed::Enough,
    }
}

/// What a slice lets pass of items. A function of its own keeps `pass` small, which is there for each depth of a nest.
#[inline(never)]
fn cut_of<'p>(
    rest: SliceRest<'p>,
    junction: Junction,
    lanes: LaneItems<'_>,
    room: &mut [i64],
) -> SliceCut<'p>
    ensures ordered { result.from ≤ result.to }
    ensures within { result.to ≤ length lanes.entry.values.now }
    ensures passes { (later : Trace)
        → sliced (rest_of rest.entry) junction.entry.stage junction.entry.next.env.now
        (append (trace (laid_items lanes.entry.start lanes.entry.places.now lanes.entry.values.now) end.Done) later)
        ≡ append (trace (take (result.to - result.from) (drop result.from
        (laid_items lanes.entry.start lanes.entry.places.now lanes.entry.values.now))) result.end)
        (sliced (rest_of result.rest) junction.entry.stage junction.entry.next.env.now later) }
{
    let Junction { stage, next } = junction;
    let front = tested(&rest, next.env, lanes, room);
    rest.cut(stage, next.env, &lanes, front)
}

/// Takes items through the stages and into a sink.
fn hand_on<S: BatchSink>(
    line: Pipeline<'_>,
    lanes: LaneItems<'_>,
    registers: &mut Registers,
    room: &mut [i64],
    sink: &mut S,
) -> Result<Fed, NoMemory>
    requires wants { S.flow sink.old ≡ Flow.More }
    ensures fed { (xs : List item) → S.has_taken sink.old xs → IsFed S.has_taken xs
        (piped line.entry (trace (laid_items lanes.entry.start lanes.entry.places.now lanes.entry.values.now) end.Done))
        result sink.new }
    ensures flow { S.flow sink.new ≡ flow_after result }
{
    if line.stages.is_empty() {
        return sink.accept_lanes(lanes, room);
    }
    feed_at_once(line, &BatchItems::Lanes(lanes), registers, sink)
}

/// Lets items pass as a slice does, and takes those that pass through the stages of the next segment.
fn pass<S: BatchSink + Drop>(
    passing: &mut Passing<'_, S>,
    junction: Junction,
    lanes: LaneItems<'_>,
    registers: &mut Registers,
    room: &mut [i64],
) -> Result<Fed, NoMemory>
    requires wants { passage_flow passing.old.passage (S.flow passing.old.inner.value) ≡ Flow.More }
    ensures fed { (begun : AbstractSlice) (xs : List item)
        → HasPassed S.has_taken S.flow begun (junction_in junction.entry) passing.old xs
        → IsFed (HasPassed S.has_taken S.flow begun (junction_in junction.entry)) xs
        (trace (laid_items lanes.entry.start lanes.entry.places.now lanes.entry.values.now) end.Done)
        result passing.new }
    ensures all { OnOk result ((begun : AbstractSlice) (xs : List item)
        → HasPassed S.has_taken S.flow begun (junction_in junction.entry) passing.old xs
        → HasPassed S.has_taken S.flow begun (junction_in junction.entry) passing.new
        (xs ++ laid_items lanes.entry.start lanes.entry.places.now lanes.entry.values.now)) }
    ensures flow { passage_flow passing.new.passage (S.flow passing.new.inner.value) ≡ flow_after result }
{
    let Passage::Open = passing.passage else {
        return Ok(Fed::More);
    };
    if lanes.values.is_empty() {
        return Ok(Fed::More);
    }
    let cut = cut_of(passing.rest, junction, lanes, room);
    let part = lanes.part(cut.from, cut.to - cut.from);
    let inner = &mut *passing.inner;
    let fed = match hand_on(junction.next, part, registers, room, inner) {
        Ok(fed) => fed,
        Err(refused) => {
            passing.passage = Passage::Refused;
            return Err(refused);
        }
    };
    let passage = after(fed, &cut);
    passing.passage = passage;
    passing.rest = cut.rest;
    Ok(answer(passage))
}

impl<K: LinkBrand, S: Closing> LongSink for LinkSink<'_, '_, K, S> {
    ghost has_taken = { λ sink items. (junction_in sink.junction ≡ K.junction)
        × HasPassed S.has_taken S.flow K.begun K.junction sink.passing items };

    ghost flow = { λ sink. passage_flow sink.passing.passage (S.flow sink.passing.inner.value) };

    ghost takes_memory = { ⊤ };

    fn accept(&mut self, item: Item) -> Result<Flow, NoMemory> {
        let fed = pass(
            &mut self.passing,
            self.junction,
            LaneItems {
                start: None,
                places: &[item.origin],
                values: &[item.value],
            },
            &mut self.registers,
            &mut [],
        )?;
        match fed {
            Fed::Enough => Ok(Flow::Enough),
            Fed::More | Fed::Fault(_) => Ok(Flow::More),
        }
    }
}

impl<K: LinkBrand, S: Closing> BatchSink for LinkSink<'_, '_, K, S> {
    fn accept_lanes(&mut self, lanes: LaneItems<'_>, room: &mut [i64]) -> Result<Fed, NoMemory> {
        pass(
            &mut self.passing,
            self.junction,
            lanes,
            &mut self.registers,
            room,
        )
    }

    fn test(&self) -> Option<&BoolExpr> {
        self.passing.rest.test()
    }
}

impl<K: LinkBrand, S: Closing> Closing for LinkSink<'_, '_, K, S> {
    type Made = S::Made;

    ghost stands = { λ made t. S.stands made (through_link K.begun K.junction t) };

    fn has_enough(&self) -> bool {
        match self.passing.passage {
            Passage::Open => self.passing.inner.has_enough(),
            Passage::Enough | Passage::Ended(_) => true,
            Passage::Refused => false,
        }
    }

    fn close(self, ending: End) -> Result<S::Made, NoMemory> {
        let Passing {
            rest,
            passage,
            inner,
        } = self.passing;
        match passage.end_after(&rest, ending) {
            Some(end) => Box::into_inner(inner).close(end),
            None => Err(NoMemory),
        }
    }
}
