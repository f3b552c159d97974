//! One item through the stages and into a sink, and the items of a source one by one.

ghost use Rattle.std.specs.Prelude.{◌≡◌, ◌+◌, ◌<◌, ◌^◌, List, [], ◌∷◌, length, Ok, OnErr};
ghost use Rattle.trace.specs.Trace.{Trace, trace};
ghost use Rattle.lambda_values.specs.Streams.{run_or_listed};
ghost use Rattle.trace.specs.Stages.{at_place, pipe, stages_of};
ghost use Rattle.trace.specs.Sinks.{IsFed, flow_after};
ghost use Rattle.lambda_values.specs.declared.item.Item.{Item};
ghost use Rattle.trace.specs.declared.item.End.TheVariants as end;

use crate::NoMemory;
use crate::item::Fault;
use crate::sink::{Flow, LongSink};
use crate::source::{InnerItems, SourceItems};
use crate::stage::Stage;
use lambda_values::{Env, FaultKind, Item, ListedValues};

/// What became of the items that were taken through the stages.
#[derive(Clone, Copy, Debug, PartialEq, Eq)]
pub enum Fed {
    /// All of them went through, and the sink wants more.
    More,
    /// The sink has enough.
    Enough,
    /// A lambda of a stage has no value at one of them.
    Fault(Fault),
}

/// Takes one item through all stages, depth first, and gives the sink what comes out.
///
/// The stages are numbered from `first_stage` on. The walk stops at once when the sink has enough or
/// a stage faults: no later stage is evaluated. It makes one call per stage and allocates nothing
/// itself. `NoMemory` comes from the sink, which then keeps what it has accepted before.
#[cycle(feed)]
pub fn feed<S: LongSink>(
    stages: &[Stage],
    first_stage: u32,
    env: &Env,
    item: Item,
    sink: &mut S,
) -> Result<Fed, NoMemory>
    requires numbered { first_stage + length stages.now < 2 ^ 32 }
    requires wants { S.flow sink.old ≡ Flow.More }
    ensures fed { (xs : List Item) → S.has_taken sink.old xs → IsFed S.has_taken xs
        (pipe first_stage (stages_of stages.now) env.now (trace (item ∷ []) end.Done)) result sink.new }
    ensures flow { S.flow sink.new ≡ flow_after result }
    ensures refused { OnErr result S.takes_memory }
{
    let Some((stage, later)) = stages.split_first() else {
        return Ok(match sink.accept(item)? {
            Flow::More => Fed::More,
            Flow::Enough => Fed::Enough,
        });
    };
    match stage {
        Stage::Map(image) => match image.eval_at(item, env) {
            Ok(value) => {
                let image = Item {
                    origin: item.origin,
                    value,
                };
                feed(later, first_stage + 1, env, image, sink)
            }
            Err(kind) => Ok(Fed::Fault(fault_at(first_stage, item, kind))),
        },
        Stage::Filter(test) => match test.eval_at(item, env) {
            Ok(true) => feed(later, first_stage + 1, env, item, sink),
            Ok(false) => Ok(Fed::More),
            Err(kind) => Ok(Fed::Fault(fault_at(first_stage, item, kind))),
        },
        Stage::FlatMap(inner) => {
            let mut listed = ListedValues::new();
            match inner.eval_into(item, env, &mut listed) {
                Ok(run) => {
                    let values = InnerItems {
                        origin: item.origin,
                        run,
                        listed: listed.as_slice(),
                    };
                    feed_inner(later, first_stage + 1, env, &values, sink)
                }
                Err(kind) => Ok(Fed::Fault(fault_at(first_stage, item, kind))),
            }
        }
    }
}

/// Takes the items of a source one after the other through all stages, each as `feed` does.
///
/// It stops at the first fault, and when the sink has enough: no later item is read.
pub fn feed_all<I: SourceItems, S: LongSink>(
    stages: &[Stage],
    first_stage: u32,
    env: &Env,
    source: &I,
    sink: &mut S,
) -> Result<Fed, NoMemory>
    requires numbered { first_stage + length stages.now < 2 ^ 32 }
    requires wants { S.flow sink.old ≡ Flow.More }
    ensures fed { (xs : List Item) → S.has_taken sink.old xs → IsFed S.has_taken xs
        (pipe first_stage (stages_of stages.now) env.now (trace (I.items source.now) end.Done)) result sink.new }
    ensures flow { S.flow sink.new ≡ flow_after result }
    ensures refused { OnErr result S.takes_memory }
{
    for position in 0..source.count() {
        match feed(stages, first_stage, env, source.item_at(position), sink)? {
            Fed::More => {}
            ended => return Ok(ended),
        }
    }
    Ok(Fed::More)
}

/// Takes the values of an inner stream one after the other through the later stages.
#[cycle(feed)]
fn feed_inner<S: LongSink>(
    stages: &[Stage],
    first_stage: u32,
    env: &Env,
    values: &InnerItems<'_>,
    sink: &mut S,
) -> Result<Fed, NoMemory>
    requires numbered { first_stage + length stages.now < 2 ^ 32 }
    requires wants { S.flow sink.old ≡ Flow.More }
    ensures fed { (xs : List Item) → S.has_taken sink.old xs → IsFed S.has_taken xs
        (pipe first_stage (stages_of stages.now) env.now
        (trace (at_place values.now.origin (run_or_listed values.now.run values.now.listed.now)) end.Done))
        result sink.new }
    ensures flow { S.flow sink.new ≡ flow_after result }
    ensures refused { OnErr result S.takes_memory }
{
    for position in 0..values.count() {
        let fed = feed(stages, first_stage, env, values.item_at(position), sink)?;
        match asked(fed, 1, sink) {
            Fed::More => {}
            stopped => return Ok(stopped),
        }
    }
    Ok(Fed::More)
}

/// What became of items, once the sink was asked whether it still wants more after this number of inner values.
pub fn asked<S: LongSink>(became: Fed, values: u64, sink: &mut S) -> Fed
    requires flow { S.flow sink.old ≡ flow_after (Ok became) }
    ensures fed { (xs : List Item) (t : Trace) → IsFed S.has_taken xs t (Ok became) sink.old
        → IsFed S.has_taken xs t (Ok result) sink.new }
    ensures flow { S.flow sink.new ≡ flow_after (Ok result) }
{
    let Fed::More = became else {
        return became;
    };
    match sink.still_wants(values) {
        Flow::More => Fed::More,
        Flow::Enough => Fed::Enough,
    }
}

/// The fault of this stage at this item.
fn fault_at(stage: u32, item: Item, kind: FaultKind) -> Fault
    ensures { result ≡ record { kind = kind; stage = stage; origin = Some item.origin } }
{
    Fault {
        kind,
        stage,
        origin: Some(item.origin),
    }
}
