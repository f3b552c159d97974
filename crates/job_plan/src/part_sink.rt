//! A sink that puts the items of a walk into a part.

ghost use Rattle.std.specs.Prelude.{◌≡◌, ℕ, List, [], false, true, OnErr};
ghost use Rattle.batch_eval.specs.Batches.{laid_items};
ghost use Rattle.trace.specs.Trace.{trace};
ghost use Rattle.lambda_values.specs.Earlier.{Numbers, nothing_named};
ghost use Rattle.trace.specs.Sinks.{IsFed, flow_after};
ghost use Rattle.trace.specs.declared.item.End.TheVariants as end;
ghost use Rattle.lambda_values.specs.declared.item.Item.{Item as item};
ghost use Rattle.job_plan.specs.Arrays.{array};
ghost use Rattle.job_plan.specs.Parts.{HasTaken, flow_of, is_settled, keeps_items};
ghost use Rattle.job_routes.specs.Legs.{end_in};
ghost use Rattle.job_plan.specs.declared.part.Part.{Part as part_kept};
ghost use Rattle.job_plan.specs.declared.part.Part.TheVariants as kept;
ghost use Rattle.job_routes.specs.declared.ends.SegmentEnd.{SegmentEnd};
ghost use Rattle.job_routes.specs.declared.ends.SegmentEnd.TheVariants as ends;

use crate::end_part::{EndPart, LastStage};
use crate::part::Part;
use batch_eval::{BatchSink, FlaggedLanes, LaneItems, accept_each_flagged};
use lambda_values::{BoolExpr, Run};
use std::marker::{Brand, PhantomData};
use trace::{Fed, Flow, Item, LongSink, NoMemory};

/// The end of a walk, as contracts see it. No value has this type.
pub(crate) trait EndBrand {
    ghost last: { SegmentEnd };

    ghost stage: { ℕ };

    ghost env: { Numbers };

    // the part that the walk goes on from
    ghost begun: { part_kept };
}

impl EndBrand for Brand {
    ghost last = { ends.Array };

    ghost stage = { 0 };

    ghost env = { nothing_named };

    ghost begun = { kept.Array (array [] end.Done) };
}

/// A sink that puts each item into a part, until nothing more matters.
#[derive(Drop)]
pub(crate) struct PartSink<'p, 'e, K: EndBrand> {
    pub(crate) part: Part<'p>,
    pub(crate) last: LastStage<'p, 'e>,
    pub(crate) of: PhantomData<K>,
    ghost kind: { keeps_items part ≡ keeps_items K.begun },
}

impl<K: EndBrand> LongSink for PartSink<'_, '_, K> {
    ghost has_taken = { λ sink items. (sink.last.end.now ≡ K.last) × (sink.last.number ≡ K.stage)
        × (sink.last.env.now ≡ K.env) × HasTaken (end_in K.last) K.stage K.env K.begun sink.part items };

    ghost flow = { λ sink. flow_of (is_settled sink.part) };

    ghost takes_memory = { keeps_items K.begun ≡ true };

    fn accept(&mut self, item: Item) -> Result<Flow, NoMemory> {
        self.part.push(self.last, item)?;
        if self.part.is_settled() {
            return Ok(Flow::Enough);
        }
        Ok(Flow::More)
    }
}

impl<K: EndBrand> BatchSink for PartSink<'_, '_, K> {
    fn accept_lanes(&mut self, lanes: LaneItems<'_>, room: &mut [i64]) -> Result<Fed, NoMemory> {
        accept_all(&mut self.part, self.last, lanes, room)
    }

    fn takes_flags(&self) -> bool {
        self.last.end.takes_flags()
    }

    fn accept_flagged(&mut self, lanes: FlaggedLanes<'_>) -> Result<Fed, NoMemory> {
        if self.part.push_flagged(lanes) {
            return Ok(Fed::More);
        }
        accept_each_flagged(lanes, self)
    }

    fn takes_runs(&self) -> bool {
        self.part.takes_runs()
    }

    fn accept_run(&mut self, run: Run) -> bool {
        self.part.push_run(run)
    }

    fn test(&self) -> Option<&BoolExpr> {
        self.last.end.test()
    }
}

/// Puts items into a part, and answers whether it takes more.
fn accept_all(
    part: &mut Part<'_>,
    last: LastStage<'_, '_>,
    lanes: LaneItems<'_>,
    room: &mut [i64],
) -> Result<Fed, NoMemory>
    requires wants { is_settled part.old ≡ false }
    ensures fed { (begun : part_kept) (xs : List item)
        → HasTaken (end_in last.entry.end.now) last.entry.number last.entry.env.now begun part.old xs
        → IsFed (HasTaken (end_in last.entry.end.now) last.entry.number last.entry.env.now begun) xs
        (trace (laid_items lanes.entry.start lanes.entry.places.now lanes.entry.values.now) end.Done) result part.new }
    ensures flow { flow_of (is_settled part.new) ≡ flow_after result }
    ensures memory { OnErr result (keeps_items part.old ≡ true) }
    ensures keeps { keeps_items part.new ≡ keeps_items part.old }
{
    if lanes.values.is_empty() {
        return Ok(Fed::More);
    }
    part.push_all(last, lanes, room)?;
    if part.is_settled() {
        return Ok(Fed::Enough);
    }
    Ok(Fed::More)
}
