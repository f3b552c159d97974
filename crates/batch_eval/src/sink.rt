//! Sinks that take the items of a batch at once.

ghost use Rattle.batch_eval.specs.BatchItems.{laid, set_in};
ghost use Rattle.lambda_values.specs.Streams.{run_values};
ghost use Rattle.std.specs.Prelude.{◌≡◌, List, ◌++◌, OnErr, false, map, true};
ghost use Rattle.trace.specs.Sinks.{IsFed, flow_after};
ghost use Rattle.trace.specs.Trace.{trace};
ghost use Rattle.trace.specs.declared.item.End.TheVariants as end;
ghost use Rattle.lambda_values.specs.declared.item.Item.{Item};

use crate::flagged::accept_each_flagged;
use crate::flagged_lanes::FlaggedLanes;
use crate::lane_items::LaneItems;
use lambda_values::{BoolExpr, Run};
use trace::{Fed, Flow, LongSink, NoMemory, SourceItems};

/// A sink that takes the items of a batch at once.
pub trait BatchSink: LongSink {
    /// Takes the items one after the other until it has enough, as `accept` takes one, and answers `More` or `Enough`.
    /// It doesn't learn how the walk ends after them. The sink may write to the room, which no other reads:
    /// `count_passing` tests the values in it. Unless a sink has a faster way, it takes the items one by one.
    fn accept_lanes(&mut self, lanes: LaneItems<'_>, room: &mut [i64]) -> Result<Fed, NoMemory>
        requires wants { Self.flow self.old ≡ Flow.More }
        ensures fed { (xs : List Item) → Self.has_taken self.old xs → IsFed Self.has_taken xs
            (trace (laid lanes.entry) end.Done) result self.new }
        ensures flow { Self.flow self.new ≡ flow_after result }
        ensures refused { OnErr result Self.takes_memory }
    {
        accept_each(&lanes, self)
    }

    /// Whether a `filter` is to give lanes with their flags, by `accept_flagged`, and not the items that pass, by
    /// `accept_lanes`. Both give the sink equal items.
    fn takes_flags(&self) -> bool {
        false
    }

    /// Takes the items of the lanes whose flag is set, as `accept` takes one item after the other. Unless a sink has a
    /// faster way, it takes them one by one.
    fn accept_flagged(&mut self, lanes: FlaggedLanes<'_>) -> Result<Fed, NoMemory>
        requires wants { Self.flow self.old ≡ Flow.More }
        ensures fed { (xs : List Item) → Self.has_taken self.old xs → IsFed Self.has_taken xs
            (trace (set_in lanes.entry) end.Done) result self.new }
        ensures flow { Self.flow self.new ≡ flow_after result }
        ensures refused { OnErr result Self.takes_memory }
    {
        accept_each_flagged(lanes, self)
    }

    /// Whether integers in a row that come to the sink are to be given to it by `accept_run`, not put into lanes.
    fn takes_runs(&self) -> bool {
        false
    }

    /// Takes items whose values are integers in a row, wherever their places are, if the sink has a way that takes no
    /// longer for more of them, and answers whether it did. If not, the sink is as before.
    fn accept_run(&mut self, _run: Run) -> bool
        requires wants { Self.flow self.old ≡ Flow.More }
        ensures taken { result ≡ true → (xs ys : List Item) → map (λ y. y.value) ys ≡ run_values _run
            → Self.has_taken self.old xs → Self.has_taken self.new (xs ++ ys) }
        ensures other { result ≡ false → self.new ≡ self.old }
        ensures flow { Self.flow self.new ≡ Flow.More }
    {
        false
    }

    /// The test that the sink asks of items, if it asks one. A walk then looks for room that is enough for it as well.
    fn test(&self) -> Option<&BoolExpr> {
        None
    }
}

/// Gives a sink items one after the other, until it has enough.
pub fn accept_each<I: SourceItems, S: LongSink>(source: &I, sink: &mut S) -> Result<Fed, NoMemory>
    requires wants { S.flow sink.old ≡ Flow.More }
    ensures fed { (xs : List Item) → S.has_taken sink.old xs
        → IsFed S.has_taken xs (trace (I.items source.now) end.Done) result sink.new }
    ensures flow { S.flow sink.new ≡ flow_after result }
    ensures refused { OnErr result S.takes_memory }
{
    for position in 0..source.count() {
        match sink.accept(source.item_at(position))? {
            Flow::More => {}
            Flow::Enough => return Ok(Fed::Enough),
        }
    }
    Ok(Fed::More)
}
