//! Walks into sinks that have enough, or no memory.

ghost use Rattle.std.specs.Prelude.{◌+◌, ◌<◌, ◌^◌, ⊤, length, if◌then◌else◌, ◌==◌};
ghost use Rattle.trace.specs.declared.sink.Flow.TheVariants as flow;

use crate::batches::{line_of, stage};
use batch_eval::{BatchItems, BatchSink, Registers, feed_batches};
use lambda_expr::Want;
use lambda_values::{Env, InnerExpr, LongExpr};
use std::alloc::{AllocError, Global};
use std::test::Fail;
use trace::{Fed, Flow, Item, LongSink, NoMemory, RangeItems, Stage};

/// A sink that takes some items and then has enough, or no memory.
#[derive(Drop)]
struct Few {
    taken: u64,
    all: u64,
    room: u64,
}

impl LongSink for Few {
    ghost has_taken = { λ sink items. ⊤ };

    ghost flow = { λ sink. if sink.taken == sink.all then flow.Enough else flow.More };

    ghost takes_memory = { ⊤ };

    fn accept(&mut self, _: Item) -> Result<Flow, NoMemory> {
        if self.taken >= self.room {
            return Err(AllocError);
        }
        self.taken += 1;
        Ok(if self.taken == self.all {
            Flow::Enough
        } else {
            Flow::More
        })
    }
}

impl BatchSink for Few {}

/// What a walk into a sink of this kind answers, and how many items the sink took.
fn walk_into_few(
    alloc: Global,
    stages: &[Stage],
    items: &BatchItems<'_>,
    all: u64,
    room: u64,
) -> (Result<Fed, NoMemory>, u64)
    requires numbered { 1 + length stages.now < 2 ^ 32 }
    requires some { 0 < all }
{
    let env = Env::empty(alloc);
    let mut registers = Registers::new(alloc);
    let mut sink = Few {
        taken: 0,
        all,
        room,
    };
    let fed = feed_batches(line_of(stages, &env), items, &mut registers, &mut sink);
    (fed, sink.taken)
}

/// What a walk over a long range answers, where each even number becomes three.
fn three_for_each_even(
    alloc: Global,
    all: u64,
    room: u64,
) -> Result<(Result<Fed, NoMemory>, u64), NoMemory>
    requires { 0 < all }
{
    let Some(source) = RangeItems::between(0, 1 << 62) else {
        return Err(AllocError);
    };
    let stages = [
        stage(alloc, "x -> x % 2 == 0", Want::Bool)?,
        Stage::FlatMap(InnerExpr::Range(LongExpr::Number(0), LongExpr::Number(3))),
    ];
    Ok(walk_into_few(alloc, &stages, &BatchItems::Range(source), all, room))
}

#[test]
fn a_sink_that_has_enough_or_no_memory_ends_the_batches(rt: HostRuntime) -> Result<(), Fail> {
    let enough = Ok(Fed::Enough);
    assert!(rt; three_for_each_even(rt.alloc(), 1, 9)? == (enough, 1));
    assert!(rt; three_for_each_even(rt.alloc(), 1000, 5000)? == (enough, 1000));
    assert!(rt; three_for_each_even(rt.alloc(), 3, 2)? == (Err(AllocError), 2));
    assert!(rt; three_for_each_even(rt.alloc(), 5000, 3500)? == (Err(AllocError), 3500));
    Ok(())
}
