//! Walks into sinks of one's own, and chunks that go on with another.
ghost use Rattle.std.specs.Prelude.{◌≡◌, ◌+◌, ⊤, length, if◌then◌else◌, ◌==◌};
ghost use Rattle.trace.specs.declared.sink.Flow.TheVariants as flow;

use lambda_values::{Env, InnerExpr, LongExpr};
use std::alloc::{AllocError, Global};
use std::test::Fail;
use trace::{Chunk, End, Fed, Flow, Item, LongSink, NoMemory, Stage, feed_all};

/// A chunk of one item, and after it one of two items.
fn one_and_two(alloc: Global) -> Result<Chunk, NoMemory> {
    let item = Item {
        origin: 0,
        value: 4,
    };
    let mut second = Chunk::ending(alloc, End::Done);
    second.push(item)?;
    second.push(item)?;
    let mut chunk = Chunk::ending(alloc, End::Done);
    chunk.push(item)?;
    match chunk.append(second) {
        Ok(()) => Ok(chunk),
        Err(_) => Err(AllocError),
    }
}

#[test]
fn a_chunk_that_goes_on_with_another_keeps_its_pieces(rt: HostRuntime) -> Result<(), Fail> {
    let chunk = one_and_two(rt.alloc())?;
    assert!(rt; chunk.pieces().iter().map(|piece| piece.len()).eq([1, 2]));
    Ok(())
}

/// A sink that wants `all` items, and has room for `room` of them.
#[derive(Drop)]
struct Few {
    all: u64,
    left: u64,
    room: u64,
}

impl LongSink for Few {
    ghost has_taken = { λ sink items. sink.left + length items ≡ sink.all };

    ghost flow = { λ sink. if sink.left == 0 then flow.Enough else flow.More };

    ghost takes_memory = { ⊤ };

    fn accept(&mut self, _: Item) -> Result<Flow, NoMemory> {
        if self.room == 0 {
            return Err(AllocError);
        }
        self.room -= 1;
        self.left -= 1;
        Ok(if self.left == 0 {
            Flow::Enough
        } else {
            Flow::More
        })
    }
}

/// What a walk through `flatMap(x -> range(0, x))` answers, into a sink that wants three items, and how many it wants
/// then.
fn into_few(alloc: Global, items: &Vec<Item>, room: u64) -> (Result<Fed, NoMemory>, u64) {
    let stages = [Stage::FlatMap(InnerExpr::Range(LongExpr::Number(0), LongExpr::Parameter(0)))];
    let mut sink = Few {
        all: 3,
        left: 3,
        room,
    };
    let found = feed_all(&stages, 1, &Env::empty(alloc), items, &mut sink);
    (found, sink.left)
}

#[test]
fn a_sink_that_has_enough_or_no_room_ends_an_inner_stream(rt: HostRuntime) -> Result<(), Fail> {
    let item = Item {
        origin: 0,
        value: 1 << 62,
    };
    let items = Vec::from_slice(rt.alloc(), &[item])?;
    assert!(rt; into_few(rt.alloc(), &items, 9) == (Ok(Fed::Enough), 0));
    assert!(rt; into_few(rt.alloc(), &items, 1) == (Err(AllocError), 2));
    Ok(())
}
