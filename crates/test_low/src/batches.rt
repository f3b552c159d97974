//! Walks by batches against walks item by item.
ghost use Rattle.std.specs.Prelude.{◌≡◌, ◌+◌, ◌<◌, ◌≤◌, ◌^◌, ⊤, [], length, ◌==◌};
ghost use Rattle.trace.specs.declared.sink.Flow.TheVariants as flow;

use crate::random::{any_stage, any_values, next};
use batch_eval::{BatchItems, BatchSink, LaneItems, Pipeline, Registers, feed_batches};
use lambda_expr::{Want, read_lambda};
use lambda_values::{Body, Env, InnerExpr, LongExpr};
use std::alloc::{AllocError, Global};
use std::test::Fail;
use trace::{Fed, Flow, Item, LongSink, NoMemory, Stage, feed_all};

/// Images and tests, each operator at least once; divisors and exact operations that fault at some of
/// the values from -8 to 7.
pub(crate) const IMAGES: &str =
    "x -> x + 1; x -> 3 - x; x -> x * x * 5; x -> 7 / x; x -> x % (x - 5); x -> x << 60 >> x; \
    x -> x >>> 60; x -> (x & 6) ^ (x | 9); x -> Math.min(x, 3) - Math.max(-x, 2); x -> Math.floorDiv(7, x + 8); \
    x -> Math.floorMod(-7, x); x -> Math.addExact(x, 9223372036854775802L); x -> Math.subtractExact(-9, x << 60); \
    x -> Math.multiplyExact(x << 59, 3); x -> -x; x -> ~x; x -> Math.abs(x); x -> Math.negateExact(x << 60); \
    x -> x > 2 ? 10 / (x - 4) : 10 / (x + 6); x -> x < 0 ? x : x == 3 ? 1 / (x - 3) : 8; \
    x -> (x + 2) * (x - 1) * (x + x); x -> 4";

pub(crate) const TESTS: &str =
    "x -> x > -2; x -> x % 2 == 0; x -> x != 0 && 12 / x > 2; x -> x == 0 || 12 / x < 3; x -> !(x <= 1); \
    x -> 5 / x >= 1; x -> x < 0 ? x < -4 : 6 / (x - 3) != 2; x -> true; x -> x == 1 || x > 2 && 9 / (x - 5) < 0";

/// The ends of inner streams that begin with 0, none of them above 6.
pub(crate) const ENDS: &str = "x -> x & 3; x -> 6 / x; x -> x % (x - 5)";

/// The items that came, in order, and whether the sink takes them from lanes with flags.
#[derive(Drop)]
struct Items {
    items: Vec<Item>,
    flags: bool,
}

impl LongSink for Items {
    ghost has_taken = { λ sink items. sink.items.items ≡ items };

    ghost flow = { λ _. flow.More };

    ghost takes_memory = { ⊤ };

    fn accept(&mut self, item: Item) -> Result<Flow, NoMemory> {
        self.items.push(item)?;
        Ok(Flow::More)
    }
}

impl BatchSink for Items {
    fn takes_flags(&self) -> bool {
        self.flags
    }
}

/// A sink that has no items yet.
fn no_items(alloc: Global, flags: bool) -> Items
    ensures { (result.items.items ≡ []) × (result.flags ≡ flags) }
{
    Items {
        items: Vec::new(alloc),
        flags,
    }
}

/// `map` or `filter` by a lambda.
pub(crate) fn stage(alloc: Global, text: &str, want: Want) -> Result<Stage, NoMemory> {
    match read_lambda(alloc, text.trim().as_bytes(), want) {
        Ok(lambda) => match lambda.body {
            Body::Long(image) => Ok(Stage::Map(image)),
            Body::Bool(test) => Ok(Stage::Filter(test)),
            _ => Err(AllocError),
        },
        Err(_) => Err(AllocError),
    }
}

/// `flatMap` to the integers from 0 up to, not with, the value of a lambda.
pub(crate) fn flat_map(alloc: Global, text: &str) -> Result<Stage, NoMemory> {
    match stage(alloc, text, Want::Long)? {
        Stage::Map(end) => Ok(Stage::FlatMap(InnerExpr::Range(LongExpr::Number(0), end))),
        _ => Err(AllocError),
    }
}

/// These stages, from stage 1 on.
pub(crate) fn line_of<'a>(stages: &'a [Stage], env: &'a Env) -> Pipeline<'a>
    requires { 1 + length stages.now < 2 ^ 32 }
{
    Pipeline {
        stages,
        first: 1,
        env,
    }
}

/// Whether all ways give equal items and ends.
fn agree(
    alloc: Global,
    stages: &[Stage],
    items: &BatchItems<'_>,
    registers: &mut Registers,
) -> Result<bool, NoMemory>
    requires { 1 + length stages.now < 2 ^ 32 }
{
    let env = Env::empty(alloc);
    let mut expected = no_items(alloc, false);
    let end = feed_all(stages, 1, &env, items, &mut expected)?;
    for flags in [false, true] {
        let mut found = no_items(alloc, flags);
        let found_end = feed_batches(line_of(stages, &env), items, registers, &mut found)?;
        if found_end != end || found.items.as_slice() != expected.items.as_slice() {
            return Ok(false);
        }
    }
    Ok(true)
}

/// Values at the places 0, 2, 4 and so on.
fn spread<'a>(places: &'a [u64], values: &'a [i64]) -> Result<BatchItems<'a>, NoMemory> {
    if places.len() != values.len() {
        return Err(AllocError);
    }
    Ok(BatchItems::Lanes(LaneItems {
        start: None,
        places,
        values,
    }))
}

/// Whether three stages that a seed chooses give equal items and ends by batches and item by item: over values at
/// places that are listed, and that count up from 7.
fn agree_by_seed(
    alloc: Global,
    seed: u64,
    size: u64,
    registers: &mut Registers,
) -> Result<bool, NoMemory> {
    let values = any_values(alloc, seed, size)?;
    let stages = [
        any_stage(alloc, next(seed ^ 1))?,
        any_stage(alloc, next(seed ^ 2))?,
        any_stage(alloc, next(seed ^ 3))?,
    ];
    let places: Vec<u64> = (0..values.len() as u64)
        .map(|lane| 2 * lane)
        .collect(alloc)?;
    let stages = &stages[..];
    let later = &stages[(seed % 4) as usize..];
    if !agree(alloc, stages, &spread(&places, &values)?, registers)? {
        return Ok(false);
    }
    agree(alloc, later, &BatchItems::placed(7, &values), registers)
}

#[test]
fn batches_give_what_a_walk_item_by_item_gives(rt: HostRuntime) -> Result<(), Fail> {
    let mut registers = Registers::new(rt.alloc());
    let mut seed = 2026;
    for size in [2384, 0, 1, 2, 15, 16, 17, 79, 80, 81, 336, 1359, 1360, 1361] {
        for _ in 0..30 {
            seed = next(seed);
            assert!(rt;
                agree_by_seed(rt.alloc(), seed, size, &mut registers)?,
                "{seed}, {size}"
            );
        }
    }
    Ok(())
}
