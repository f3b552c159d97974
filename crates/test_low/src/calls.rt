//! Calls that the program doesn't make, each once, with values of Java 17 or by hand.
ghost use Rattle.std.specs.Prelude.{◌≡◌, IfOk, length};
ghost use Rattle.trace.specs.declared.item.End.TheVariants as end;

use crate::batches::stage;
use crate::decimal_jobs;
use crate::lambdas::are_cells;
use crate::messages::are_messages;
use find_ops::{FindPart, FindTerminal, Finder, Found};
use job_names::names_in;
use lambda_expr::{Want, read_lambda, read_number};
use lambda_values::{Body, BoolExpr, Env, FaultKind, Inner, InnerExpr, LongExpr};
use prefix_scan::{down, merge, up};
use reduce_ops::{Exact, ExactPart, Op, Partial};
use slice_ops::{Slice, SlicePart, drop_while, limit, skip, take_while};
use std::alloc::{AllocError, Global};
use std::test::Fail;
use stream_tokens::{Bytes, JobText, JobTexts, cut, job_texts};
use trace::{Chunk, End, Fault, Fed, Item, NoMemory, PlacedValues, Stage, feed, feed_all};

fn item(origin: u64, value: i64) -> Item {
    Item { origin, value }
}

/// A chunk of two values, at this place and the next one.
fn two(alloc: Global, origin: u32, values: [i64; 2]) -> Result<Chunk, NoMemory>
    ensures { IfOk result (λ chunk. (length chunk.items ≡ 2) × (chunk.ending ≡ end.Done)) }
{
    let [first, second] = values;
    let mut chunk = Chunk::ending(alloc, End::Done);
    chunk.push(item(u64::from(origin), first))?;
    chunk.push(item(u64::from(origin) + 1, second))?;
    Ok(chunk)
}

/// Whether a chunk has these values, and ends so.
fn has(chunk: &Chunk, values: &[i64], end: End) -> bool {
    let found = chunk.pieces().iter().flat_map(|piece| piece.iter());
    found.map(|item| item.value).eq(values.iter().copied()) && chunk.end() == end
}

fn test(alloc: Global, text: &str) -> Result<BoolExpr, NoMemory> {
    match stage(alloc, text, Want::Bool)? {
        Stage::Filter(test) => Ok(test),
        _ => Err(AllocError),
    }
}

const FILE: &[u8] = b"# c\r\nversion 2\r\n\n a = of(1)\r\n\t.sum()\n// d\nb = of(2)";

fn is_text(text: &JobText<'_>, line: u64, bytes: &[u8]) -> bool {
    text.line == line && text.text.as_slice() == bytes
}

/// Whether the texts of a file, the tokens of a text and a number are those that stand there.
fn are_read(alloc: Global) -> Result<bool, NoMemory> {
    let Ok((version, texts)) = job_texts(alloc, FILE) else {
        return Ok(false);
    };
    let are_texts = texts.len() == 2
        && is_text(&texts[0], 4, b" a = of(1) \t.sum()")
        && is_text(&texts[1], 7, b"b = of(2)");
    let text = b" -  12L";
    let tokens = cut(alloc, text)?;
    let places = tokens.iter().map(|token| (token.from, token.to));
    let are_tokens = places.eq([(1, 2), (4, 7)]) && read_number(text, &tokens) == Ok(-12);
    let least = b"Long .MIN_VALUE";
    let is_least = read_number(least, &cut(alloc, least)?) == Ok(i64::MIN);
    let bytes = Bytes::from(Vec::from_slice(alloc, text)?);
    Ok(
        version == 2
            && are_texts
            && are_tokens
            && is_least
            && bytes.into_vec().as_slice() == text.as_slice(),
    )
}

/// Whether the names in these jobs, one after the other, are these.
fn are_named(alloc: Global, jobs: &[u8], names: &[&[u8]]) -> Result<bool, NoMemory> {
    let found = names_in(alloc, &mut JobTexts::of(jobs))?;
    Ok(
        found
            .iter()
            .map(|name| name.as_slice())
            .eq(names.iter().copied()),
    )
}

/// Whether the keys in jobs are what stands between quotes, also over lines, with the decimal places after it, and none
/// stand in a file with a fault.
fn are_names_found(alloc: Global) -> Result<bool, NoMemory> {
    let jobs = b"a = column(\"x y\").sum()\n# \"no\"\nb = \"\" \"p\n .q\" \"r";
    let decimal =
        b"a = column(\"x\", 2)\n .map(x -> cell(\"y\"\t, 18) + cell(\"z\", 19) + cell(\"z\", 0))";
    Ok(
        are_named(alloc, jobs, &[b"x y", b"", b"p  .q"])?
            && are_named(alloc, decimal, &[b"x\"\x02", b"y\"\x12", b"z", b"z"])?
            && are_named(alloc, b".sum(\"x\")\nb = \"y\"", &[])?,
    )
}

/// An inner stream by its lambda.
fn inner(alloc: Global, text: &[u8]) -> Result<InnerExpr, NoMemory> {
    match read_lambda(alloc, text, Want::Stream) {
        Ok(lambda) => match lambda.body {
            Body::Stream(inner) => Ok(inner),
            _ => Err(AllocError),
        },
        Err(_) => Err(AllocError),
    }
}

/// Whether two inner streams have their values, or their fault.
fn are_inner(alloc: Global) -> Result<bool, NoMemory> {
    let env = Env::empty(alloc);
    let range = inner(alloc, b"x -> rangeClosed(x, 8)")?;
    let is_range = match range.eval(5, &env) {
        Ok(Inner::Range(run)) => run.first == 5 && run.count == 4,
        _ => false,
    };
    let listed = inner(alloc, b"x -> of(x, 14 / x)")?;
    let is_listed = match listed.eval(7, &env) {
        Ok(Inner::Values(values)) => values.as_slice() == [7, 2].as_slice(),
        _ => false,
    };
    Ok(is_range && is_listed && listed.eval(0, &env).err() == Some(FaultKind::DivideByZero))
}

/// Whether a row is the place of the item, and a number by itself has place 0; and which expressions look at places.
fn are_rows(alloc: Global) -> Result<bool, NoMemory> {
    let env = Env::empty(alloc);
    let row = LongExpr::Row;
    let stays = LongExpr::Parameter(0);
    let is_row = row.eval_at(item(7, 5), &env) == Ok(7) && row.eval(5, &env) == Ok(0);
    let is_value = stays.eval(5, &env) == Ok(5);
    let is_tested = test(alloc, "x -> x > 1")?.is_placeless();
    let is_listed = inner(alloc, b"x -> of(x)")?.is_placeless();
    let is_placeless = stays.is_placeless() && is_tested && is_listed && !row.is_placeless();
    Ok(is_row && is_value && is_placeless)
}

/// Whether items that are fed one by one, and values of a chunk, are these.
fn are_walked(alloc: Global) -> Result<bool, NoMemory> {
    let env = Env::empty(alloc);
    let stages = [stage(alloc, "x -> 6 / x", Want::Long)?];
    let mut chunk = Chunk::ending(alloc, End::Done);
    let fed = feed(&stages, 1, &env, item(0, 3), &mut chunk)?;
    let source = PlacedValues::of(&[4, 5]);
    let is_placed = source.is_some_and(|source| source.origin == 0
        && source.values == [4, 5].as_slice());
    let values = match two(alloc, 7, [4, 5])?.into_values(alloc) {
        Ok(values) => values,
        Err(_) => return Err(AllocError),
    };
    Ok(
        fed == Fed::More
            && has(&chunk, &[2], End::Done)
            && is_placed
            && values.as_slice() == [4, 5].as_slice(),
    )
}

/// Whether 1, 2 and 3, 4 side by side, each scanned where it lies, have this prefix of sums, and this fold.
fn is_prefix(
    alloc: Global,
    ranges: [Option<(u64, u64)>; 2],
    prefix: [&[i64]; 2],
    fold: i64,
) -> Result<bool, NoMemory> {
    let [first, second] = ranges;
    let mut left = two(alloc, 0, [1, 2])?;
    let mut right = two(alloc, 2, [3, 4])?;
    let block = up(Op::Sum, first, &left);
    let both = merge(block, up(Op::Sum, second, &right));
    down(Op::Sum, first, None, &mut left);
    down(Op::Sum, second, block.finish().unwrap_or(None), &mut right);
    Ok(
        has(&left, prefix[0], End::Done)
            && has(&right, prefix[1], End::Done)
            && both.finish() == Ok(Some(fold)),
    )
}

/// Whether two passes over two chunks give the prefix, whole and of positions 1 and 2.
fn are_prefixes(alloc: Global) -> Result<bool, NoMemory> {
    let ranges = [Some((1, 2)), Some((0, 1))];
    Ok(
        is_prefix(alloc, [None, None], [&[1, 3], &[6, 10]], 10)?
            && is_prefix(alloc, ranges, [&[1, 2], &[5, 4]], 5)?,
    )
}

/// Whether operators, and parts of 5 and 7 merged, have these values.
fn are_folded() -> bool {
    let [five, seven] = [item(0, 5), item(1, 7)];
    let sum = Partial::of(Op::Sum, five).merge(Partial::of(Op::Sum, seven));
    let none = Partial::none(Op::Max, End::Done);
    let exact = ExactPart::of(five).merge(ExactPart::of(seven));
    Op::Affine.apply(8589934595, 21474836487) == 42949672982
        && Op::Affine.identity() == Some(4294967296)
        && Op::Last.identity().is_none()
        && sum.finish() == Ok(Some(12))
        && none.finish() == Ok(None)
        && matches!(exact.finish(), Exact::Sum(12))
}

const FAULT: End = End::Fault(Fault {
    kind: FaultKind::DivideByZero,
    stage: 1,
    origin: Some(1),
});

/// Whether each slice makes of a chunk where it lies what it has to.
fn are_shortened(alloc: Global) -> Result<bool, NoMemory> {
    let env = Env::empty(alloc);
    let mut limited = two(alloc, 0, [1, 2])?;
    let mut skipped = two(alloc, 0, [1, 2])?;
    let mut taken = two(alloc, 0, [1, 3])?;
    let mut dropped = two(alloc, 0, [1, 0])?;
    let is_enough = limit(&mut limited, 1);
    skip(&mut skipped, 1);
    let is_ended = take_while(&mut taken, 1, &test(alloc, "x -> 6 / x > 2")?, &env);
    drop_while(&mut dropped, 1, &test(alloc, "x -> 10 / x > 3")?, &env);
    Ok(
        is_enough
            && is_ended
            && has(&limited, &[1], End::Done)
            && has(&skipped, &[2], End::Done)
            && has(&taken, &[1], End::Done)
            && has(&dropped, &[], FAULT),
    )
}

/// What a slice makes of 2, 20 and 3, 40 side by side.
fn sliced(alloc: Global, slice: &Slice) -> Result<Chunk, NoMemory> {
    let env = Env::empty(alloc);
    let left = SlicePart::of(slice, 1, two(alloc, 0, [2, 20])?, &env);
    let right = SlicePart::of(slice, 1, two(alloc, 2, [3, 40])?, &env);
    match left.join(right) {
        Ok(part) => Ok(part.finish(&env)),
        Err(_) => Err(AllocError),
    }
}

/// Whether each slice keeps of two pieces what Java's keeps of both.
fn are_sliced(alloc: Global) -> Result<bool, NoMemory> {
    let slices = [
        Slice::Limit(2),
        Slice::Skip(2),
        Slice::TakeWhile(test(alloc, "x -> x < 9")?),
        Slice::DropWhile(test(alloc, "x -> x < 9")?),
    ];
    let kept: [&[i64]; 4] = [&[2, 20], &[3, 40], &[2], &[20, 3, 40]];
    for (slice, kept) in slices.iter().zip(kept) {
        if !has(&sliced(alloc, slice)?, kept, End::Done) {
            return Ok(false);
        }
    }
    Ok(true)
}

/// Whether a terminal finds this in 2, 20 and 3, 40: in parts side by side, and in a sink.
fn is_found(alloc: Global, terminal: &FindTerminal, found: Found) -> Result<bool, NoMemory> {
    let env = Env::empty(alloc);
    let left = FindPart::of(terminal, 1, &two(alloc, 0, [2, 20])?, &env);
    let right = FindPart::of(terminal, 1, &two(alloc, 2, [3, 40])?, &env);
    let items = Vec::from_slice(alloc, &[item(0, 2), item(1, 20), item(2, 3), item(3, 40)])?;
    let mut finder = Finder::new(terminal, 1, &env);
    let is_fed = feed_all(&[], 1, &env, &items, &mut finder).is_ok();
    let is_in_sink = is_fed && finder.part().finish() == Ok(found);
    Ok(left.merge(right).finish() == Ok(found) && is_in_sink)
}

/// Whether each find and match gives of two pieces what Java's gives of both.
fn are_found(alloc: Global) -> Result<bool, NoMemory> {
    let terminals = [
        FindTerminal::First,
        FindTerminal::AnyMatch(test(alloc, "x -> x > 9")?),
        FindTerminal::AllMatch(test(alloc, "x -> x > 9")?),
        FindTerminal::NoneMatch(test(alloc, "x -> x > 90")?),
    ];
    let answers = [
        Found::Value(Some(2)),
        Found::Truth(true),
        Found::Truth(false),
        Found::Truth(true),
    ];
    for (terminal, found) in terminals.iter().zip(answers) {
        if !is_found(alloc, terminal, found)? {
            return Ok(false);
        }
    }
    Ok(true)
}

#[test]
fn each_call_that_the_program_does_not_make_gives_its_value(rt: HostRuntime) -> Result<(), Fail> {
    let alloc = rt.alloc();
    for (calls, are_right) in [
        ("texts, tokens, numbers", are_read(alloc)?),
        ("names in jobs", are_names_found(alloc)?),
        ("cells", are_cells(alloc)),
        ("columns in jobs", decimal_jobs::are_read(alloc)?),
        ("inner streams", are_inner(alloc)?),
        ("places of items", are_rows(alloc)?),
        ("items and values", are_walked(alloc)?),
        ("prefixes", are_prefixes(alloc)?),
        ("folds", are_folded()),
        ("slices of chunks", are_shortened(alloc)?),
        ("slices of pieces", are_sliced(alloc)?),
        ("finds and matches", are_found(alloc)?),
        ("messages of faults", are_messages(alloc)),
    ] {
        assert!(rt; are_right, "{calls}");
    }
    Ok(())
}
