//! Calls that are refused memory: what they leave, and that they succeed if they are made again.
//!
//! `tests/refused_growths` runs this test with one allocation after the other refused.
ghost use Rattle.std.specs.Prelude.{◌≡◌, IfOk, IfSome};
ghost use Rattle.trace.specs.declared.item.End.TheVariants as end;

use job_language::{Job, read_jobs};
use job_plan::Plan;
use lambda_expr::{ReadFault, Want, read_lambda};
use lambda_values::{Body, Env, Lambda};
use std::alloc::Global;
use std::test::Fail;
use stream_tokens::{JobText, TextFault, job_texts};
use tables::Columns;
use trace::{Chunk, End, Item, NoMemory};

fn item(value: i64) -> Item {
    Item { origin: 0, value }
}

/// Two values in a chunk.
fn made_once(alloc: Global, values: [i64; 2]) -> Result<Chunk, NoMemory>
    ensures { IfOk result (λ chunk. chunk.ending ≡ end.Done) }
{
    let [first, second] = values;
    let mut chunk = Chunk::ending(alloc, End::Done);
    chunk.push(item(first))?;
    chunk.push(item(second))?;
    Ok(chunk)
}

/// A chunk of two values, made once more if an allocation fails.
fn two(alloc: Global, values: [i64; 2]) -> Option<Chunk>
    ensures { IfSome result (λ chunk. chunk.ending ≡ end.Done) }
{
    match made_once(alloc, values) {
        Ok(chunk) => Some(chunk),
        Err(_) => made_once(alloc, values).ok(),
    }
}

/// Whether a chunk that is done has these values.
fn has(chunk: &Chunk, values: &[i64]) -> bool {
    let found = chunk.pieces().iter().flat_map(|piece| piece.iter());
    found.map(|item| item.value).eq(values.iter().copied()) && chunk.end() == End::Done
}

// Each of the following makes a call, and once more if it is refused. It says whether it was, and nothing if what the
// call left or gave is wrong.

fn pushes(alloc: Global) -> Option<bool> {
    let mut chunk = Chunk::ending(alloc, End::Done);
    match chunk.push(item(7)) {
        Ok(()) => has(&chunk, &[7]).then_some(false),
        Err(_) => {
            let is_left = has(&chunk, &[]);
            chunk.push(item(7)).ok()?;
            (is_left && has(&chunk, &[7])).then_some(true)
        }
    }
}

/// Several times, so that the list of pieces has to grow.
fn appends(alloc: Global) -> Option<bool> {
    let mut chunk = two(alloc, [1, 2])?;
    let mut is_refused = false;
    for pieces in 1..9usize {
        let right = two(alloc, [3, 4])?;
        if let Err(right) = chunk.append(right) {
            if chunk.pieces().len() != pieces || !has(&right, &[3, 4]) {
                return None;
            }
            chunk.append(right).ok()?;
            is_refused = true;
        }
    }
    let is_whole = chunk.pieces().len() == 9 && chunk.pieces().iter().all(|piece| piece.len() == 2);
    is_whole.then_some(is_refused)
}

fn gives_values(alloc: Global) -> Option<bool> {
    match two(alloc, [5, 6])?.into_values(alloc) {
        Ok(values) => (values.as_slice() == [5, 6].as_slice()).then_some(false),
        Err(chunk) => {
            let is_left = has(&chunk, &[5, 6]);
            let values = chunk.into_values(alloc).ok()?;
            (is_left && values.as_slice() == [5, 6].as_slice()).then_some(true)
        }
    }
}

const FILE: &[u8] = b"a = of(1)\n .sum()\nb = of(2).sum()\n";

fn are_texts(texts: &[JobText<'_>]) -> bool {
    texts.iter().map(|text| text.line).eq([1, 3])
}

fn lists_texts(alloc: Global) -> Option<bool> {
    match job_texts(alloc, FILE) {
        Ok((_version, texts)) => are_texts(&texts).then_some(false),
        Err(TextFault::NoMemory) => match job_texts(alloc, FILE) {
            Ok((_version, texts)) => are_texts(&texts).then_some(true),
            Err(_) => None,
        },
        Err(_) => None,
    }
}

/// Whether the lambda of `(x + 1) * 2` gives 8 at 3.
fn is_lambda(alloc: Global, lambda: &Lambda) -> bool {
    match &lambda.body {
        Body::Long(expr) => expr.eval(3, &Env::empty(alloc)) == Ok(8),
        _ => false,
    }
}

fn reads_lambda(alloc: Global) -> Option<bool> {
    let text = b"x -> (x + 1) * 2";
    match read_lambda(alloc, text, Want::Long) {
        Ok(lambda) => is_lambda(alloc, &lambda).then_some(false),
        Err(ReadFault::NoMemory) => {
            let lambda = read_lambda(alloc, text, Want::Long).ok()?;
            is_lambda(alloc, &lambda).then_some(true)
        }
        Err(_) => None,
    }
}

/// The jobs of the file, read once more if an allocation fails.
fn jobs<'c>(alloc: Global, columns: &'c Columns) -> Option<Vec<Job<'c>>> {
    match read_jobs(alloc, FILE, columns) {
        Ok(jobs) => Some(jobs),
        Err(_) => read_jobs(alloc, FILE, columns).ok(),
    }
}

fn plans(alloc: Global) -> Option<bool> {
    let columns = Columns::none();
    match Plan::of(alloc, jobs(alloc, &columns)?, 4) {
        Ok(plan) => (plan.jobs.len() == 2).then_some(false),
        Err(_) => {
            let plan = Plan::of(alloc, jobs(alloc, &columns)?, 4).ok()?;
            (plan.jobs.len() == 2).then_some(true)
        }
    }
}

#[test]
fn a_refused_call_leaves_what_it_was_given_and_can_be_made_again(
    rt: HostRuntime,
) -> Result<(), Fail> {
    let alloc = rt.alloc();
    for (call, found) in [
        ("push", pushes(alloc)),
        ("append", appends(alloc)),
        ("into_values", gives_values(alloc)),
        ("job_texts", lists_texts(alloc)),
        ("read_lambda", reads_lambda(alloc)),
        ("Plan::of", plans(alloc)),
    ] {
        assert!(rt; found.is_some(), "{call}");
        if found == Some(true) {
            let _ = println!(rt; "{call} was refused");
        }
    }
    Ok(())
}
