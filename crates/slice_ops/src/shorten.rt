//! Chunks that a slice shortens in place.

ghost use Rattle.std.specs.Prelude.{◌≡◌, length, nat_lt, not, is_some};
ghost use Rattle.lambda_values.specs.Term.{truth_of};
ghost use Rattle.trace.specs.Stops.{stop_at};
ghost use Rattle.slice_ops.specs.Slices.{limited, skipped, taken, dropped, front_ends};

use lambda_values::{BoolExpr, Env};
use trace::{Chunk, End, EndTest, Fault, Item};

/// Keeps the first `n` items and ends done, if there are at least `n`. The answer says whether there are.
/// For other programs.
pub fn limit(chunk: &mut Chunk, n: u64) -> bool
    ensures kept { chunk.new ≡ limited n chunk.old }
    ensures enough { result ≡ not (nat_lt (length chunk.old.items) n) }
{
    let enough = chunk.has_items(n);
    if enough {
        chunk.cut_to(n, End::Done);
    }
    enough
}

/// Removes the first `n` items, or all if there are fewer. For other programs.
pub fn skip(chunk: &mut Chunk, n: u64)
    ensures { chunk.new ≡ skipped n chunk.old }
{
    chunk.remove_first(n);
}

/// Keeps the items before the first one at which the test is false or faults.
///
/// The answer says whether there is one. The stage has this number. For other programs.
pub fn take_while(chunk: &mut Chunk, stage: u32, test: &BoolExpr, env: &Env) -> bool
    ensures kept { chunk.new ≡ taken (truth_of test.now) stage env.now chunk.old }
    ensures enough { result ≡ is_some (stop_at (front_ends (truth_of test.now) stage env.now) chunk.old.items) }
{
    chunk.keep_until(&FrontTest { stage, test, env })
}

/// Keeps the items from the first one on at which the test is false, or a fault of the test alone. For other programs.
pub fn drop_while(chunk: &mut Chunk, stage: u32, test: &BoolExpr, env: &Env)
    ensures { chunk.new ≡ dropped (truth_of test.now) stage env.now chunk.old }
{
    chunk.keep_from(&FrontTest { stage, test, env });
}

/// The front of a walk, which ends before the first item at which the test isn't true.
#[derive(Clone, Copy)]
pub(super) struct FrontTest<'a> {
    pub(super) stage: u32,
    pub(super) test: &'a BoolExpr,
    pub(super) env: &'a Env<'a>,
}

impl EndTest for FrontTest<'_> {
    ghost stops = { λ front. front_ends (truth_of front.test.now) front.stage front.env.now };

    fn end_before(&self, item: Item) -> Option<End> {
        match self.test.eval_at(item, self.env) {
            Ok(true) => None,
            Ok(false) => Some(End::Done),
            Err(kind) => Some(End::Fault(Fault {
                kind,
                stage: self.stage,
                origin: Some(item.origin),
            })),
        }
    }
}
