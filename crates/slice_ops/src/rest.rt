//! What slices do with a walk that comes in parts, one after the other.

ghost use Rattle.std.specs.Prelude.{◌≡◌, ◌≤◌, ◌-◌, ℕ, [], true, length, take, drop};
ghost use Rattle.lambda_values.specs.Earlier.{Numbers};
ghost use Rattle.lambda_values.specs.Term.{truth_of};
ghost use Rattle.trace.specs.Stops.{stop_at};
ghost use Rattle.trace.specs.Trace.{Trace, append, nothing, trace};
ghost use Rattle.trace.specs.declared.item.End.TheVariants as end;
ghost use Rattle.slice_ops.specs.Rests.{IsTested, before_stop, rest_of, stop_after};
ghost use Rattle.slice_ops.specs.Slices.{dropped, front_ends, slice_of, sliced, taken};

use crate::shorten::FrontTest;
use crate::slice_part::Slice;
use lambda_values::{BoolExpr, Env};
use trace::{End, EndTest, SourceItems};

/// What a slice does with the items to come, after the ones that went through it.
#[derive(Clone, Copy)]
pub enum SliceRest<'a> {
    /// This number of items passes, then none.
    Limit(u64),
    /// This number of items is dropped, then all pass.
    Skip(u64),
    /// Items pass up to the first one at which the test isn't true.
    TakeWhile(&'a BoolExpr),
    /// Items are dropped up to the first one at which the test isn't true.
    DropWhile(&'a BoolExpr),
}

/// What a slice makes of items after which the walk goes on.
#[derive(Clone, Copy)]
pub struct SliceCut<'a> {
    /// The position of the first item that passes, and that after the last one.
    pub from: u64,
    pub to: u64,
    /// `Done`, or the fault of the slice's test that ends the walk after them.
    pub end: End,
    /// What the slice does with what comes after all of the items.
    pub rest: SliceRest<'a>,
}

impl<'a> SliceRest<'a> {
    /// Of a slice that no item went through.
    pub fn of(slice: &'a Slice) -> SliceRest<'a>
        ensures { rest_of result ≡ slice_of slice.now }
    {
        match slice {
            Slice::Limit(n) => SliceRest::Limit(*n),
            Slice::Skip(n) => SliceRest::Skip(*n),
            Slice::TakeWhile(test) => SliceRest::TakeWhile(test),
            Slice::DropWhile(test) => SliceRest::DropWhile(test),
        }
    }

    /// What the slice makes of the items of a source. Of `takeWhile` and `dropWhile`, `front` is how many of them come
    /// before the first one at which the test isn't true; the test is evaluated at that one alone. It takes no memory.
    ///
    /// The slice is the stage with this number.
    pub fn cut<I: SourceItems>(self, stage: u32, env: &Env, source: &I, front: u64) -> SliceCut<'a>
        requires front { IsTested (rest_of self) stage env.now (I.items source.now) front }
        ensures ordered { result.from ≤ result.to }
        ensures within { result.to ≤ length (I.items source.now) }
        ensures passes { (later : Trace)
            → sliced (rest_of self.entry) stage env.now (append (trace (I.items source.now) end.Done) later)
            ≡ append (trace (take (result.to - result.from) (drop result.from (I.items source.now))) result.end)
            (sliced (rest_of result.rest) stage env.now later) }
    {
        let count = source.count();
        match self {
            SliceRest::Limit(n) => SliceCut {
                from: 0,
                to: n.min(count),
                end: End::Done,
                rest: SliceRest::Limit(n.saturating_sub(count)),
            },
            SliceRest::Skip(n) => SliceCut {
                from: n.min(count),
                to: count,
                end: End::Done,
                rest: SliceRest::Skip(n.saturating_sub(count)),
            },
            SliceRest::TakeWhile(test) => cut_after(test, stage, env, source, front),
            SliceRest::DropWhile(test) => cut_before(test, stage, env, source, front),
        }
    }

    /// How a walk ends after the slice, if it ends as said with no further item.
    pub fn end_after(&self, end: End) -> End
        ensures { (stage : ℕ) (env : Numbers) → sliced (rest_of self.now) stage env (trace [] end) ≡ trace [] result }
    {
        match *self {
            SliceRest::Limit(0) => End::Done,
            SliceRest::Limit(_) => end,
            SliceRest::Skip(_) => end,
            SliceRest::TakeWhile(_) => end,
            SliceRest::DropWhile(_) => end,
        }
    }

    /// The test that the slice asks of the next items, if it asks one.
    pub fn test(&self) -> Option<&'a BoolExpr> {
        match *self {
            SliceRest::TakeWhile(test) => Some(test),
            SliceRest::DropWhile(test) => Some(test),
            SliceRest::Limit(_) | SliceRest::Skip(_) => None,
        }
    }

    /// Whether no item passes any more: then nothing that comes matters, not even a fault.
    pub fn is_closed(&self) -> bool
        ensures { result ≡ true → (stage : ℕ) (env : Numbers) (later : Trace)
            → sliced (rest_of self.now) stage env later ≡ nothing }
    {
        matches!(self, SliceRest::Limit(0))
    }
}

/// What a `takeWhile` that goes on makes of the items of a source: it lets the front pass.
fn cut_after<'a, I: SourceItems>(
    test: &'a BoolExpr,
    stage: u32,
    env: &Env,
    source: &I,
    front: u64,
) -> SliceCut<'a>
    requires front { front ≡ before_stop (stop_at (front_ends (truth_of test.now) stage env.now) (I.items source.now))
        (I.items source.now) }
    ensures ordered { result.from ≤ result.to }
    ensures within { result.to ≤ length (I.items source.now) }
    ensures passes { (later : Trace)
        → taken (truth_of test.now) stage env.now (append (trace (I.items source.now) end.Done) later)
        ≡ append (trace (take (result.to - result.from) (drop result.from (I.items source.now))) result.end)
        (sliced (rest_of result.rest) stage env.now later) }
{
    match stop_in(test, stage, env, source, front) {
        Some(end) => SliceCut {
            from: 0,
            to: front,
            end,
            rest: SliceRest::Limit(0),
        },
        None => SliceCut {
            from: 0,
            to: source.count(),
            end: End::Done,
            rest: SliceRest::TakeWhile(test),
        },
    }
}

/// What a `dropWhile` that goes on makes of the items of a source: it drops the front.
fn cut_before<'a, I: SourceItems>(
    test: &'a BoolExpr,
    stage: u32,
    env: &Env,
    source: &I,
    front: u64,
) -> SliceCut<'a>
    requires front { front ≡ before_stop (stop_at (front_ends (truth_of test.now) stage env.now) (I.items source.now))
        (I.items source.now) }
    ensures ordered { result.from ≤ result.to }
    ensures within { result.to ≤ length (I.items source.now) }
    ensures passes { (later : Trace)
        → dropped (truth_of test.now) stage env.now (append (trace (I.items source.now) end.Done) later)
        ≡ append (trace (take (result.to - result.from) (drop result.from (I.items source.now))) result.end)
        (sliced (rest_of result.rest) stage env.now later) }
{
    let count = source.count();
    match stop_in(test, stage, env, source, front) {
        Some(End::Done) => SliceCut {
            from: front,
            to: count,
            end: End::Done,
            rest: SliceRest::Skip(0),
        },
        Some(End::Fault(fault)) => SliceCut {
            from: front,
            to: front,
            end: End::Fault(fault),
            rest: SliceRest::DropWhile(test),
        },
        None => SliceCut {
            from: count,
            to: count,
            end: End::Done,
            rest: SliceRest::DropWhile(test),
        },
    }
}

/// How the front of a source's items ends, if `front` items come before its end: `None` if the front is all of them.
fn stop_in<I: SourceItems>(
    test: &BoolExpr,
    stage: u32,
    env: &Env,
    source: &I,
    front: u64,
) -> Option<End>
    requires front { front ≡ before_stop (stop_at (front_ends (truth_of test.now) stage env.now) (I.items source.now))
        (I.items source.now) }
    ensures { stop_at (front_ends (truth_of test.now) stage env.now) (I.items source.now) ≡ stop_after front result }
{
    if front == source.count() {
        return None;
    }
    let first = FrontTest { stage, test, env };
    first.end_before(source.item_at(front))
}
