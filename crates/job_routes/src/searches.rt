//! A search for the place at which a slice cuts, so that all workers walk the leg after it.
//!
//! A slice that doesn't select positions makes a leg one piece. If it is the only one of a job's first leg, maps and
//! filters come before it, and there are more workers than jobs, another leg looks for the place of the first item at
//! which the test of a `takeWhile` or a `dropWhile` isn't true, or of the first one after a `skip`. The leg itself then
//! goes over the positions before that place, or over those from it on.

ghost use Rattle.std.specs.Prelude.{◌≡◌, ◌≢◌, ◌≤◌, ℕ, suc, [], List, IfNone, IfOk, IfSome, OnOk, true};
ghost use Rattle.lambda_values.specs.Earlier.{Numbers};
ghost use Rattle.lambda_values.specs.Term.{row, truth_of};
ghost use Rattle.trace.specs.Stages.{map, through};
ghost use Rattle.trace.specs.Trace.{Trace};
ghost use Rattle.job_language.specs.Jobs.{AbstractPlainSource};
ghost use Rattle.job_meaning.specs.Walks.{source_walk};
ghost use Rattle.job_routes.specs.Legs.{leg_in, leg_outcome, number_after, outcome_of, searched, segment_in};
ghost use Rattle.job_routes.specs.Legs.{walk_through};
ghost use Rattle.job_routes.specs.Searches.{Finds, HasOneSlice, IsReady, IsSearched, failing};
ghost use Rattle.job_routes.specs.declared.route.PlaceSide.TheVariants as side;
ghost use Rattle.slice_ops.specs.Slices.{drop_while, limit, skip, skipped, slice_of, take_while};

use crate::copies::truth_copy;
use crate::ends::SegmentEnd;
use crate::leg::{Leg, Link};
use crate::numbered_stages::NumberedStages;
use crate::route::PlaceSide;
use crate::segment::Segment;
use batch_eval::are_faultless;
use find_ops::FindTerminal;
use lambda_values::{BoolExpr, LongExpr};
use prefix_walks::Window;
use slice_ops::Slice;
use std::alloc::Global;
use std::mem;
use trace::{NoMemory, Stage};

/// Whether a search gains where workers share it. Since the positions before the end of a `takeWhile` are walked again,
/// nothing behind it may end the walk earlier.
fn gains(slice: &Slice, later: &Segment) -> bool
    ensures { result ≡ true → (k : ℕ) → slice_of slice.now ≢ limit k }
{
    match slice {
        Slice::Limit(_) => false,
        Slice::Skip(_) | Slice::DropWhile(_) => true,
        Slice::TakeWhile(_) => later.end.takes_all() && are_faultless(&later.stages.list),
    }
}

/// Whether the walk of a leg goes through one slice, for which a search gains.
fn has_one_slice(leg: &Leg) -> bool
    ensures { result ≡ true → HasOneSlice leg.now }
{
    let Some((link, later)) = leg.links.split_first() else {
        return false;
    };
    if !later.is_empty() {
        return false;
    }
    let number = link.stages.next();
    if number >= 32 || leg.last.stages.first != number + 1 {
        return false;
    }
    gains(&link.slice, &leg.last)
}

/// The leg that looks for the first item at which a test isn't true.
fn test_search(
    alloc: Global,
    window: Window,
    stages: NumberedStages,
    test: BoolExpr,
) -> Result<Leg, NoMemory>
    requires few { number_after stages ≤ 31 }
    ensures finds { IfOk result (Finds window stages (failing stages (truth_of test))) }
    ensures walk { IfOk result (λ leg. (env : Numbers) (t : Trace) → walk_through leg.last.stages env t
        ≡ through (suc (number_after stages)) (map row) env (failing stages (truth_of test) env
        (walk_through stages env t))) }
{
    let mut sought = stages;
    let opposite = BoolExpr::Not(Box::new(alloc, test)?);
    sought.push(Stage::Filter(opposite))?;
    sought.push(Stage::Map(LongExpr::Row))?;
    let end = SegmentEnd::Find(FindTerminal::First);
    let last = Segment {
        stages: sought,
        end,
    };
    let links = Vec::new(alloc);
    Ok(Leg {
        window,
        links,
        last,
    })
}

/// The leg that looks for the first item after a `skip`.
fn skip_search(
    alloc: Global,
    window: Window,
    stages: NumberedStages,
    count: u64,
) -> Result<Leg, NoMemory>
    requires few { number_after stages ≤ 31 }
    ensures { IfOk result (Finds window stages (λ env t. skipped count t)) }
{
    let mut sought = NumberedStages::none(alloc, stages.next() + 1);
    sought.push(Stage::Map(LongExpr::Row))?;
    let mut links = Vec::new(alloc);
    let slice = Slice::Skip(count);
    links.push(Link { stages, slice })?;
    let end = SegmentEnd::Find(FindTerminal::First);
    let last = Segment {
        stages: sought,
        end,
    };
    Ok(Leg {
        window,
        links,
        last,
    })
}

/// Has a leg go over what a search leaves, through these stages and then through its last ones.
fn go_on(leg: &mut Leg, stages: NumberedStages) -> Result<(), NoMemory>
    requires next { leg.old.last.stages.first ≡ number_after stages }
    requires none { leg.old.links.items ≡ [] }
    ensures { OnOk result ((env : Numbers) (t : Trace) → leg_outcome (leg_in leg.new) env t
        ≡ outcome_of (segment_in leg.old.last) env (walk_through stages env t)) }
{
    leg.window = Window::all();
    let later = mem::replace(&mut leg.last.stages, stages);
    leg.last.stages.append(later)
}

/// Looks for the end of a `takeWhile`. If the test may have a fault, it stays in the leg as a filter: it is true before
/// that place.
fn before_test(
    alloc: Global,
    leg: &mut Leg,
    stages: NumberedStages,
    copy: NumberedStages,
    test: BoolExpr,
) -> Result<Leg, NoMemory>
    requires ready { IsReady leg.old stages copy }
    ensures { IfOk result (IsSearched side.Before (take_while (truth_of test)) stages leg.old leg.new) }
{
    let same = truth_copy(alloc, &test)?;
    let search = test_search(alloc, leg.window, copy, same)?;
    let mut through = stages;
    if are_faultless(&search.last.stages.list) {
        through.pass_over()?;
        go_on(leg, through)?;
        return Ok(search);
    }
    through.push(Stage::Filter(test))?;
    go_on(leg, through)?;
    Ok(search)
}

/// Looks for the first item that a `dropWhile` leaves.
fn from_test(
    alloc: Global,
    leg: &mut Leg,
    stages: NumberedStages,
    copy: NumberedStages,
    test: BoolExpr,
) -> Result<Leg, NoMemory>
    requires ready { IsReady leg.old stages copy }
    ensures { IfOk result (IsSearched side.From (drop_while (truth_of test)) stages leg.old leg.new) }
{
    let search = test_search(alloc, leg.window, copy, test)?;
    let mut through = stages;
    through.pass_over()?;
    go_on(leg, through)?;
    Ok(search)
}

/// Looks for the first item that a `skip` leaves.
fn after_skip(
    alloc: Global,
    leg: &mut Leg,
    stages: NumberedStages,
    copy: NumberedStages,
    count: u64,
) -> Result<Leg, NoMemory>
    requires ready { IsReady leg.old stages copy }
    ensures { IfOk result (IsSearched side.From (skip count) stages leg.old leg.new) }
{
    let search = skip_search(alloc, leg.window, copy, count)?;
    let mut through = stages;
    through.pass_over()?;
    go_on(leg, through)?;
    Ok(search)
}

/// The search that takes the place of this link, which was the only one of this leg.
fn search_of(
    alloc: Global,
    leg: &mut Leg,
    link: Link,
    copy: NumberedStages,
) -> Result<(Leg, PlaceSide), NoMemory>
    requires ready { IsReady leg.old link.stages copy }
    requires other { (k : ℕ) → slice_of link.slice ≢ limit k }
    ensures { IfOk result (λ found. IsSearched found.1 (slice_of link.slice) link.stages leg.old leg.new found.0) }
{
    let Link { stages, slice } = link;
    match slice {
        Slice::TakeWhile(test) => Ok((
            before_test(alloc, leg, stages, copy, test)?,
            PlaceSide::Before,
        )),
        Slice::DropWhile(test) => Ok((from_test(alloc, leg, stages, copy, test)?, PlaceSide::From)),
        Slice::Skip(count) => Ok((
            after_skip(alloc, leg, stages, copy, count)?,
            PlaceSide::From,
        )),
        Slice::Limit(_) => unreachable!(),
    }
}

/// The search that takes the place of the slice of this leg, if it gains by one.
pub(crate) fn search_for(alloc: Global, leg: &mut Leg) -> Result<Option<(Leg, PlaceSide)>, NoMemory>
    ensures some { IfOk result (λ found. IfSome found (λ f. (env : Numbers) (ss : List AbstractPlainSource)
        → leg_outcome (leg_in leg.new) env (searched f.1 (leg_in f.0) env (source_walk ss))
        ≡ leg_outcome (leg_in leg.old) env (source_walk ss))) }
    ensures none { IfOk result (λ found. IfNone found (leg.new ≡ leg.old)) }
{
    if !has_one_slice(leg) {
        return Ok(None);
    }
    let Some(copy) = leg.links[0].stages.copy(alloc)? else {
        return Ok(None);
    };
    let Some(link) = leg.links.pop() else {
        unreachable!();
    };
    Ok(Some(search_of(alloc, leg, link, copy)?))
}
