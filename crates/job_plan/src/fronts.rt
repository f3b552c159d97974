//! The tests that ends of segments ask of items, for many values at once.

ghost use Rattle.batch_eval.specs.Batches.{laid_items};
ghost use Rattle.std.specs.Prelude.{◌≡◌, ℕ, None, take};
ghost use Rattle.find_ops.specs.Finds.{find_of, first_decision};
ghost use Rattle.slice_ops.specs.Rests.{IsTested, rest_of};

use batch_eval::{LaneItems, count_passing};
use find_ops::FindTerminal;
use lambda_values::Env;
use slice_ops::SliceRest;

/// How many items, from the first on, decide nothing.
pub(crate) fn undecided(
    find: &FindTerminal,
    env: &Env,
    lanes: LaneItems<'_>,
    room: &mut [i64],
) -> u64
    ensures { (stage : ℕ) → first_decision (find_of find.now) stage env.now (take result
        (laid_items lanes.entry.start lanes.entry.places.now lanes.entry.values.now)) ≡ None }
{
    match find {
        FindTerminal::First => 0,
        FindTerminal::AnyMatch(test) => count_passing(test, false, env, lanes, room) as u64,
        FindTerminal::AllMatch(test) => count_passing(test, true, env, lanes, room) as u64,
        FindTerminal::NoneMatch(test) => count_passing(test, false, env, lanes, room) as u64,
    }
}

/// How many items come before the first one at which the test of a slice isn't true.
pub(crate) fn tested(rest: &SliceRest, env: &Env, lanes: LaneItems<'_>, room: &mut [i64]) -> u64
    ensures { (stage : ℕ) → IsTested (rest_of rest.now) stage env.now
        (laid_items lanes.entry.start lanes.entry.places.now lanes.entry.values.now) result }
{
    match *rest {
        SliceRest::TakeWhile(test) => count_passing(test, true, env, lanes, room) as u64,
        SliceRest::DropWhile(test) => count_passing(test, true, env, lanes, room) as u64,
        SliceRest::Limit(_) | SliceRest::Skip(_) => 0,
    }
}
