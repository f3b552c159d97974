//! How many values pass a test, from the first one on.

ghost use Rattle.batch_eval.specs.Batches.{item_at};
ghost use Rattle.batch_eval.specs.Choices.{at_each};
ghost use Rattle.batch_eval.specs.Lanes.{at, is_set as is_set_flag};
ghost use Rattle.lambda_values.specs.Term.{truth_of};
ghost use Rattle.lambda_values.specs.Value.{truth_value};
ghost use Rattle.batch_eval.specs.Rooms.{FitsTest};
ghost use Rattle.batch_eval.specs.Rows.{HasRows};
ghost use Rattle.std.specs.Prelude.{◌≡◌, ◌≢◌, ◌<◌, ◌≤◌, ℕ, IsTrue, Ok, length};

use crate::batch::origin_of;
use crate::choose::all_flags;
use crate::flag::is_set;
use crate::lane_items::LaneItems;
use crate::operands::steps_pass;
use crate::register::{Inputs, LANES, eval_bool, eval_held};
use crate::room::test_fits;
use crate::rows::Rows;
use crate::step::{compared_with, last_step};
use lambda_values::{BoolExpr, Env};
use trace::Item;

/// How many values come before the first one at which the test isn't `wanted`, or faults.
///
/// Up to 1,024 values are tested at once, by one loop per operator, if the room is enough for the test and a register
/// more; else one by one. It takes no memory.
pub fn count_passing(
    test: &BoolExpr,
    wanted: bool,
    env: &Env,
    lanes: LaneItems<'_>,
    room: &mut [i64],
) -> usize
    ensures within { result ≤ length lanes.entry.values.now }
    ensures passed { (k : ℕ) → k < result → truth_value (truth_of test.now)
        (item_at lanes.entry.start lanes.entry.places.now lanes.entry.values.now k) env.now ≡ Ok wanted }
    ensures stop { result < length lanes.entry.values.now → truth_value (truth_of test.now)
        (item_at lanes.entry.start lanes.entry.places.now lanes.entry.values.now result) env.now ≢ Ok wanted }
{
    let live = lanes.values.len();
    if live > LANES || room.len() < LANES || !test_fits(test, room.len() - LANES) {
        return count_one_by_one(test, wanted, env, lanes);
    }
    let (flags, rest) = room.split_at_mut(LANES);
    let inputs = Inputs {
        env,
        xs: lanes.values,
        live,
        rows: Rows::of(lanes.start, lanes.places),
    };
    count_in_registers(test, wanted, inputs, flags, rest)
}

/// The same, by one loop per operator.
fn count_in_registers(
    test: &BoolExpr,
    wanted: bool,
    inputs: Inputs<'_, '_>,
    flags: &mut [i64],
    room: &mut [i64],
) -> usize
    requires lanes { inputs.live ≤ 1024 }
    requires xs { inputs.live ≤ length inputs.xs.now }
    requires rows { HasRows inputs.rows inputs.live }
    requires flags { inputs.live ≤ length flags.old }
    requires room { FitsTest (truth_of test.now) (length room.old) }
    ensures within { result ≤ inputs.entry.live }
    ensures passed { (k : ℕ) → k < result → at_each inputs.entry (truth_value (truth_of test.now)) k ≡ Ok wanted }
    ensures stop { result < inputs.entry.live
        → at_each inputs.entry (truth_value (truth_of test.now)) result ≢ Ok wanted }
{
    if all_pass(test, wanted, inputs, flags, room) {
        return inputs.live;
    }
    let reached = eval_bool(test, inputs, flags, room);
    count_flags(flags, wanted, reached.live)
}

/// Whether a test is a comparison with a number, and as it is wanted at each of the values. One loop does the last step
/// of what is compared, and compares; no flag is written.
fn all_pass(
    test: &BoolExpr,
    wanted: bool,
    inputs: Inputs<'_, '_>,
    register: &mut [i64],
    room: &mut [i64],
) -> bool
    requires lanes { inputs.live ≤ 1024 }
    requires xs { inputs.live ≤ length inputs.xs.now }
    requires rows { HasRows inputs.rows inputs.live }
    requires register { inputs.live ≤ length register.old }
    requires room { FitsTest (truth_of test.now) (length room.old) }
    ensures { IsTrue result → (k : ℕ) → k < inputs.entry.live
        → at_each inputs.entry (truth_value (truth_of test.now)) k ≡ Ok wanted }
{
    let Some((left, test)) = compared_with(test, inputs.env) else {
        return false;
    };
    let last = last_step(left, inputs.env);
    let (held, reached) = eval_held(last.of, inputs, register, room);
    if reached.live < inputs.live {
        return false;
    }
    steps_pass(
        held.register(register),
        last.step,
        test,
        wanted,
        inputs.live,
    )
}

/// How many values come before the first one at which the test isn't `wanted`, or faults, by a walk over the tree of
/// the test for each value.
fn count_one_by_one(test: &BoolExpr, wanted: bool, env: &Env, lanes: LaneItems<'_>) -> usize
    ensures within { result ≤ length lanes.entry.values.now }
    ensures passed { (k : ℕ) → k < result → truth_value (truth_of test.now)
        (item_at lanes.entry.start lanes.entry.places.now lanes.entry.values.now k) env.now ≡ Ok wanted }
    ensures stop { result < length lanes.entry.values.now → truth_value (truth_of test.now)
        (item_at lanes.entry.start lanes.entry.places.now lanes.entry.values.now result) env.now ≢ Ok wanted }
{
    for position in 0..lanes.values.len() {
        if test.eval_at(item_in(lanes, position), env) != Ok(wanted) {
            return position;
        }
    }
    lanes.values.len()
}

/// The item of a lane.
fn item_in(lanes: LaneItems<'_>, lane: usize) -> Item
    requires { lane < length lanes.values.now }
    ensures { result ≡ item_at lanes.entry.start lanes.entry.places.now lanes.entry.values.now lane }
{
    Item {
        origin: origin_of(lanes.start, lanes.places, lane),
        value: lanes.values[lane],
    }
}

/// How many of the first `live` flags come before the first one that is not as it is wanted. Mostly all are, which a
/// loop without a branch finds out.
fn count_flags(flags: &[i64], wanted: bool, live: usize) -> usize
    requires { live ≤ length flags.now }
    ensures within { result ≤ live }
    ensures passed { (k : ℕ) → k < result → is_set_flag (at flags.now k) ≡ wanted }
    ensures stop { result < live → is_set_flag (at flags.now result) ≢ wanted }
{
    if all_flags(flags, wanted, live) {
        return live;
    }
    for lane in 0..live {
        if is_set(flags[lane]) != wanted {
            return lane;
        }
    }
    live
}
