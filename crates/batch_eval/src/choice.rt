//! Choices between two operands in a register.

ghost use Rattle.batch_eval.specs.Lanes.{Reaches, at};
ghost use Rattle.batch_eval.specs.Rows.{HasRows};
ghost use Rattle.batch_eval.specs.Rooms.{FitsChosen, FitsParted};
ghost use Rattle.batch_eval.specs.Choices.{at_each, between, by_flag, chosen_value, operand_value};
ghost use Rattle.lambda_values.specs.Term.{truth_of};
ghost use Rattle.lambda_values.specs.Value.{chosen, truth_value};
ghost use Rattle.batch_eval.specs.Batches.{holds};
ghost use Rattle.std.specs.Prelude.{◌≡◌, ◌<◌, ◌≤◌, ℕ, IsTrue, Ok, length};

use crate::cheap::are_cheap;
use crate::choose::{Side, all_flags, gather, merge};
use crate::in_place::lane_test;
use crate::number_test::NumberTest;
use crate::operands::{Step, blend};
use crate::reached::{Reached, all};
use crate::register::{Inputs, LANES, Operand, eval_bool, eval_branch, eval_operand};
use crate::rows::{Rows, gather_rows};
use lambda_values::BoolExpr;

/// The operands that a condition chooses from.
#[derive(Clone, Copy)]
pub(crate) struct Either<'a> {
    pub(crate) chosen: Operand<'a>,
    pub(crate) other: Operand<'a>,
    /// Whether both cost little and can't fault.
    pub(crate) are_cheap: bool,
}

impl<'a> Either<'a> {
    /// A choice between these two operands.
    pub(crate) fn of(chosen: Operand<'a>, other: Operand<'a>) -> Either<'a>
        ensures chosen { result.chosen ≡ chosen.entry }
        ensures other { result.other ≡ other.entry }
    {
        Either {
            chosen,
            other,
            are_cheap: are_cheap(chosen, other),
        }
    }
}

/// Puts what a condition chooses into a register, up to its first fault. Where both operands are cheap and have no
/// fault, they are evaluated at all lanes.
#[cycle(register)]
pub(crate) fn eval_chosen(
    condition: &BoolExpr,
    either: Either<'_>,
    inputs: Inputs<'_, '_>,
    out: &mut [i64],
    room: &mut [i64],
) -> Reached
    requires lanes { inputs.live ≤ 1024 }
    requires xs { inputs.live ≤ length inputs.xs.now }
    requires rows { HasRows inputs.rows inputs.live }
    requires out { inputs.live ≤ length out.old }
    requires room { FitsChosen (truth_of condition.now) either.chosen either.other (length room.old) }
    ensures { Reaches (at_each inputs.entry (λ x env. chosen_value (truth_value (truth_of condition.now) x env)
        (operand_value either.entry.chosen x env) (operand_value either.entry.other x env))) (at out.new)
        inputs.entry.live result }
{
    if eval_tested(condition, either, inputs, out, room) {
        return all(inputs.live);
    }
    let (flags, rest) = room.split_at_mut(LANES);
    let tested = eval_bool(condition, inputs, flags, rest);
    let valid = Inputs {
        live: tested.live,
        ..inputs
    };
    if eval_both(flags, NumberTest::is_set(), either, valid, out, rest) {
        return all(tested.live).after(tested);
    }
    eval_parted(flags, either, valid, out, rest).after(tested)
}

/// Puts what a condition chooses into a register, if the condition compares numbers where they lie with a number, and
/// both operands are cheap and have a value at each lane; else answers false. It writes no flags.
#[cycle(register)]
fn eval_tested(
    condition: &BoolExpr,
    either: Either<'_>,
    inputs: Inputs<'_, '_>,
    out: &mut [i64],
    room: &mut [i64],
) -> bool
    requires lanes { inputs.live ≤ 1024 }
    requires xs { inputs.live ≤ length inputs.xs.now }
    requires rows { HasRows inputs.rows inputs.live }
    requires out { inputs.live ≤ length out.old }
    requires room { FitsChosen (truth_of condition.now) either.chosen either.other (length room.old) }
    ensures { IsTrue result → (k : ℕ) → k < inputs.entry.live
        → chosen_value (at_each inputs.entry (truth_value (truth_of condition.now)) k)
        (at_each inputs.entry (operand_value either.entry.chosen) k)
        (at_each inputs.entry (operand_value either.entry.other) k)
        ≡ Ok (at out.new k) }
{
    if !either.are_cheap {
        return false;
    }
    let Some(test) = lane_test(condition, inputs) else {
        return false;
    };
    let Step::Stay = test.step else {
        return false;
    };
    let (_, rest) = room.split_at_mut(LANES);
    eval_both(test.xs, test.set, either, inputs, out, rest)
}

/// Puts the operand that each flag chooses into a register, up to the first fault. Each operand is evaluated only at
/// the lanes that need it. If all lanes need one operand, it is evaluated where they lie.
#[cycle(register)]
fn eval_parted(
    flags: &[i64],
    either: Either<'_>,
    inputs: Inputs<'_, '_>,
    out: &mut [i64],
    room: &mut [i64],
) -> Reached
    requires lanes { inputs.live ≤ 1024 }
    requires flags { inputs.live ≤ length flags.now }
    requires xs { inputs.live ≤ length inputs.xs.now }
    requires rows { HasRows inputs.rows inputs.live }
    requires out { inputs.live ≤ length out.old }
    requires room { FitsParted either.chosen either.other (length room.old) }
    ensures { Reaches (λ k. by_flag (at flags.now k) (at_each inputs.entry (operand_value either.entry.chosen) k)
        (at_each inputs.entry (operand_value either.entry.other) k)) (at out.new) inputs.entry.live result }
{
    let (items, rest) = room.split_at_mut(LANES);
    let (ones, rest) = rest.split_at_mut(LANES);
    let (others, rest) = rest.split_at_mut(LANES);
    let Inputs { xs, live, rows, .. } = inputs;
    if all_flags(flags, true, live) {
        return eval_operand(either.chosen, inputs, out, rest);
    }
    if all_flags(flags, false, live) {
        return eval_operand(either.other, inputs, out, rest);
    }
    let count = gather(flags, true, live, xs, items);
    gather_rows(either.chosen, flags, true, live, rows, out);
    let moved = Rows::Moved(out);
    let chosen = Inputs {
        xs: items,
        live: count,
        rows: moved,
        ..inputs
    };
    let first = eval_operand(either.chosen, chosen, ones, rest);
    let count = gather(flags, false, live, xs, items);
    gather_rows(either.other, flags, false, live, rows, out);
    let moved = Rows::Moved(out);
    let other = Inputs {
        xs: items,
        live: count,
        rows: moved,
        ..inputs
    };
    let second = eval_operand(either.other, other, others, rest);
    let ones = Side {
        values: ones,
        reached: first,
    };
    let others = Side {
        values: others,
        reached: second,
    };
    merge(flags, live, ones, others, out)
}

/// Puts the operand that a test of a number at each lane chooses into a register, if both operands are cheap and have a
/// value at each lane; else answers false. Both are evaluated at all lanes.
#[cycle(register)]
fn eval_both(
    xs: &[i64],
    set: NumberTest,
    either: Either<'_>,
    inputs: Inputs<'_, '_>,
    out: &mut [i64],
    room: &mut [i64],
) -> bool
    requires lanes { inputs.live ≤ 1024 }
    requires tested { inputs.live ≤ length xs.now }
    requires xs { inputs.live ≤ length inputs.xs.now }
    requires rows { HasRows inputs.rows inputs.live }
    requires out { inputs.live ≤ length out.old }
    requires room { FitsParted either.chosen either.other (length room.old) }
    ensures { IsTrue result → (k : ℕ) → k < inputs.entry.live
        → chosen (holds set (at xs.now k)) (at_each inputs.entry (operand_value either.entry.chosen) k)
        (at_each inputs.entry (operand_value either.entry.other) k) ≡ Ok (at out.new k) }
{
    if !either.are_cheap {
        return false;
    }
    let (ones, rest) = room.split_at_mut(LANES);
    let (others, rest) = rest.split_at_mut(2 * LANES);
    let (one, first) = eval_branch(either.chosen, inputs, ones, rest);
    let (other, second) = eval_branch(either.other, inputs, others, rest);
    blend(xs, set, one, other, inputs.live, out);
    first.live == inputs.live && second.live == inputs.live
}
