//! The values of an expression at the lanes of a batch: one loop per operator of the expression.

ghost use Rattle.batch_eval.specs.Batches.{holds};
ghost use Rattle.batch_eval.specs.Lanes.{HasBranch, HasHeld, Reaches, at, branch_at, flag_of, flagged, held_at};
ghost use Rattle.batch_eval.specs.Lanes.{infix_value};
ghost use Rattle.batch_eval.specs.Rooms.{Fits, FitsBoth, FitsOperand, FitsTest};
ghost use Rattle.batch_eval.specs.Rows.{HasRows};
ghost use Rattle.batch_eval.specs.Choices.{at_each, between, operand_value};
ghost use Rattle.lambda_values.specs.Operators.{on};
ghost use Rattle.lambda_values.specs.Term.{compare, connect as abstract_connect, long_of, truth_of};
ghost use Rattle.lambda_values.specs.Value.{long_value, truth_value};
ghost use Rattle.std.specs.Prelude.{◌≡◌, ◌≤◌, Ok, length};

use crate::choice::{Either, eval_chosen};
use crate::constant::number_in;
use crate::dispatch::{by_infix, has_shorter_way};
use crate::flag::flag;
use crate::in_place::{eval_cells, lane_test, numbers_in_place};
use crate::kernel::{Equal, First, Infix};
use crate::lanes::{Number, Own, Register};
use crate::loops::run;
use crate::number_test::NumberTest;
use crate::operands::{Beside, Branch, Held, Step, connect, fill, flag_held};
use crate::reached::{Reached, all};
use crate::rows::{Rows, number_rows};
use crate::step::{comparison_of, last_step, may_be_masked, no_step, with_number};
use lambda_values::{BoolExpr, BoolPair, Comparison, Connective, Env, LongExpr, LongPair};

/// The most lanes of a batch, and the length of a register.
pub(crate) const LANES: usize = 1024;

/// What a condition chooses from.
#[derive(Clone, Copy)]
pub(crate) enum Operand<'a> {
    Long(&'a LongExpr),
    Bool(&'a BoolExpr),
    Flag(bool),
}

/// What an expression is evaluated at: the first `live` of these numbers, which came from these rows, with the values
/// of the names that it uses.
#[derive(Clone, Copy)]
pub(crate) struct Inputs<'a, 'r> {
    pub(crate) env: &'a Env<'a>,
    pub(crate) xs: &'a [i64],
    pub(crate) live: usize,
    pub(crate) rows: Rows<'r>,
}

/// Puts the values of an expression into a register, up to its first fault. It takes no memory.
#[cycle(register)]
pub(crate) fn eval_long(
    expr: &LongExpr,
    inputs: Inputs<'_, '_>,
    out: &mut [i64],
    room: &mut [i64],
) -> Reached
    requires lanes { inputs.live ≤ 1024 }
    requires xs { inputs.live ≤ length inputs.xs.now }
    requires rows { HasRows inputs.rows inputs.live }
    requires out { inputs.live ≤ length out.old }
    requires room { Fits (long_of expr.now) (length room.old) }
    ensures { Reaches (at_each inputs.entry (long_value (long_of expr.now))) (at out.new) inputs.entry.live result }
{
    match expr {
        LongExpr::Number(number) => fill(*number, inputs.live, out),
        LongExpr::Parameter(_) => run::<First, _, _>(
            Register(inputs.xs),
            Number(0),
            inputs.live,
            out,
        ),
        LongExpr::Reference(name) => {
            let number = inputs.env.number(name.as_slice()).unwrap_or(0);
            fill(number, inputs.live, out)
        }
        LongExpr::Cell(name) => eval_cells(name.as_slice(), inputs, out),
        LongExpr::Row => number_rows(inputs.rows, inputs.live, out),
        LongExpr::Unary(operator, operand) => {
            eval_before_number(Infix::Alone(*operator), operand, 0, inputs, out, room)
        }
        LongExpr::Binary(operator, pair) => {
            eval_between(Infix::Compute(*operator), pair, inputs, out, room)
        }
        LongExpr::Choose(choice) => {
            let either = Either::of(Operand::Long(&choice.chosen), Operand::Long(&choice.other));
            eval_chosen(&choice.condition, either, inputs, out, room)
        }
    }
}

/// Puts the booleans of a test into a register as flags, up to its first fault.
#[cycle(register)]
#[tactic(auto, using(crate::proofs::FlagLemmas::flagged_opposite, crate::proofs::FlagLemmas::flagged_chosen))]
pub(crate) fn eval_bool(
    test: &BoolExpr,
    inputs: Inputs<'_, '_>,
    out: &mut [i64],
    room: &mut [i64],
) -> Reached
    requires lanes { inputs.live ≤ 1024 }
    requires xs { inputs.live ≤ length inputs.xs.now }
    requires rows { HasRows inputs.rows inputs.live }
    requires out { inputs.live ≤ length out.old }
    requires room { FitsTest (truth_of test.now) (length room.old) }
    ensures { Reaches (at_each inputs.entry (λ x env. flagged (truth_value (truth_of test.now) x env)))
        (at out.new) inputs.entry.live result }
{
    match test {
        BoolExpr::Literal(value) => fill(flag(*value), inputs.live, out),
        BoolExpr::Compare(comparison, pair) => {
            eval_compared(*comparison, pair, inputs, out, room)
        }
        BoolExpr::Not(operand) => {
            if let Some((comparison, pair)) = comparison_of(test) {
                return eval_compared(comparison, pair, inputs, out, room);
            }
            let first = eval_bool(operand, inputs, out, room);
            run::<Equal, Own, Number>(Own, Number(0), first.live, out).after(first)
        }
        BoolExpr::Connect(connective, pair) => {
            eval_connected(*connective, pair, inputs, out, room)
        }
        BoolExpr::Choose(choice) => {
            let either = Either::of(Operand::Bool(&choice.chosen), Operand::Bool(&choice.other));
            eval_chosen(&choice.condition, either, inputs, out, room)
        }
    }
}

/// Puts the booleans of a comparison into a register as flags, up to its first fault. If it is with a number, and sees
/// not all of the other operand, the loop that writes flags also takes what it sees.
#[cycle(register)]
#[inline(always)]
#[tactic(auto, using(crate::proofs::FlagLemmas::flagged_between))]
fn eval_compared(
    comparison: Comparison,
    pair: &LongPair,
    inputs: Inputs<'_, '_>,
    out: &mut [i64],
    room: &mut [i64],
) -> Reached
    requires lanes { inputs.live ≤ 1024 }
    requires xs { inputs.live ≤ length inputs.xs.now }
    requires rows { HasRows inputs.rows inputs.live }
    requires out { inputs.live ≤ length out.old }
    requires room { FitsBoth (long_of pair.now.left) (long_of pair.now.right) (length room.old) }
    ensures { Reaches (at_each inputs.entry (λ x env. flagged (truth_value
        (compare comparison (long_of pair.now.left) (long_of pair.now.right)) x env)))
        (at out.new) inputs.entry.live result }
{
    if may_be_masked(&pair.left) {
        match with_number(comparison, pair, inputs.env) {
            Some((left, set)) if !set.sees_all() => {
                return eval_flags(left, set, inputs, out, room);
            }
            _ => {}
        }
    }
    eval_between(Infix::Compare(comparison), pair, inputs, out, room)
}

/// Puts the booleans of two connected tests into a register as flags, up to the first fault. If the right one compares
/// numbers as they lie with a number, one loop compares them and connects.
#[cycle(register)]
#[tactic(auto, using(crate::proofs::FlagLemmas::flagged_chosen))]
fn eval_connected(
    connective: Connective,
    pair: &BoolPair,
    inputs: Inputs<'_, '_>,
    out: &mut [i64],
    room: &mut [i64],
) -> Reached
    requires lanes { inputs.live ≤ 1024 }
    requires xs { inputs.live ≤ length inputs.xs.now }
    requires rows { HasRows inputs.rows inputs.live }
    requires out { inputs.live ≤ length out.old }
    requires room { FitsTest (abstract_connect connective (truth_of pair.now.left) (truth_of pair.now.right))
        (length room.old) }
    ensures { Reaches (at_each inputs.entry (λ x env. flagged (truth_value
        (abstract_connect connective (truth_of pair.now.left) (truth_of pair.now.right)) x env)))
        (at out.new) inputs.entry.live result }
{
    if let Some(right) = lane_test(&pair.right, inputs) {
        let (_, rest) = room.split_at_mut(LANES);
        let first = eval_bool(&pair.left, inputs, out, rest);
        return connect(connective, right, first.live, out).after(first);
    }
    let right = Operand::Bool(&pair.right);
    match connective {
        Connective::And => {
            eval_chosen(
                &pair.left,
                Either::of(right, Operand::Flag(false)),
                inputs,
                out,
                room,
            )
        }
        Connective::Or => {
            eval_chosen(
                &pair.left,
                Either::of(Operand::Flag(true), right),
                inputs,
                out,
                room,
            )
        }
    }
}

/// What a test says of an expression, as flags, up to its first fault.
#[cycle(register)]
fn eval_flags(
    expr: &LongExpr,
    set: NumberTest,
    inputs: Inputs<'_, '_>,
    out: &mut [i64],
    room: &mut [i64],
) -> Reached
    requires lanes { inputs.live ≤ 1024 }
    requires xs { inputs.live ≤ length inputs.xs.now }
    requires rows { HasRows inputs.rows inputs.live }
    requires out { inputs.live ≤ length out.old }
    requires room { Fits (long_of expr.now) (length room.old) }
    ensures { Reaches (at_each inputs.entry (λ x env. on (long_value (long_of expr.now) x env)
        (λ v. Ok (flag_of (holds set v))))) (at out.new) inputs.entry.live result }
{
    let last = last_step(expr, inputs.env);
    let (held, first) = eval_held(last.of, inputs, out, room);
    flag_held(held, last.step, set, first.live, out).after(first)
}

/// What a condition may choose, in a register.
#[cycle(register)]
pub(crate) fn eval_operand(
    operand: Operand<'_>,
    inputs: Inputs<'_, '_>,
    out: &mut [i64],
    room: &mut [i64],
) -> Reached
    requires lanes { inputs.live ≤ 1024 }
    requires xs { inputs.live ≤ length inputs.xs.now }
    requires rows { HasRows inputs.rows inputs.live }
    requires out { inputs.live ≤ length out.old }
    requires room { FitsOperand operand (length room.old) }
    ensures { Reaches (at_each inputs.entry (operand_value operand.entry)) (at out.new) inputs.entry.live result }
{
    match operand {
        Operand::Long(expr) => eval_long(expr, inputs, out, room),
        Operand::Bool(test) => eval_bool(test, inputs, out, room),
        Operand::Flag(value) => fill(flag(value), inputs.live, out),
    }
}

/// What a condition may choose, without its last operator in a register, if that one may be a step.
#[cycle(register)]
pub(crate) fn eval_branch<'a>(
    operand: Operand<'_>,
    inputs: Inputs<'a, '_>,
    register: &'a mut [i64],
    room: &mut [i64],
) -> (Branch<'a>, Reached)
    requires lanes { inputs.live ≤ 1024 }
    requires xs { inputs.live ≤ length inputs.xs.now }
    requires rows { HasRows inputs.rows inputs.live }
    requires register { inputs.live ≤ length register.old }
    requires room { FitsOperand operand (length room.old) }
    ensures branch { HasBranch result.0 inputs.entry.live }
    ensures reached { Reaches (at_each inputs.entry (operand_value operand.entry))
        (branch_at result.0) inputs.entry.live result.1 }
{
    match operand {
        Operand::Long(expr) => {
            if let Some(number) = number_in(expr, inputs.env) {
                return (Branch::Number(number), all(inputs.live));
            }
            let last = last_step(expr, inputs.env);
            if let LongExpr::Parameter(_) = last.of {
                return (Branch::Register(inputs.xs, last.step), all(inputs.live));
            }
            let reached = eval_long(last.of, inputs, register, room);
            (Branch::Register(register, last.step), reached)
        }
        Operand::Bool(test) => {
            let reached = eval_bool(test, inputs, register, room);
            (Branch::Register(register, Step::Stay), reached)
        }
        Operand::Flag(value) => (Branch::Number(flag(value)), all(inputs.live)),
    }
}

/// Two operands from left to right, and an operator between them.
#[cycle(register)]
pub(crate) fn eval_between(
    op: Infix,
    pair: &LongPair,
    inputs: Inputs<'_, '_>,
    out: &mut [i64],
    room: &mut [i64],
) -> Reached
    requires lanes { inputs.live ≤ 1024 }
    requires xs { inputs.live ≤ length inputs.xs.now }
    requires rows { HasRows inputs.rows inputs.live }
    requires out { inputs.live ≤ length out.old }
    requires room { FitsBoth (long_of pair.now.left) (long_of pair.now.right) (length room.old) }
    ensures { Reaches (at_each inputs.entry (λ x env. between (infix_value op)
        (long_value (long_of pair.now.left) x env) (long_value (long_of pair.now.right) x env)))
        (at out.new) inputs.entry.live result }
{
    let LongPair { left: a, right: b } = pair;
    if let Some(y) = number_in(b, inputs.env) {
        return eval_before_number(op, a, y, inputs, out, room);
    }
    if let Some(x) = number_in(a, inputs.env) {
        let (_, rest) = room.split_at_mut(LANES);
        let (held, first) = eval_held(b, inputs, out, rest);
        return by_infix(op, held, Beside::NumberFirst(x), first.live, out).after(first);
    }
    let (held, first) = eval_held(a, inputs, out, room);
    let last = last_step(b, inputs.env);
    if let Some(ys) = numbers_in_place(last.of, inputs) {
        let beside = Beside::Register(ys, last.step);
        return by_infix(op, held, beside, first.live, out).after(first);
    }
    let valid = Inputs {
        live: first.live,
        ..inputs
    };
    let (ys, rest) = room.split_at_mut(LANES);
    let second = eval_long(last.of, valid, ys, rest);
    let beside = Beside::Register(ys, last.step);
    let third = by_infix(op, held, beside, second.live, out);
    third.after(second).after(first)
}

/// An operand and a number on its right, and an operator between them; or on the operand alone.
#[cycle(register)]
fn eval_before_number(
    op: Infix,
    a: &LongExpr,
    y: i64,
    inputs: Inputs<'_, '_>,
    out: &mut [i64],
    room: &mut [i64],
) -> Reached
    requires lanes { inputs.live ≤ 1024 }
    requires xs { inputs.live ≤ length inputs.xs.now }
    requires rows { HasRows inputs.rows inputs.live }
    requires out { inputs.live ≤ length out.old }
    requires room { Fits (long_of a.now) (length room.old) }
    ensures { Reaches (at_each inputs.entry (λ x env. on (long_value (long_of a.now) x env) (λ v. infix_value op v y)))
        (at out.new) inputs.entry.live result }
{
    let last = if has_shorter_way(op) {
        no_step(a)
    } else {
        last_step(a, inputs.env)
    };
    let (held, first) = eval_held(last.of, inputs, out, room);
    let beside = Beside::Number(last.step, y);
    by_infix(op, held, beside, first.live, out).after(first)
}

/// An operand in a register, which needs none of its own if it lies in one.
#[cycle(register)]
pub(crate) fn eval_held<'a>(
    expr: &LongExpr,
    inputs: Inputs<'a, '_>,
    out: &mut [i64],
    room: &mut [i64],
) -> (Held<'a>, Reached)
    requires lanes { inputs.live ≤ 1024 }
    requires xs { inputs.live ≤ length inputs.xs.now }
    requires rows { HasRows inputs.rows inputs.live }
    requires out { inputs.live ≤ length out.old }
    requires room { Fits (long_of expr.now) (length room.old) }
    ensures held { HasHeld result.0 inputs.entry.live }
    ensures reached { Reaches (at_each inputs.entry (long_value (long_of expr.now)))
        (held_at result.0 out.new) inputs.entry.live result.1 }
{
    match numbers_in_place(expr, inputs) {
        Some(xs) => (Held::Register(xs), all(inputs.live)),
        None => (Held::Out, eval_long(expr, inputs, out, room)),
    }
}
