//! An operator over lanes: which of its loops is run. It has a loop for any operands, and may have shorter ones for a
//! number on the right.

ghost use Rattle.batch_eval.specs.Lanes.{HasBeside, HasHeld, Reaches, at, beside_value, held_at, infix_value};
ghost use Rattle.batch_eval.specs.Lanes.{step_value};
ghost use Rattle.batch_eval.specs.Powers.{power};
ghost use Rattle.lambda_values.specs.Operators.{binary_value};
ghost use Rattle.std.specs.Prelude.{◌≡◌, ◌≤◌, ◌≤ℤ◌, ℤ, length, pos};

use crate::division::{
    DivideByReciprocal, Division, FloorDivideByReciprocal, FloorRemainderByReciprocal, Natural,
    RemainderByReciprocal,
};
use crate::exact::{NATURAL, SHORT, lanes_within, of_factors, of_terms};
use crate::kernel::{
    Absolute, Add, AddExact, And, Complement, Divide, Equal, FloorDivide, FloorRemainder, Greater,
    GreaterOrEqual, Infix, Kernel, Less, LessOrEqual, Max, Min, Multiply, MultiplyExact, Negate,
    NegateExact, NotEqual, Or, Remainder, ShiftLeft, ShiftRight, ShiftRightUnsigned, Subtract,
    SubtractExact, Xor,
};
use crate::lanes::{Lanes, Number, Own, Register, Stepped};
use crate::loops::{divide, run};
use crate::multiply::{MultiplyByHalf, is_half};
use crate::operands::{Beside, Held, Step, beside_within, by_kernel};
use crate::power::{
    DivideByPower, FloorDivideByPower, FloorRemainderByPower, RemainderByPower, exponent_of,
};
use crate::reached::Reached;
use crate::reciprocal::{Reciprocal, ShortReciprocal, reciprocal_of, short_reciprocal_of};
use lambda_values::{BinaryOperator, Comparison, Faults, UnaryOperator};
use std::marker::PhantomData;

/// Whether the operator by a number may have a shorter way than a loop with a step in it. Either answer is right.
pub(crate) fn has_shorter_way(op: Infix) -> bool {
    match op {
        Infix::Compute(operator) => operator.faults() != Faults::Never,
        Infix::Compare(_) => false,
        Infix::Alone(operator) => operator.faults() != Faults::Never,
    }
}

/// An operator between an operand that is held and another one.
pub(crate) fn by_infix(
    op: Infix,
    held: Held<'_>,
    beside: Beside<'_>,
    live: usize,
    out: &mut [i64],
) -> Reached
    requires held { HasHeld held live }
    requires beside { HasBeside beside live }
    requires out { live ≤ length out.old }
    ensures { Reaches (λ k. beside_value (infix_value op) beside.entry (held_at held.entry out.old k) k)
        (at out.new) live result }
{
    match held {
        Held::Out => by_infix_lanes::<Own>(op, Own, beside, live, out),
        Held::Register(xs) => by_infix_lanes::<Register<'_>>(op, Register(xs), beside, live, out),
    }
}

/// An operator between lanes and another operand.
fn by_infix_lanes<A: Lanes>(
    op: Infix,
    a: A,
    beside: Beside<'_>,
    live: usize,
    out: &mut [i64],
) -> Reached
    requires a { live ≤ A.count a }
    requires beside { HasBeside beside live }
    requires out { live ≤ length out.old }
    ensures { Reaches (λ k. beside_value (infix_value op) beside.entry (A.number a (at out.old k) k) k)
        (at out.new) live result }
{
    match (op, beside) {
        (Infix::Compute(BinaryOperator::AddExact), _) => {
            by_exact::<AddExact, Add, A>(of_terms(), a, beside, live, out)
        }
        (Infix::Compute(BinaryOperator::SubtractExact), _) => {
            by_exact::<SubtractExact, Subtract, A>(of_terms(), a, beside, live, out)
        }
        (Infix::Compute(BinaryOperator::MultiplyExact), _) => {
            by_exact::<MultiplyExact, Multiply, A>(of_factors(), a, beside, live, out)
        }
        (Infix::Alone(UnaryOperator::NegateExact), _) => {
            by_exact::<NegateExact, Negate, A>(of_terms(), a, beside, live, out)
        }
        (_, Beside::Number(step, y)) => by_number(op, a, step, y, live, out),
        _ => by_operator(op, a, beside, live, out),
    }
}

/// An operator between lanes after a step and a number.
fn by_number<A: Lanes>(op: Infix, a: A, step: Step, y: i64, live: usize, out: &mut [i64]) -> Reached
    requires a { live ≤ A.count a }
    requires out { live ≤ length out.old }
    ensures { Reaches (λ k. infix_value op (step_value step (A.number a (at out.old k) k)) y)
        (at out.new) live result }
{
    let beside = Beside::Number(step, y);
    match (op, step) {
        (Infix::Compute(BinaryOperator::Multiply), _) if is_half(y) => {
            by_kernel::<MultiplyByHalf, A>(a, beside, live, out)
        }
        (Infix::Compute(BinaryOperator::Divide), Step::Stay) => {
            by_divisor::<DivideByPower, DivideByReciprocal, Divide, A>(a, y, live, out)
        }
        (Infix::Compute(BinaryOperator::Remainder), Step::Stay) => {
            by_divisor::<RemainderByPower, RemainderByReciprocal, Remainder, A>(a, y, live, out)
        }
        (Infix::Compute(BinaryOperator::FloorDivide), Step::Stay) => {
            by_divisor::<FloorDivideByPower, FloorDivideByReciprocal, FloorDivide, A>(
                a, y, live, out,
            )
        }
        (Infix::Compute(BinaryOperator::FloorRemainder), Step::Stay) => {
            by_divisor::<FloorRemainderByPower, FloorRemainderByReciprocal, FloorRemainder, A>(
                a, y, live, out,
            )
        }
        _ => by_operator(op, a, beside, live, out),
    }
}

/// Runs the loop of an operator for these operands.
macro_rules! by_name {
    ($kind:ident $op:expr, $operands:tt, $($name:ident)*) => {
        match $op {
            $($kind::$name => by_kernel::<$name, A> $operands,)*
        }
    };
}

/// An operator between lanes and another operand, by its loop for any operands.
fn by_operator<A: Lanes>(
    op: Infix,
    a: A,
    beside: Beside<'_>,
    live: usize,
    out: &mut [i64],
) -> Reached
    requires a { live ≤ A.count a }
    requires beside { HasBeside beside live }
    requires out { live ≤ length out.old }
    ensures { Reaches (λ k. beside_value (infix_value op) beside.entry (A.number a (at out.old k) k) k)
        (at out.new) live result }
{
    match op {
        Infix::Compute(operator) => by_binary(operator, a, beside, live, out),
        Infix::Compare(comparison) => by_name!(Comparison comparison, (a, beside, live, out),
            Equal NotEqual Less LessOrEqual Greater GreaterOrEqual),
        Infix::Alone(operator) => by_name!(UnaryOperator operator, (a, beside, live, out),
            Negate Complement Absolute NegateExact),
    }
}

/// An operator of two numbers between lanes and another operand.
fn by_binary<A: Lanes>(
    operator: BinaryOperator,
    a: A,
    beside: Beside<'_>,
    live: usize,
    out: &mut [i64],
) -> Reached
    requires a { live ≤ A.count a }
    requires beside { HasBeside beside live }
    requires out { live ≤ length out.old }
    ensures { Reaches (λ k. beside_value (binary_value operator) beside.entry (A.number a (at out.old k) k) k)
        (at out.new) live result }
{
    by_name!(BinaryOperator operator, (a, beside, live, out),
        Add Subtract Multiply Divide Remainder ShiftLeft ShiftRight ShiftRightUnsigned And Xor Or Min Max
        FloorDivide FloorRemainder AddExact SubtractExact MultiplyExact)
}

/// An exact operator between lanes and another operand: the wrapping operator, where no operand is out of these bounds.
fn by_exact<K: Kernel, W: Kernel, A: Lanes>(
    bounds: (i64, i64),
    a: A,
    beside: Beside<'_>,
    live: usize,
    out: &mut [i64],
) -> Reached
    requires bounds { bounds.0 ≤ℤ bounds.1 }
    requires wraps { (x y : ℤ) → bounds.0 ≤ℤ x → x ≤ℤ bounds.1 → bounds.0 ≤ℤ y → y ≤ℤ bounds.1
        → W.value x y ≡ K.value x y }
    requires a { live ≤ A.count a }
    requires beside { HasBeside beside live }
    requires out { live ≤ length out.old }
    ensures { Reaches (λ k. beside_value K.value beside.entry (A.number a (at out.old k) k) k)
        (at out.new) live result }
{
    if beside_within(beside, bounds, live) && lanes_within(a, bounds, live, out) {
        by_kernel::<W, A>(a, beside, live, out)
    } else {
        by_kernel::<K, A>(a, beside, live, out)
    }
}

/// A division of lanes by a number: by its exponent if it is a power of two; by its short reciprocal if it has one and
/// no operand needs more than 32 bits; by its reciprocal if it has one; else as the processor divides. If no operand is
/// below 0 either, nothing is done for signs.
#[tactic(auto, using(crate::proofs::ReciprocalLemmas::within_64, crate::proofs::ReciprocalLemmas::short_within, crate::proofs::ReciprocalLemmas::natural_within))]
fn by_divisor<P: Kernel, D: Division, K: Kernel, A: Lanes>(
    a: A,
    y: i64,
    live: usize,
    out: &mut [i64],
) -> Reached
    requires shifts { (x e : ℤ) → P.value x e ≡ K.value x (pos (power e)) }
    requires divides { (x : ℤ) → D.value x y ≡ K.value x y }
    requires a { live ≤ A.count a }
    requires out { live ≤ length out.old }
    ensures { Reaches (λ k. K.value (A.number a (at out.old k) k) y) (at out.new) live result }
{
    if let Some(exponent) = exponent_of(y) {
        return run::<P, A, Number>(a, Number(exponent), live, out);
    }
    if let Some(by) = short_reciprocal_of(y) {
        if lanes_within(a, NATURAL, live, out) {
            let naturals: Stepped<Natural, A> = Stepped {
                of: a,
                by: 0,
                kernel: PhantomData,
            };
            return divide::<D, ShortReciprocal, Stepped<Natural, A>>(naturals, by, live, out);
        }
        if lanes_within(a, SHORT, live, out) {
            return divide::<D, ShortReciprocal, A>(a, by, live, out);
        }
    }
    match reciprocal_of(y) {
        Some(by) => divide::<D, Reciprocal, A>(a, by, live, out),
        None => run::<K, A, Number>(a, Number(y), live, out),
    }
}
