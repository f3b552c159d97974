//! An operator over lanes: the loop for where its operands are.

ghost use Rattle.batch_eval.specs.Batches.{holds};
ghost use Rattle.batch_eval.specs.Lanes.{BesideWithin, HasBeside, HasBranch, HasHeld, Reaches, at, beside_value};
ghost use Rattle.batch_eval.specs.Lanes.{branch_at, held_at};
ghost use Rattle.batch_eval.specs.Choices.{connected_flag, lane_passes};
ghost use Rattle.batch_eval.specs.Lanes.{flag_of, step_value};
ghost use Rattle.std.specs.Prelude.{◌≡◌, ◌<◌, ◌≤◌, ◌≤ℤ◌, ℕ, IsTrue, Ok, length, if◌then◌else◌};

use crate::choose::select;
use crate::exact::{is_within, lanes_pass, lanes_within};
use crate::flag::{BothSet, EitherSet};
use crate::kernel::{
    Add, And, First, Kernel, Or, ShiftLeft, ShiftRight, ShiftRightUnsigned, Subtract, Swapped, Xor,
};
use crate::lanes::{Flags, Lanes, Number, Own, Register, Stepped};
use crate::loops::run;
use crate::multiply::MultiplyByHalf;
use crate::number_test::NumberTest;
use crate::reached::Reached;
use lambda_values::Connective;
use std::marker::PhantomData;

/// An operand that is held in a register: in the one that the result goes to, or in another one.
#[derive(Clone, Copy)]
pub(crate) enum Held<'a> {
    Out,
    Register(&'a [i64]),
}

impl<'a> Held<'a> {
    /// The register, if the results go to this one.
    pub(crate) fn register(self, out: &'a [i64]) -> &'a [i64]
        ensures numbers { (k : ℕ) → at result.now k ≡ held_at self.entry out.now k }
        ensures count { (n : ℕ) → n ≤ length out.now → HasHeld self.entry n → n ≤ length result.now }
    {
        match self {
            Held::Out => out,
            Held::Register(xs) => xs,
        }
    }
}

/// An operator by a number that has no fault, done to an operand in the loop of the next operator.
#[derive(Clone, Copy)]
pub(crate) enum Step {
    Stay,
    Add(i64),
    Subtract(i64),
    MultiplyByHalf(i64),
    ShiftLeft(i64),
    ShiftRight(i64),
    ShiftRightUnsigned(i64),
    And(i64),
    Xor(i64),
    Or(i64),
}

/// The other operand. `Register`: on the right, after a step. `Number`: on the right, and the operand that is held goes
/// through the step. `NumberFirst`: on the left.
#[derive(Clone, Copy)]
pub(crate) enum Beside<'a> {
    Register(&'a [i64], Step),
    Number(Step, i64),
    NumberFirst(i64),
}

/// What a condition chooses at a lane: a number, or what a step makes of a register.
#[derive(Clone, Copy)]
pub(crate) enum Branch<'a> {
    Number(i64),
    Register(&'a [i64], Step),
}

/// A test of numbers that lie in a register, after a step.
#[derive(Clone, Copy)]
pub(crate) struct LaneTest<'a> {
    pub(crate) xs: &'a [i64],
    pub(crate) step: Step,
    pub(crate) set: NumberTest,
}

/// Does this with lanes after a step.
macro_rules! after_step {
    ($step:expr, $of:ty, $a:expr, $lanes:ident => $done:expr) => {
        after_step!($step, $of, $a, $lanes => $done,
            Add Subtract MultiplyByHalf ShiftLeft ShiftRight ShiftRightUnsigned And Xor Or)
    };
    ($step:expr, $of:ty, $a:expr, $lanes:ident => $done:expr, $($kernel:ident)*) => {
        match $step {
            Step::Stay => {
                let $lanes = $a;
                $done
            }
            $(Step::$kernel(by) => {
                let $lanes: Stepped<$kernel, $of> = Stepped {
                    of: $a,
                    by,
                    kernel: PhantomData,
                };
                $done
            })*
        }
    };
}

/// One number at each lane.
pub(crate) fn fill(number: i64, live: usize, out: &mut [i64]) -> Reached
    requires { live ≤ length out.old }
    ensures { Reaches (λ _. Ok number) (at out.new) live result }
{
    run::<First, Number, Number>(Number(number), Number(0), live, out)
}

/// An operator between lanes and another operand.
pub(crate) fn by_kernel<K: Kernel, A: Lanes>(
    a: A,
    beside: Beside<'_>,
    live: usize,
    out: &mut [i64],
) -> Reached
    requires a { live ≤ A.count a }
    requires beside { HasBeside beside live }
    requires out { live ≤ length out.old }
    ensures { Reaches (λ k. beside_value K.value beside.entry (A.number a (at out.old k) k) k)
        (at out.new) live result }
{
    match beside {
        Beside::Register(ys, step) => {
            by_step::<Swapped<K>, Register<'_>, A>(Register(ys), step, a, live, out)
        }
        Beside::Number(step, y) => by_step::<K, A, Number>(a, step, Number(y), live, out),
        Beside::NumberFirst(x) => run::<Swapped<K>, A, Number>(a, Number(x), live, out),
    }
}

/// An operator between two operands, the first one after a step.
pub(crate) fn by_step<K: Kernel, A: Lanes, B: Lanes>(
    a: A,
    step: Step,
    b: B,
    live: usize,
    out: &mut [i64],
) -> Reached
    requires a { live ≤ A.count a }
    requires b { live ≤ B.count b }
    requires out { live ≤ length out.old }
    ensures { Reaches (λ k. K.value (step_value step (A.number a (at out.old k) k)) (B.number b (at out.old k) k))
        (at out.new) live result }
{
    after_step!(step, A, a, lanes => run::<K, _, B>(lanes, b, live, out))
}

/// Whether the other operand is within two bounds at each of these lanes, and the operand that is held goes through no
/// step.
pub(crate) fn beside_within(beside: Beside<'_>, bounds: (i64, i64), live: usize) -> bool
    requires bounds { bounds.0 ≤ℤ bounds.1 }
    requires beside { HasBeside beside live }
    ensures { IsTrue result → BesideWithin bounds.0 bounds.1 beside.entry live }
{
    match beside {
        Beside::Register(ys, step) => {
            after_step!(step, Register<'_>, Register(ys), lanes => lanes_within(lanes, bounds, live, ys))
        }
        Beside::Number(Step::Stay, y) => is_within(bounds, y),
        Beside::Number(_, _) => false,
        Beside::NumberFirst(x) => is_within(bounds, x),
    }
}

/// What a test says of an operand after a step, as flags.
pub(crate) fn flag_held(
    held: Held<'_>,
    step: Step,
    set: NumberTest,
    live: usize,
    out: &mut [i64],
) -> Reached
    requires held { HasHeld held live }
    requires out { live ≤ length out.old }
    ensures { Reaches (λ k. Ok (flag_of (holds set (step_value step (held_at held.entry out.old k)))))
        (at out.new) live result }
{
    match held {
        Held::Out => flag_lanes::<Own>(Own, step, set, live, out),
        Held::Register(xs) => flag_lanes::<Register<'_>>(Register(xs), step, set, live, out),
    }
}

/// What a test says of lanes after a step, as flags.
fn flag_lanes<A: Lanes>(a: A, step: Step, set: NumberTest, live: usize, out: &mut [i64]) -> Reached
    requires a { live ≤ A.count a }
    requires out { live ≤ length out.old }
    ensures { Reaches (λ k. Ok (flag_of (holds set (step_value step (A.number a (at out.old k) k)))))
        (at out.new) live result }
{
    after_step!(step, A, a, lanes => run::<First, _, Number>(Flags { of: lanes, set }, Number(0), live, out))
}

/// Flags and a test of other numbers, connected.
pub(crate) fn connect(
    connective: Connective,
    right: LaneTest<'_>,
    live: usize,
    out: &mut [i64],
) -> Reached
    requires right { live ≤ length right.xs.now }
    requires out { live ≤ length out.old }
    ensures { Reaches (λ k. Ok (connected_flag connective (at out.old k) (lane_passes right.entry k)))
        (at out.new) live result }
{
    match connective {
        Connective::And => connect_by::<BothSet>(right, live, out),
        Connective::Or => connect_by::<EitherSet>(right, live, out),
    }
}

/// An operator between flags and what a test says of other numbers.
fn connect_by<K: Kernel>(right: LaneTest<'_>, live: usize, out: &mut [i64]) -> Reached
    requires right { live ≤ length right.xs.now }
    requires out { live ≤ length out.old }
    ensures { Reaches (λ k. K.value (at out.old k) (flag_of (lane_passes right.entry k))) (at out.new) live result }
{
    let LaneTest { xs, step, set } = right;
    after_step!(step, Register<'_>, Register(xs), lanes => run::<K, Own, _>(Own, Flags { of: lanes, set }, live, out))
}

/// One branch into the lanes whose number passes a test, and another one into the others.
pub(crate) fn blend(
    xs: &[i64],
    set: NumberTest,
    one: Branch<'_>,
    other: Branch<'_>,
    live: usize,
    out: &mut [i64],
)
    requires xs { live ≤ length xs.now }
    requires one { HasBranch one live }
    requires other { HasBranch other live }
    requires out { live ≤ length out.old }
    ensures { (k : ℕ) → k < live → at out.new k
        ≡ (if holds set (at xs.now k) then branch_at one.entry k else branch_at other.entry k) }
{
    match one {
        Branch::Number(number) => blend_with(xs, set, Number(number), other, live, out),
        Branch::Register(ys, step) => {
            after_step!(step, Register<'_>, Register(ys), lanes => blend_with(xs, set, lanes, other, live, out))
        }
    }
}

fn blend_with<A: Lanes>(
    xs: &[i64],
    set: NumberTest,
    a: A,
    other: Branch<'_>,
    live: usize,
    out: &mut [i64],
)
    requires xs { live ≤ length xs.now }
    requires a { live ≤ A.count a }
    requires other { HasBranch other live }
    requires out { live ≤ length out.old }
    ensures { (k : ℕ) → k < live → at out.new k
        ≡ (if holds set (at xs.now k) then A.number a (at out.old k) k else branch_at other.entry k) }
{
    match other {
        Branch::Number(number) => select(xs, set, a, Number(number), live, out),
        Branch::Register(ys, step) => {
            after_step!(step, Register<'_>, Register(ys), lanes => select(xs, set, a, lanes, live, out))
        }
    }
}

/// Whether a test is as it is wanted at each of these numbers after a step.
pub(crate) fn steps_pass(
    xs: &[i64],
    step: Step,
    test: NumberTest,
    wanted: bool,
    live: usize,
) -> bool
    requires { live ≤ length xs.now }
    ensures { IsTrue result → (k : ℕ) → k < live → holds test (step_value step (at xs.now k)) ≡ wanted }
{
    after_step!(step, Register<'_>, Register(xs), lanes => lanes_pass(lanes, test, wanted, live))
}
