//! Whether the room for registers is enough for an expression.

ghost use Rattle.batch_eval.specs.Rooms.{Fits, FitsBoth, FitsEach, FitsStages, FitsTest};
ghost use Rattle.lambda_values.specs.Term.{long_of, truth_of};
ghost use Rattle.std.specs.Prelude.{IsTrue};
ghost use Rattle.trace.specs.Stages.{stages_of};

use crate::register::LANES;
use lambda_values::{BoolExpr, LongExpr};
use trace::Stage;

/// Whether room of this length is enough for an expression.
#[cycle(fits)]
pub(crate) fn fits(expr: &LongExpr, room: usize) -> bool
    ensures { IsTrue result → Fits (long_of expr.now) room }
{
    match expr {
        LongExpr::Number(_)
        | LongExpr::Parameter(_)
        | LongExpr::Reference(_)
        | LongExpr::Cell(_)
        | LongExpr::Row => true,
        LongExpr::Unary(_, operand) => fits(operand, room),
        LongExpr::Binary(_, pair) => both_fit(&pair.left, &pair.right, room),
        LongExpr::Choose(choice) => {
            room >= 4 * LANES
                && test_fits(&choice.condition, room - LANES)
                && fits(&choice.chosen, room - 4 * LANES)
                && fits(&choice.other, room - 4 * LANES)
        }
    }
}

/// Whether it is enough for two operands.
#[cycle(fits)]
fn both_fit(a: &LongExpr, b: &LongExpr, room: usize) -> bool
    ensures { IsTrue result → FitsBoth (long_of a.now) (long_of b.now) room }
{
    fits(a, room) && room >= LANES && fits(b, room - LANES)
}

/// Whether it is enough for a test.
#[cycle(fits)]
pub(crate) fn test_fits(test: &BoolExpr, room: usize) -> bool
    ensures { IsTrue result → FitsTest (truth_of test.now) room }
{
    match test {
        BoolExpr::Literal(_) => true,
        BoolExpr::Compare(_, pair) => both_fit(&pair.left, &pair.right, room),
        BoolExpr::Not(operand) => test_fits(operand, room),
        BoolExpr::Connect(_, pair) => {
            room >= 4 * LANES
                && test_fits(&pair.left, room - LANES)
                && test_fits(&pair.right, room - 4 * LANES)
        }
        BoolExpr::Choose(choice) => {
            room >= 4 * LANES
                && test_fits(&choice.condition, room - LANES)
                && test_fits(&choice.chosen, room - 4 * LANES)
                && test_fits(&choice.other, room - 4 * LANES)
        }
    }
}

/// Whether it is enough for flags and for each of these stages.
pub(crate) fn stages_fit(stages: &[Stage], room: usize) -> bool
    ensures { IsTrue result → FitsStages (stages_of stages.now) room }
{
    room >= LANES && each_fits(stages, room - LANES)
}

/// Whether it is enough for each of these stages.
fn each_fits(stages: &[Stage], room: usize) -> bool
    ensures { IsTrue result → FitsEach (stages_of stages.now) room }
{
    let Some((stage, later)) = stages.split_first() else {
        return true;
    };
    let here = match stage {
        Stage::Map(image) => fits(image, room),
        Stage::Filter(test) => test_fits(test, room),
        Stage::FlatMap(_) => true,
    };
    here && each_fits(later, room)
}

/// Whether it is enough for a test and a register of its flags, if there is a test.
pub(crate) fn flags_fit(test: Option<&BoolExpr>, room: usize) -> bool {
    match test {
        Some(test) => room >= LANES && test_fits(test, room - LANES),
        None => true,
    }
}
