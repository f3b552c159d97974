//! Numbers and tests of them where they lie: in the register of the items, or in the cells of rows that count up; and
//! cells of other rows, which are put into a register.

ghost use Rattle.batch_eval.specs.Choices.{at_each, lane_passes};
ghost use Rattle.batch_eval.specs.Lanes.{Reaches, at};
ghost use Rattle.batch_eval.specs.Rows.{HasRows, row_at};
ghost use Rattle.tables.specs.Table.{cells_named};
ghost use Rattle.lambda_values.specs.Earlier.{cell_at};
ghost use Rattle.lambda_values.specs.Term.{long_of, truth_of};
ghost use Rattle.lambda_values.specs.Value.{long_value, truth_value};
ghost use Rattle.std.specs.Prelude.{◌≡◌, ◌<◌, ◌≤◌, ℕ, IfSome, Ok, length};

use crate::kernel::First;
use crate::lanes::{Number, Register};
use crate::loops::run;
use crate::operands::{LaneTest, fill};
use crate::reached::Reached;
use crate::register::Inputs;
use crate::rows::{cells_in_place, gather_cells};
use crate::step::{compared_with, last_step};
use lambda_values::{BoolExpr, LongExpr};

/// The numbers of an operand, where they lie: the items, or the cells of rows that count up.
pub(crate) fn numbers_in_place<'a>(expr: &LongExpr, inputs: Inputs<'a, '_>) -> Option<&'a [i64]>
    requires xs { inputs.live ≤ length inputs.xs.now }
    requires rows { HasRows inputs.rows inputs.live }
    ensures lanes { IfSome result (λ xs. inputs.entry.live ≤ length xs.now) }
    ensures values { IfSome result (λ xs. (k : ℕ) → k < inputs.entry.live
        → at_each inputs.entry (long_value (long_of expr.now)) k ≡ Ok (at xs.now k)) }
{
    match expr {
        LongExpr::Parameter(_) => Some(inputs.xs),
        LongExpr::Cell(name) => {
            let cells = inputs.env.cells(name.as_slice())?;
            cells_in_place(cells, inputs.rows, inputs.live)
        }
        _ => None,
    }
}

/// A test of numbers where they lie: one that compares with a number, after no operator but a step.
pub(crate) fn lane_test<'a>(test: &BoolExpr, inputs: Inputs<'a, '_>) -> Option<LaneTest<'a>>
    requires xs { inputs.live ≤ length inputs.xs.now }
    requires rows { HasRows inputs.rows inputs.live }
    ensures lanes { IfSome result (λ found. inputs.entry.live ≤ length found.xs.now) }
    ensures passes { IfSome result (λ found. (k : ℕ) → k < inputs.entry.live
        → at_each inputs.entry (truth_value (truth_of test.now)) k ≡ Ok (lane_passes found k)) }
{
    let (left, set) = compared_with(test, inputs.env)?;
    let last = last_step(left, inputs.env);
    let xs = numbers_in_place(last.of, inputs)?;
    let step = last.step;
    Some(LaneTest { xs, step, set })
}

/// Puts the cells of the column with this name into a register.
pub(crate) fn eval_cells(name: &[u8], inputs: Inputs<'_, '_>, out: &mut [i64]) -> Reached
    requires rows { HasRows inputs.rows inputs.live }
    requires out { inputs.live ≤ length out.old }
    ensures { Reaches (λ k. Ok (cell_at (row_at inputs.entry.rows k) (cells_named name.now inputs.entry.env.now.table)))
        (at out.new) inputs.entry.live result }
{
    let Some(cells) = inputs.env.cells(name) else {
        return fill(0, inputs.live, out);
    };
    match cells_in_place(cells, inputs.rows, inputs.live) {
        Some(xs) => run::<First, _, _>(Register(xs), Number(0), inputs.live, out),
        None => gather_cells(cells, inputs.rows, inputs.live, out),
    }
}
