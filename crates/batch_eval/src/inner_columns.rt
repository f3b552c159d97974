//! The operands of inner streams, by columns: at all items of a batch before the first inner value is put.

ghost use Rattle.batch_eval.specs.InnerColumns.{given, row};
ghost use Rattle.batch_eval.specs.Lanes.{at};
ghost use Rattle.batch_eval.specs.Batches.{item_at};
ghost use Rattle.batch_eval.specs.Choices.{at_each};
ghost use Rattle.batch_eval.specs.Rooms.{FitsStages};
ghost use Rattle.batch_eval.specs.Rows.{HasRows};
ghost use Rattle.lambda_values.specs.Streams.{each_value, exprs_of, inner_of, inner_value};
ghost use Rattle.lambda_values.specs.Term.{long_of};
ghost use Rattle.lambda_values.specs.Value.{long_value};
ghost use Rattle.std.specs.Prelude.{◌≡◌, ◌+◌, ◌-◌, ◌<◌, ◌≤◌, ℕ, Ok, length};
ghost use Rattle.trace.specs.Stages.{stages_of};

use crate::lane_items::LaneItems;
use crate::register::{Inputs, LANES, eval_long};
use crate::room::{fits, flags_fit, stages_fit};
use crate::rows::Rows;
use lambda_values::{BoolExpr, Env, InnerExpr, LongExpr};
use trace::Stage;

/// Inner streams of more operands, which no lambda has, are evaluated item by item.
const MOST_OPERANDS: usize = 64;

/// The operands of an inner stream at the first lanes of a batch, in a register for each operand.
#[derive(Clone, Copy)]
pub(crate) struct Columns<'a> {
    pub(crate) inner: &'a InnerExpr,
    pub(crate) registers: &'a [i64],
    pub(crate) lanes: usize,
}

/// How much of the room the registers of the operands may take: none if it is too little for them and the later
/// stages.
pub(crate) fn column_room(inner: &InnerExpr, later: &[Stage], room: usize) -> usize
    requires { FitsStages (stages_of later.now) room }
    ensures within { result ≤ room }
    ensures left { FitsStages (stages_of later.now) (room - result) }
{
    let operands = match inner {
        InnerExpr::Range(..) | InnerExpr::RangeClosed(..) => 2,
        InnerExpr::Of(operands) => operands.exprs().len(),
    };
    if operands > MOST_OPERANDS || room < operands * LANES {
        return 0;
    }
    let part = operands * LANES;
    if stages_fit(later, room - part) {
        part
    } else {
        0
    }
}

/// Whether room that is enough for these stages is so for the operands of their inner streams too, and then for a test
/// and its flags.
pub(crate) fn rest_fits(stages: &[Stage], test: Option<&BoolExpr>, room: usize) -> bool
    requires { FitsStages (stages_of stages.now) room }
{
    let Some((stage, later)) = stages.split_first() else {
        return flags_fit(test, room);
    };
    match stage {
        Stage::FlatMap(inner) => {
            let part = column_room(inner, later, room);
            operands_fit(inner, part / LANES, room - part) && rest_fits(later, test, room - part)
        }
        Stage::Map(_) | Stage::Filter(_) => rest_fits(later, test, room),
    }
}

/// Whether this many registers are enough for the operands of an inner stream, and room for each of them.
fn operands_fit(inner: &InnerExpr, registers: usize, room: usize) -> bool {
    match inner {
        InnerExpr::Range(from, to) | InnerExpr::RangeClosed(from, to) => {
            registers >= 2 && fits(from, room) && fits(to, room)
        }
        InnerExpr::Of(operands) => {
            let exprs = operands.exprs();
            registers >= exprs.len() && exprs.iter().all(|expr| fits(expr, room))
        }
    }
}

/// Puts the operands at these items into registers, up to the first item whose operand has a fault. The result is
/// how many lanes have all operands: none if there is too little room for them.
pub(crate) fn eval_columns(
    inner: &InnerExpr,
    env: &Env,
    items: LaneItems<'_>,
    registers: &mut [i64],
    room: &mut [i64],
) -> usize
    ensures items { result ≤ length items.entry.values.now }
    ensures operands { (k : ℕ) → k < result → inner_value (inner_of inner.now)
        (item_at items.entry.start items.entry.places.now items.entry.values.now k) env.now
        ≡ given (inner_of inner.now) registers.new k }
{
    let inputs = Inputs {
        env,
        xs: items.values,
        live: items.values.len().min(LANES),
        rows: Rows::of(items.start, items.places),
    };
    match inner {
        InnerExpr::Range(from, to) => eval_two(from, to, inputs, registers, room),
        InnerExpr::RangeClosed(from, to) => eval_two(from, to, inputs, registers, room),
        InnerExpr::Of(operands) => eval_each(operands.exprs(), inputs, registers, room),
    }
}

/// Puts the values of two expressions into registers, up to the first lane that has a fault. The result is how many
/// lanes have both values.
fn eval_two(
    from: &LongExpr,
    to: &LongExpr,
    inputs: Inputs<'_, '_>,
    registers: &mut [i64],
    room: &mut [i64],
) -> usize
    requires lanes { inputs.live ≤ 1024 }
    requires xs { inputs.live ≤ length inputs.xs.now }
    requires rows { HasRows inputs.rows inputs.live }
    ensures within { result ≤ inputs.entry.live }
    ensures values { (k : ℕ) → k < result
        → (at_each inputs.entry (long_value (long_of from.now)) k ≡ Ok (at registers.new k))
        × (at_each inputs.entry (long_value (long_of to.now)) k ≡ Ok (at registers.new (1024 + k))) }
{
    if registers.len() < 2 * LANES || !fits(from, room.len()) || !fits(to, room.len()) {
        return 0;
    }
    let (froms, tos) = registers.split_at_mut(LANES);
    let live = eval_long(from, inputs, froms, room).live;
    eval_long(to, Inputs { live, ..inputs }, tos, room).live
}

/// Puts the values of expressions into registers, one after the other, up to the first lane that has a fault. The
/// result is how many lanes have all values.
fn eval_each(
    operands: &[LongExpr],
    inputs: Inputs<'_, '_>,
    registers: &mut [i64],
    room: &mut [i64],
) -> usize
    requires lanes { inputs.live ≤ 1024 }
    requires xs { inputs.live ≤ length inputs.xs.now }
    requires rows { HasRows inputs.rows inputs.live }
    ensures within { result ≤ inputs.entry.live }
    ensures values { (k : ℕ) → k < result → at_each inputs.entry (each_value (exprs_of operands.now)) k
        ≡ Ok (row registers.new k (length operands.now)) }
{
    let Some((expr, others)) = operands.split_first() else {
        return inputs.live;
    };
    if registers.len() < LANES || !fits(expr, room.len()) {
        return 0;
    }
    let (column, later) = registers.split_at_mut(LANES);
    let live = eval_long(expr, inputs, column, room).live;
    eval_each(others, Inputs { live, ..inputs }, later, room)
}
