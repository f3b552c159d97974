//! Folds and scans of the items of a piece: one loop each, compiled for each operator that is used often.

ghost use Rattle.std.specs.Prelude.{◌≡◌, List, map};
ghost use Rattle.lambda_values.specs.declared.item.Item.{Item as item};
ghost use Rattle.reduce_ops.specs.Operators.{value_of};
ghost use Rattle.prefix_scan.specs.Prefixes.{put_on};
ghost use Rattle.prefix_scan.specs.Scans.{AreWithin, cut_to, fold_at, fold_values_at, scan_at, scan_values_at};

use reduce_ops::Op;
use trace::Item;

/// A range in positions of a piece of this many items. The first item of the piece has the position `first`.
pub fn cut_to(range: Option<(u64, u64)>, first: u64, count: u64) -> Option<(u64, u64)>
    ensures { result ≡ cut_to range first count }
{
    let (from, to) = range?;
    Some((
        count.min(from.saturating_sub(first)),
        count.min(to.saturating_sub(first)),
    ))
}

/// The positions of the range among this many: from the first up to, not with, the second.
fn positions_within(range: Option<(u64, u64)>, count: usize) -> (usize, usize)
    ensures { AreWithin range count result.0 result.1 }
{
    match range {
        Some((from, to)) => {
            let to = to.min(count as u64);
            (from.min(to) as usize, to as usize)
        }
        None => (0, count),
    }
}

/// A value after a fold, if there is one.
fn put_on(op: Op, before: Option<i64>, value: i64) -> i64
    ensures { result ≡ put_on (value_of op) before value }
{
    match before {
        Some(before) => op.apply(before, value),
        None => value,
    }
}

/// The fold of `start` and of the items at positions of the range. It takes no memory.
pub(crate) fn fold_items(
    op: Op,
    range: Option<(u64, u64)>,
    start: Option<i64>,
    items: &[Item],
) -> Option<i64>
    ensures { result ≡ fold_at (value_of op) range 0 start items.now }
{
    match op {
        Op::Sum => fold_by(Op::Sum, range, start, items),
        Op::Min => fold_by(Op::Min, range, start, items),
        Op::Max => fold_by(Op::Max, range, start, items),
        Op::Affine => fold_by(Op::Affine, range, start, items),
        other => fold_by(other, range, start, items),
    }
}

/// The fold of `start` and of the items at positions of the range, by one operator.
fn fold_by(op: Op, range: Option<(u64, u64)>, start: Option<i64>, items: &[Item]) -> Option<i64>
    ensures { result ≡ fold_at (value_of op) range 0 start items.now }
{
    let (from, to) = positions_within(range, items.len());
    if from == to {
        return start;
    }
    let mut folded = put_on(op, start, items[from].value);
    for i in from + 1..to {
        folded = op.apply(folded, items[i].value);
    }
    Some(folded)
}

/// Replaces each item at a position of the range by the fold of `start` and of all these items up to and with it; the
/// others stay. The answer is the fold of all. It takes no memory.
pub(crate) fn scan_items(
    op: Op,
    range: Option<(u64, u64)>,
    start: Option<i64>,
    items: &mut [Item],
) -> Option<i64>
    ensures items { items.new ≡ scan_at (value_of op) range 0 start items.old }
    ensures fold { result ≡ fold_at (value_of op) range 0 start items.old }
{
    match op {
        Op::Sum => scan_by(Op::Sum, range, start, items),
        Op::Min => scan_by(Op::Min, range, start, items),
        Op::Max => scan_by(Op::Max, range, start, items),
        Op::Affine => scan_by(Op::Affine, range, start, items),
        other => scan_by(other, range, start, items),
    }
}

/// Replaces the items at positions of the range by their running folds, by one operator, and answers the fold of all.
fn scan_by(op: Op, range: Option<(u64, u64)>, start: Option<i64>, items: &mut [Item]) -> Option<i64>
    ensures items { items.new ≡ scan_at (value_of op) range 0 start items.old }
    ensures fold { result ≡ fold_at (value_of op) range 0 start items.old }
{
    let (from, to) = positions_within(range, items.len());
    if from == to {
        return start;
    }
    let mut running = put_on(op, start, items[from].value);
    items[from].value = running;
    for i in from + 1..to {
        running = op.apply(running, items[i].value);
        items[i].value = running;
    }
    Some(running)
}

/// Replaces each value at a position of the range by the fold of `start` and of all these values up to and with it; the
/// others stay. The answer is the fold of all. It takes no memory.
pub fn scan_values(
    op: Op,
    range: Option<(u64, u64)>,
    start: Option<i64>,
    values: &mut [i64],
) -> Option<i64>
    ensures values { (xs : List item) → map (λ x. x.value) xs ≡ values.old
        → map (λ x. x.value) (scan_at (value_of op) range 0 start xs) ≡ values.new }
    ensures fold { (xs : List item) → map (λ x. x.value) xs ≡ values.old
        → result ≡ fold_at (value_of op) range 0 start xs }
{
    scan_each_value(op, range, start, values)
}

/// Replaces the values at positions of the range by their running folds, and answers the fold of all.
fn scan_each_value(
    op: Op,
    range: Option<(u64, u64)>,
    start: Option<i64>,
    values: &mut [i64],
) -> Option<i64>
    ensures values { values.new ≡ scan_values_at (value_of op) range 0 start values.old }
    ensures fold { result ≡ fold_values_at (value_of op) range 0 start values.old }
{
    match op {
        Op::Sum => scan_values_by(Op::Sum, range, start, values),
        Op::Min => scan_values_by(Op::Min, range, start, values),
        Op::Max => scan_values_by(Op::Max, range, start, values),
        Op::Affine => scan_values_by(Op::Affine, range, start, values),
        other => scan_values_by(other, range, start, values),
    }
}

/// Replaces the values at positions of the range by their running folds, by one operator, and answers the fold of all.
fn scan_values_by(
    op: Op,
    range: Option<(u64, u64)>,
    start: Option<i64>,
    values: &mut [i64],
) -> Option<i64>
    ensures values { values.new ≡ scan_values_at (value_of op) range 0 start values.old }
    ensures fold { result ≡ fold_values_at (value_of op) range 0 start values.old }
{
    let (from, to) = positions_within(range, values.len());
    if from == to {
        return start;
    }
    let mut running = put_on(op, start, values[from]);
    values[from] = running;
    for i in from + 1..to {
        running = op.apply(running, values[i]);
        values[i] = running;
    }
    Some(running)
}
