//! Folds of the values of a batch, or of those whose flag is set: one loop, compiled for each operator.

ghost use Rattle.batch_eval.specs.BatchItems.{values_in};
ghost use Rattle.std.specs.Prelude.{◌≡◌, ◌<◌, ◌≤◌, ◌^◌, IfNone, IfSome, List, None, Some, false, fold, length};
ghost use Rattle.std.specs.Prelude.{map, pos, true};
ghost use Rattle.trace.specs.declared.item.End.TheVariants as end;
ghost use Rattle.lambda_values.specs.declared.item.Item.{Item as item};
ghost use Rattle.trace.specs.Trace.{trace};
ghost use Rattle.lambda_values.specs.Streams.{run_values};
ghost use Rattle.lambda_values.specs.Wrap.{wrap};
ghost use Rattle.reduce_ops.specs.Operators.{identity_of, value_of};
ghost use Rattle.reduce_ops.specs.Parts.{StandsFor};
ghost use Rattle.prefix_scan.specs.Scans.{joined_value};
ghost use Rattle.prefix_walks.specs.Batches.{counted_as, each_one, folded_values, total_below};

use batch_eval::FlaggedLanes;
use lambda_values::Run;
use reduce_ops::{Op, Partial};
use trace::{End, Item};

/// Does this with an operator that a compiler knows: a loop in it is compiled for each of them.
macro_rules! with_known {
    ($op:expr, $known:ident => $done:expr) => {
        with_known!($op, $known => $done, Sum Min Max Product And Or Xor Affine First Last)
    };
    ($op:expr, $known:ident => $done:expr, $($name:ident)*) => {
        match $op {
            $(Op::$name => {
                let $known = Op::$name;
                $done
            })*
        }
    };
}

/// The fold of values, or of a 1 for each of them.
pub fn folded(op: Op, counts: bool, values: &[i64]) -> Partial
    ensures op { result.op ≡ op }
    ensures ending { result.end ≡ end.Done }
    ensures stands { (xs : List item) → map (λ x. x.value) xs ≡ values.now
        → StandsFor result (trace (counted_as counts xs) end.Done) }
{
    match fold_values(op, counts, values) {
        Some(value) => Partial::of(op, Item { origin: 0, value }),
        None => Partial::none(op, End::Done),
    }
}

/// The fold of values, or of a 1 for each of them, as a number; `None` without values.
fn fold_values(op: Op, counts: bool, values: &[i64]) -> Option<i64>
    ensures { result ≡ folded_values (value_of op) counts values.now }
{
    with_known!(op, known => fold_each(known, counts, values))
}

/// The fold of values, or of a 1 for each of them, by one operator, from the first value to the last one; `None`
/// without values.
fn fold_each(op: Op, counts: bool, values: &[i64]) -> Option<i64>
    ensures { result ≡ folded_values (value_of op) counts values.now }
{
    let (first, later) = values.split_first()?;
    Some(fold_from(op, counts, counted_value(counts, *first), later))
}

/// Folds values onto a start.
fn fold_from(op: Op, counts: bool, start: i64, values: &[i64]) -> i64
    ensures { result ≡ fold (λ a v. value_of op a (each_one counts v)) start values.now }
{
    let mut folded = start;
    for value in values {
        folded = op.apply(folded, counted_value(counts, *value));
    }
    folded
}

/// Whether `folded_run` folds by this operator.
pub fn folds_runs(op: Op, counts: bool) -> bool {
    match op {
        Op::Sum => true,
        Op::Min | Op::Max | Op::First | Op::Last => !counts,
        _ => false,
    }
}

/// The fold of integers in a row, or of a 1 for each of them, in constant time. `None` if the operator has no such way.
pub fn folded_run(op: Op, counts: bool, run: Run) -> Option<Partial>
    ensures op { IfSome result (λ right. right.op ≡ op) }
    ensures ending { IfSome result (λ right. right.end ≡ end.Done) }
    ensures stands { IfSome result (λ right. (xs : List item) → map (λ x. x.value) xs ≡ run_values run
        → StandsFor right (trace (counted_as counts xs) end.Done)) }
{
    if run.count == 0 {
        return Some(Partial::none(op, End::Done));
    }
    let value = if counts {
        count_run(op, run)?
    } else {
        fold_run(op, run)?
    };
    Some(Partial::of(op, Item { origin: 0, value }))
}

/// The fold of a 1 for each of some integers in a row.
fn count_run(op: Op, run: Run) -> Option<i64>
    requires some { 0 < run.count }
    ensures { IfSome result (λ value. Some value ≡ folded_values (value_of op) true (run_values run)) }
{
    match op {
        Op::Sum => Some(run.count as i64),
        _ => None,
    }
}

/// The fold of some integers in a row.
fn fold_run(op: Op, run: Run) -> Option<i64>
    requires some { 0 < run.count }
    ensures { IfSome result (λ value. Some value ≡ folded_values (value_of op) false (run_values run)) }
{
    match op {
        Op::Sum => Some(sum_of_run(run)),
        Op::Min | Op::First => Some(run.first),
        Op::Max | Op::Last => Some(run.first + (run.count - 1) as i64),
        _ => None,
    }
}

/// The sum of some integers in a row: the first one for each of them, and 0, 1, 2 and so on.
fn sum_of_run(run: Run) -> i64
    requires some { 0 < run.count }
    ensures { Some result ≡ folded_values (value_of Op.Sum) false (run_values run) }
{
    let firsts = run.first.wrapping_mul(run.count as i64);
    firsts.wrapping_add(sum_below(run.count))
}

/// The sum of the natural numbers below this one. Of two factors the even one is halved, so that no bit is lost.
fn sum_below(count: u64) -> i64
    requires some { 0 < count }
    requires few { count ≤ 2 ^ 62 }
    ensures { result ≡ wrap (pos (total_below count)) }
{
    if count % 2 == 0 {
        ((count / 2) as i64).wrapping_mul((count - 1) as i64)
    } else {
        (count as i64).wrapping_mul(((count - 1) / 2) as i64)
    }
}

/// The fold of the values whose flag is set, or of a 1 for each of them. `None` if the operator has no identity, which
/// the fold puts in the place of the other values.
pub fn folded_flagged(op: Op, counts: bool, lanes: FlaggedLanes<'_>) -> Option<Partial>
    ensures none { IfNone result (identity_of op ≡ None) }
    ensures op { IfSome result (λ right. right.op ≡ op) }
    ensures ending { IfSome result (λ right. right.end ≡ end.Done) }
    ensures stands { IfSome result (λ right. (xs : List item)
        → map (λ x. x.value) xs ≡ values_in lanes.entry
        → StandsFor right (trace (counted_as counts xs) end.Done)) }
{
    let identity = op.identity()?;
    Some(match fold_flagged(op, counts, identity, lanes) {
        Some(value) => Partial::of(op, Item { origin: 0, value }),
        None => Partial::none(op, End::Done),
    })
}

/// The fold of the values whose flag is set, or of a 1 for each of them, as a number; `None` if no flag is set. A loop
/// knows its operator and whether it counts.
fn fold_flagged(op: Op, counts: bool, identity: i64, lanes: FlaggedLanes<'_>) -> Option<i64>
    requires { identity_of op ≡ Some identity }
    ensures { result ≡ folded_values (value_of op) counts (values_in lanes.entry) }
{
    match op {
        Op::Sum if counts => count_flagged(lanes),
        _ if counts => fold_each_flagged(op, true, identity, lanes),
        _ => with_known!(op, known => {
            fold_each_flagged(known, false, known_identity(known, identity), lanes)
        }),
    }
}

/// How many values have their flag set, as the fold of a 1 for each of them; `None` if no flag is set. It reads no
/// value.
fn count_flagged(lanes: FlaggedLanes<'_>) -> Option<i64>
    ensures { result ≡ folded_values (value_of Op.Sum) true (values_in lanes.entry) }
{
    let FlaggedLanes { flags, set, .. } = lanes;
    let mut missed: usize = 0;
    for lane in 0..flags.len() {
        missed += if set.holds(flags[lane]) { 0 } else { 1 };
    }
    if missed == flags.len() {
        None
    } else {
        Some((flags.len() - missed) as i64)
    }
}

/// The identity of an operator, which a compiler knows if it knows the operator.
fn known_identity(op: Op, identity: i64) -> i64
    requires { identity_of op ≡ Some identity }
    ensures { result ≡ identity }
{
    op.identity().unwrap_or(identity)
}

/// The fold of the values whose flag is set, by one operator; `None` if no flag is set. For a value whose flag isn't
/// set it folds the identity. It reads each value before it looks at the flag, so no lane needs a branch.
fn fold_each_flagged(op: Op, counts: bool, identity: i64, lanes: FlaggedLanes<'_>) -> Option<i64>
    requires { identity_of op ≡ Some identity }
    ensures { result ≡ folded_values (value_of op) counts (values_in lanes.entry) }
{
    let FlaggedLanes {
        values,
        flags,
        set,
        ..
    } = lanes;
    let mut missed: usize = 0;
    let mut folded = identity;
    for lane in 0..flags.len() {
        let passes = set.holds(flags[lane]);
        missed += if passes { 0 } else { 1 };
        let taken = counted_value(counts, values.at_lane(lane));
        let value = if passes { taken } else { identity };
        folded = op.apply(folded, value);
    }
    if missed == flags.len() {
        None
    } else {
        Some(folded)
    }
}

/// The fold of two folds side by side. Each of them may be of no item.
pub(crate) fn joined(op: Op, left: Option<i64>, right: Option<i64>) -> Option<i64>
    ensures { result ≡ joined_value (value_of op) left right }
{
    match (left, right) {
        (left, None) => left,
        (None, right) => right,
        (Some(left), Some(right)) => Some(op.apply(left, right)),
    }
}

/// The value, or a 1 in its place.
fn counted_value(counts: bool, value: i64) -> i64
    ensures { result ≡ each_one counts value }
{
    if counts { 1 } else { value }
}
