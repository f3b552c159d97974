//! How many values an item of a leg becomes, if that is known before a run.
//!
//! No answer rests on it: a run cuts finer where items become many.

use crate::sources::plain_size;
use job_language::PlainSource;
use lambda_values::{Env, InnerExpr, Item, LongExpr};
use trace::Stage;

/// How many items of a source are looked at.
const LOOKS: u64 = 5;

/// An item that is taken through stages to see how many values it becomes.
#[derive(Drop)]
struct Sample<'e> {
    item: Item,
    /// The values of names; none if the item isn't known.
    env: Option<&'e Env<'e>>,
}

impl Sample<'_> {
    /// The value of an expression, if it is known; 0 after a fault.
    fn value(&self, expr: &LongExpr) -> Option<i64> {
        match (expr, self.env) {
            (LongExpr::Number(number), _) => Some(*number),
            (_, Some(env)) => Some(expr.eval_at(self.item, env).unwrap_or(0)),
            (_, None) => None,
        }
    }

    /// Turns into the value of an expression.
    fn turn_to(&mut self, expr: &LongExpr) {
        match self.value(expr) {
            Some(value) => self.item.value = value,
            None => self.env = None,
        }
    }

    /// Turns into a value of an inner stream. How many that has, if it is known; 1 at least.
    fn enter(&mut self, inner: &InnerExpr) -> Option<u64> {
        let (from, to) = match inner {
            InnerExpr::Range(from, to) | InnerExpr::RangeClosed(from, to) => (from, to),
            InnerExpr::Of(operands) => {
                if let Some(first) = operands.exprs().first() {
                    self.turn_to(first);
                }
                return Some((operands.exprs().len() as u64).max(1));
            }
        };
        let (from, to) = (self.value(from)?, self.value(to)?);
        self.item.value = (from / 2).wrapping_add(to / 2);
        Some(if from < to { from.abs_diff(to) } else { 1 })
    }

    /// How many values it becomes in these stages, if that is known and filters let it through; 1 at least.
    fn through(&mut self, stages: &[Stage]) -> Option<u64> {
        let mut values = 1u64;
        for stage in stages {
            match stage {
                Stage::Map(image) => self.turn_to(image),
                Stage::Filter(_) => {}
                Stage::FlatMap(inner) => values = values.saturating_mul(self.enter(inner)?),
            }
        }
        Some(values)
    }
}

/// How many values an item becomes in these stages, by the numbers in their lambdas alone.
pub(crate) fn values_of_any(stages: &[Stage]) -> Option<u64> {
    let mut any = Sample {
        item: Item::alone(0),
        env: None,
    };
    any.through(stages)
}

/// The value at a position of a source.
fn value_at(source: &PlainSource, position: u64) -> Option<i64> {
    match source {
        PlainSource::Range { from, .. } | PlainSource::RangeClosed { from, .. } => {
            Some(from.wrapping_add(position.cast_signed()))
        }
        PlainSource::Values(values) => values.get(position as usize).copied(),
        PlainSource::Column(cells) => cells.get(position as usize).copied(),
        PlainSource::Result(_) => None,
    }
}

/// The value at a position of sources.
fn value_in(sources: &[PlainSource], position: u64) -> Option<i64> {
    let mut left = position;
    for source in sources {
        let size = plain_size(source);
        if left < size {
            return value_at(source, left);
        }
        left -= size;
    }
    None
}

/// Whether each item becomes one at most in these stages.
pub(crate) fn are_single(stages: &[Stage]) -> bool {
    !stages
        .iter()
        .any(|stage| matches!(stage, Stage::FlatMap(_)))
}

/// How many values an item at these positions of sources becomes in these stages, by the average of some: of `count`
/// items from the first one on.
pub(crate) fn values_of_some(
    stages: &[Stage],
    sources: &[PlainSource],
    first: u64,
    count: u64,
    env: &Env,
) -> Option<u64> {
    if are_single(stages) {
        return Some(1);
    }
    let mut values = 0u64;
    for look in 0..LOOKS {
        let further = count.saturating_sub(1).saturating_mul(look) / (LOOKS - 1);
        let origin = first.saturating_add(further);
        if let Some(value) = value_in(sources, origin) {
            let mut known = Sample {
                item: Item { origin, value },
                env: Some(env),
            };
            values = values.saturating_add(known.through(stages)?);
        }
    }
    Some(values / LOOKS)
}
