//! The plain sources of a job: how many values they have, and items of them.

ghost use Rattle.std.specs.Prelude.{◌≡◌, ◌+◌, ◌≤◌, ◌-◌, ◌<◌, ◌^◌, min, drop, length, pos, take, ◌+ℤ◌};
ghost use Rattle.std.specs.Prelude.{IfNone, IfSome};
ghost use Rattle.trace.specs.Cover.{counted, distance, placed};
ghost use Rattle.batch_eval.specs.BatchItems.{batch_items};
ghost use Rattle.job_language.specs.Jobs.{source_of, sources_of};
ghost use Rattle.job_meaning.specs.Walks.{plain_values, values_of};

use batch_eval::BatchItems;
use job_language::PlainSource;
use prefix_walks::Portion;
use trace::{MAX_SOURCE_SIZE, RangeItems};

/// The plain sources of a job, one after the other, with at most 2^62 values.
#[derive(Clone, Copy)]
pub(crate) struct PlainSources<'a, 'c> {
    pub(crate) sources: &'a [PlainSource<'c>],
    /// How many values they have.
    pub(crate) size: u64,
    ghost few: { length (values_of (sources_of sources.now)) ≤ 2 ^ 62 },
    ghost measured: { size ≡ length (values_of (sources_of sources.now)) },
}

impl<'a, 'c> PlainSources<'a, 'c> {
    /// These sources; `None` if they have more than 2^62 values.
    pub(crate) fn of(sources: &'a [PlainSource<'c>]) -> Option<PlainSources<'a, 'c>>
        ensures some { IfSome result (λ plain. plain.sources.now ≡ sources.now) }
        ensures none { IfNone result (2 ^ 62 < length (values_of (sources_of sources.now))) }
    {
        let size = total_size(sources);
        if size > MAX_SOURCE_SIZE {
            return None;
        }
        Some(PlainSources { sources, size })
    }
}

/// How many integers there are from one up to, not with, another.
fn distance(from: i64, to: i64) -> u64
    ensures { result ≡ distance from to }
{
    if from < to { to.abs_diff(from) } else { 0 }
}

/// How many there are up to and with it, or the greatest `u64` if there are more.
fn closed_distance(from: i64, to: i64) -> u64
    ensures { result ≡ min (distance from (to +ℤ pos 1)) (2 ^ 64 - 1) }
{
    if from > to {
        return 0;
    }
    to.abs_diff(from).saturating_add(1)
}

/// The number of values of a plain source, or the greatest `u64` if it is larger.
#[tactic(auto, using(crate::proofs::LentLemmas::counted_size, crate::proofs::LentLemmas::counted_least))]
pub(crate) fn plain_size(source: &PlainSource) -> u64
    ensures { result ≡ min (length (plain_values (source_of source.now))) (2 ^ 64 - 1) }
{
    match source {
        PlainSource::Range { from, to } => distance(*from, *to),
        PlainSource::RangeClosed { from, to } => closed_distance(*from, *to),
        PlainSource::Values(values) => values.len() as u64,
        PlainSource::Column(cells) => cells.len() as u64,
        PlainSource::Result(_) => 0,
    }
}

/// The number of values of several sources, or the greatest `u64` if it is larger.
fn total_size(sources: &[PlainSource]) -> u64
    ensures { result ≡ min (length (values_of (sources_of sources.now))) (2 ^ 64 - 1) }
{
    let Some((source, later)) = sources.split_first() else {
        return 0;
    };
    plain_size(source).saturating_add(total_size(later))
}

/// Some items of a source, where they lie; the first of them has the place `origin`.
pub(crate) fn items_of<'a>(
    source: &'a PlainSource<'_>,
    origin: u64,
    portion: Portion,
) -> BatchItems<'a>
    requires within { portion.start + portion.count ≤ length (plain_values (source_of source.now)) }
    requires short { length (plain_values (source_of source.now)) ≤ 2 ^ 62 }
    requires few { origin + portion.count ≤ 2 ^ 62 }
    ensures { batch_items result
        ≡ placed origin (take portion.count (drop portion.start (plain_values (source_of source.now)))) }
{
    if portion.count == 0 {
        return BatchItems::placed(origin, &[]);
    }
    let first = portion.start as usize;
    let end = (portion.start + portion.count) as usize;
    match source {
        PlainSource::Range { from, to } => range_items(origin, *from, *to - 1, portion),
        PlainSource::RangeClosed { from, to } => range_items(origin, *from, *to, portion),
        PlainSource::Values(values) => BatchItems::placed(origin, &values[first..end]),
        PlainSource::Column(cells) => BatchItems::placed(origin, &cells[first..end]),
        PlainSource::Result(_) => BatchItems::placed(origin, &[]),
    }
}

/// Some of the integers from one up to and with another; the first of them has the place `origin`.
fn range_items<'a>(origin: u64, from: i64, last: i64, portion: Portion) -> BatchItems<'a>
    requires some { 0 < portion.count }
    requires within { portion.start + portion.count ≤ distance from (last +ℤ pos 1) }
    requires short { portion.start + portion.count ≤ 2 ^ 62 }
    requires few { origin + portion.count ≤ 2 ^ 62 }
    ensures { batch_items result ≡ placed origin (counted (from +ℤ pos portion.start) portion.count) }
{
    BatchItems::Range(RangeItems {
        origin,
        first: from + portion.start as i64,
        count: portion.count,
    })
}
