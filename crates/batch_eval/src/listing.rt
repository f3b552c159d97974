//! Registers that are filled from elsewhere.

ghost use Rattle.batch_eval.specs.Batches.{CountsUp, going_up, item_at, origin_at};
ghost use Rattle.batch_eval.specs.Lanes.{at};
ghost use Rattle.batch_eval.specs.Pours.{inner_items};
ghost use Rattle.std.specs.Prelude.{◌≡◌, ◌≢◌, ℕ, ◌+◌, ◌*◌, ◌<◌, ◌≤◌, ◌^◌, None};
ghost use Rattle.std.specs.Prelude.{Some, length, slice_get, slice_index, take};

use crate::register::LANES;
use trace::{InnerItems, SourceItems};

/// Copies elements to the front of others.
pub(crate) fn copy_front<T: Copy>(from: &[T], to: &mut [T])
    requires { length from.now ≤ length to.old }
    ensures front { take (length from.now) to.new ≡ from.now }
    ensures size { length to.new ≡ length to.old }
{
    to[..from.len()].copy_from_slice(from);
}

/// The places of lanes, listed.
pub(crate) fn list_places(start: Option<u64>, live: usize, origins: &mut [u64])
    requires counts { CountsUp start live }
    requires within { live ≤ length origins.old }
    ensures { (k : ℕ) → k < live → slice_index origins.new k ≡ origin_at start origins.old k }
{
    if let Some(start) = start {
        for lane in 0..live {
            origins[lane] = start + lane as u64;
        }
    }
}

/// Numbers that go up by a step, lane by lane. In a function of its own the constants of the loop stay in registers.
#[inline(never)]
pub(crate) fn list_numbers(first: i64, by: i64, count: usize, values: &mut [i64])
    requires { count ≤ length values.old }
    ensures { (k : ℕ) → k < count → at values.new k ≡ going_up first by k }
{
    let mut number = first;
    for lane in 0..count {
        values[lane] = number;
        number = number.wrapping_add(by);
    }
}

/// The items of a source from a position on, from a lane on; the lanes before it stay.
pub(crate) fn list_items<I: SourceItems>(
    source: &I,
    position: u64,
    first: usize,
    count: usize,
    origins: &mut [u64],
    values: &mut [i64],
)
    requires within { position + count ≤ length (I.items source.now) }
    requires bound { length (I.items source.now) < 2 ^ 64 }
    requires origins { first + count ≤ length origins.old }
    requires values { first + count ≤ length values.old }
    ensures items { (k : ℕ) → k < count
        → slice_get (I.items source.now) (position + k) ≡ Some (item_at None origins.new values.new (first + k)) }
    ensures before { (k : ℕ) → k < first
        → item_at None origins.new values.new k ≡ item_at None origins.old values.old k }
{
    for lane in 0..count {
        let item = source.item_at(position + lane as u64);
        origins[first + lane] = item.origin;
        values[first + lane] = item.value;
    }
}

/// The values of an inner stream from a position on, from a lane on; the lanes before it stay. Integers in a row have
/// a loop of their own, and so do the values of a list: neither loop asks at each lane which of them it has.
pub(crate) fn list_values(
    source: &InnerItems<'_>,
    position: u64,
    first: usize,
    count: usize,
    origins: &mut [u64],
    values: &mut [i64],
)
    requires within { position + count ≤ length (inner_items source.now) }
    requires bound { length (inner_items source.now) < 2 ^ 64 }
    requires origins { first + count ≤ length origins.old }
    requires values { first + count ≤ length values.old }
    ensures items { (k : ℕ) → k < count
        → slice_get (inner_items source.now) (position + k) ≡ Some (item_at None origins.new values.new (first + k)) }
    ensures before { (k : ℕ) → k < first
        → item_at None origins.new values.new k ≡ item_at None origins.old values.old k }
{
    match source.run {
        Some(run) => {
            let row = InnerItems {
                run: Some(run),
                ..*source
            };
            list_items(&row, position, first, count, origins, values);
        }
        None => {
            let list = InnerItems {
                run: None,
                ..*source
            };
            list_items(&list, position, first, count, origins, values);
        }
    }
}

/// N, which is known where a loop is compiled, unless it is 0; else the number.
pub(crate) fn known<const N: usize>(number: usize) -> usize
    requires { N ≢ 0 → N ≡ number }
    ensures { result ≡ number }
{
    if N == 0 { number } else { N }
}

/// What this many registers hold at a lane, for items at one place.
#[derive(Clone, Copy)]
pub(crate) struct Row<'a> {
    pub(crate) registers: &'a [i64],
    pub(crate) lane: usize,
    pub(crate) count: usize,
    pub(crate) origin: u64,
}

/// The items of a row, from a lane on; the lanes before that stay.
pub(crate) fn list_row<const N: usize>(
    row: Row<'_>,
    first: usize,
    origins: &mut [u64],
    values: &mut [i64],
)
    requires lane { row.lane < 1024 }
    requires known { N ≢ 0 → N ≡ row.count }
    requires registers { row.count * 1024 ≤ length row.registers.now }
    requires origins { first + row.count ≤ length origins.old }
    requires values { first + row.count ≤ length values.old }
    ensures items { (k : ℕ) → k < row.entry.count → item_at None origins.new values.new (first + k)
        ≡ record { origin = row.entry.origin; value = at row.entry.registers.now (k * 1024 + row.entry.lane) } }
    ensures before { (k : ℕ) → k < first
        → item_at None origins.new values.new k ≡ item_at None origins.old values.old k }
{
    for k in 0..known::<N>(row.count) {
        values[first + k] = row.registers[k * LANES + row.lane];
        origins[first + k] = row.origin;
    }
}
