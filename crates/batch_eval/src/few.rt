//! The values of inner streams of few values each, put into a batch without a call for each item.

ghost use Rattle.batch_eval.specs.Batches.{CountsUp, item_at, lanes, origin_at};
ghost use Rattle.batch_eval.specs.InnerColumns.{ArePut, HaveOperands, IsMore, given, range_values, row};
ghost use Rattle.batch_eval.specs.Lanes.{at};
ghost use Rattle.lambda_values.specs.Earlier.{Numbers};
ghost use Rattle.lambda_values.specs.Streams.{inner_of, run_values};
ghost use Rattle.std.specs.Prelude.{◌≡◌, ◌≢◌, ◌+◌, ◌*◌, ◌-◌, ◌<◌, ◌≤◌, ℕ, ℤ, List, Result, ◌++◌, IfSome, None, Ok};
ghost use Rattle.std.specs.Prelude.{length};
ghost use Rattle.trace.specs.Stages.{flat_map, of_item};
ghost use Rattle.lambda_values.specs.declared.item.Item.{Item};

use crate::batch::{Batch, origin_of};
use crate::inner_columns::Columns;
use crate::listing::{Row, known, list_items, list_places, list_row};
use crate::register::LANES;
use lambda_values::{InnerExpr, Run, closed_range, range};
use trace::InnerItems;

/// How far values were put: of how many items, and the lane after the last value.
#[derive(Clone, Copy)]
struct Put {
    items: usize,
    next: usize,
}

/// The lanes from `from` on. The places of all lanes are counted up from the first lane's, or else listed.
#[derive(Clone, Copy)]
struct Places<'a> {
    from: usize,
    start: Option<u64>,
    listed: &'a [u64],
}

impl Batch {
    /// Adds the values of the inner streams at the items of a batch, from a position on, up to the first item whose
    /// operands are not there, whose values have a fault, or for whose values there is no space. The result is the
    /// position of that item.
    pub(crate) fn add_few(&mut self, columns: Columns<'_>, batch: &Batch, position: u64) -> u64
        requires position { position ≤ length batch.now.items }
        requires lanes { columns.lanes ≤ length batch.now.items }
        ensures reached { position ≤ result }
        ensures within { result ≤ length batch.now.items }
        ensures added { (stage : ℕ) (env : Numbers) → HaveOperands (inner_of columns.entry.inner.now)
            env batch.now.items columns.entry.lanes columns.entry.registers.now
            → (part : List Item) × (self.new.items ≡ self.old.items ++ part)
            × IsMore (of_item stage (flat_map (inner_of columns.entry.inner.now)) env)
            batch.now.items position result part }
    {
        list_places(self.start, self.live, &mut self.origins);
        self.start = None;
        let places = Places {
            from: position as usize,
            start: batch.start,
            listed: &batch.origins,
        };
        let put = put_values(
            columns,
            places,
            self.live,
            &mut self.origins,
            &mut self.values,
        );
        self.live = put.next;
        position + put.items as u64
    }
}

/// The integers of a range, or of a closed one, unless they are too many.
fn run_of<const CLOSED: bool>(from: i64, to: i64) -> Option<Run>
    ensures { IfSome result (λ run. range_values CLOSED from to ≡ Ok (run_values run)) }
{
    let run = if CLOSED {
        closed_range(from, to)
    } else {
        range(from, to)
    };
    run.ok()
}

/// Puts the values that come from the operands at lanes, from one on, into registers, after those that are there.
fn put_values(
    columns: Columns<'_>,
    places: Places<'_>,
    first: usize,
    origins: &mut [u64],
    values: &mut [i64],
) -> Put
    requires lanes { columns.lanes ≤ 1024 }
    requires places { columns.lanes ≤ length places.listed.now }
    requires counts { CountsUp places.start columns.lanes }
    requires first { first ≤ 1024 }
    requires origins { length origins.old ≡ 1024 }
    requires values { length values.old ≡ 1024 }
    ensures items { result.items ≤ columns.entry.lanes - places.entry.from }
    ensures put { ArePut (inner_of columns.entry.inner.now) columns.entry.registers.now places.entry.from
        (origin_at places.entry.start places.entry.listed.now) (lanes first (item_at None origins.old values.old))
        result.items result.next (item_at None origins.new values.new) }
{
    match columns.inner {
        InnerExpr::Range(..) => put_ranges::<false>(columns, places, first, origins, values),
        InnerExpr::RangeClosed(..) => {
            put_ranges::<true>(columns, places, first, origins, values)
        }
        InnerExpr::Of(operands) => match operands.exprs().len() {
            0 => Put {
                items: columns.lanes.saturating_sub(places.from),
                next: first,
            },
            1 => put_rows::<1>(1, columns, places, first, origins, values),
            2 => put_rows::<2>(2, columns, places, first, origins, values),
            3 => put_rows::<3>(3, columns, places, first, origins, values),
            4 => put_rows::<4>(4, columns, places, first, origins, values),
            many => put_rows::<0>(many, columns, places, first, origins, values),
        },
    }
}

/// Puts the values of ranges of one kind into registers, after the values that are there. Each kind has a loop of its
/// own: to ask for the kind at each item takes as long as to put its values.
fn put_ranges<const CLOSED: bool>(
    columns: Columns<'_>,
    places: Places<'_>,
    first: usize,
    origins: &mut [u64],
    values: &mut [i64],
) -> Put
    requires kind { (k : ℕ) → given (inner_of columns.inner.now) columns.registers.now k
        ≡ range_values CLOSED (at columns.registers.now k) (at columns.registers.now (1024 + k)) }
    requires lanes { columns.lanes ≤ 1024 }
    requires places { columns.lanes ≤ length places.listed.now }
    requires counts { CountsUp places.start columns.lanes }
    requires first { first ≤ 1024 }
    requires origins { length origins.old ≡ 1024 }
    requires values { length values.old ≡ 1024 }
    ensures items { result.items ≤ columns.entry.lanes - places.entry.from }
    ensures put { ArePut (inner_of columns.entry.inner.now) columns.entry.registers.now places.entry.from
        (origin_at places.entry.start places.entry.listed.now) (lanes first (item_at None origins.old values.old))
        result.items result.next (item_at None origins.new values.new) }
{
    let mut next = first;
    if columns.registers.len() < 2 * LANES {
        return Put { items: 0, next };
    }
    let count = columns.lanes.saturating_sub(places.from);
    for items in 0..count {
        let lane = places.from + items;
        let Some(run) = run_of::<CLOSED>(columns.registers[lane], columns.registers[LANES + lane])
        else {
            return Put { items, next };
        };
        if run.count > (LANES - next) as u64 {
            return Put { items, next };
        }
        let stream = InnerItems {
            origin: origin_of(places.start, places.listed, lane),
            run: Some(run),
            listed: &[],
        };
        list_items(&stream, 0, next, run.count as usize, origins, values);
        next += run.count as usize;
    }
    Put { items: count, next }
}

/// Puts the values of `of` with this many operands into registers, after the values that are there.
/// Each number of operands up to four has a loop of its own, by N; else N is 0.
fn put_rows<const N: usize>(
    operands: usize,
    columns: Columns<'_>,
    places: Places<'_>,
    first: usize,
    origins: &mut [u64],
    values: &mut [i64],
) -> Put
    requires some { 0 < operands }
    requires known { N ≢ 0 → N ≡ operands }
    requires kind { (k : ℕ)
        → given (inner_of columns.inner.now) columns.registers.now k ≡ Ok (row columns.registers.now k operands) }
    requires lanes { columns.lanes ≤ 1024 }
    requires places { columns.lanes ≤ length places.listed.now }
    requires counts { CountsUp places.start columns.lanes }
    requires first { first ≤ 1024 }
    requires origins { length origins.old ≡ 1024 }
    requires values { length values.old ≡ 1024 }
    ensures items { result.items ≤ columns.entry.lanes - places.entry.from }
    ensures put { ArePut (inner_of columns.entry.inner.now) columns.entry.registers.now places.entry.from
        (origin_at places.entry.start places.entry.listed.now) (lanes first (item_at None origins.old values.old))
        result.items result.next (item_at None origins.new values.new) }
{
    let width = known::<N>(operands);
    if columns.registers.len() / LANES < width {
        return Put {
            items: 0,
            next: first,
        };
    }
    let count = columns.lanes.saturating_sub(places.from);
    let items = count.min((LANES - first) / width);
    for item in 0..items {
        let lane = places.from + item;
        let row = Row {
            registers: columns.registers,
            lane,
            count: width,
            origin: origin_of(places.start, places.listed, lane),
        };
        list_row::<N>(row, first + item * width, origins, values);
    }
    Put {
        items,
        next: first + items * width,
    }
}
