//! The places of items at lanes, and the cells of columns at these places.

ghost use Rattle.batch_eval.specs.Batches.{CountsUp, origin_at, wanted};
ghost use Rattle.batch_eval.specs.Choices.{IsSame};
ghost use Rattle.batch_eval.specs.Lanes.{Reaches, at};
ghost use Rattle.batch_eval.specs.Rows.{HasRows, row_at};
ghost use Rattle.lambda_values.specs.Wrap.{wrap};
ghost use Rattle.std.specs.Int.{w64, cast_unsigned};
ghost use Rattle.std.specs.Prelude.{◌≡◌, ◌+◌, ◌<◌, ◌≤◌, ℕ, IfSome, None, Ok, length, pos, slice_index, true};

use crate::choose::is_wanted;
use crate::reached::{Reached, all};
use crate::register::Operand;
use lambda_values::Item;

/// The places of items: they count up from the first one, or are listed, or are in a register.
#[derive(Clone, Copy)]
pub(crate) enum Rows<'a> {
    From(u64),
    Listed(&'a [u64]),
    Moved(&'a [i64]),
}

impl<'a> Rows<'a> {
    /// The places of lanes, which count up from a start, or are listed.
    pub(crate) fn of(start: Option<u64>, places: &'a [u64]) -> Rows<'a>
        ensures place { (k : ℕ) → row_at result k ≡ origin_at start places.now k }
        ensures has { (n : ℕ) → CountsUp start n → (start ≡ None → n ≤ length places.now) → HasRows result n }
    {
        match start {
            Some(first) => Rows::From(first),
            None => Rows::Listed(places),
        }
    }

    /// The place of a lane.
    pub(crate) fn at(self, lane: usize) -> u64
        requires { HasRows self (lane + 1) }
        ensures { result ≡ row_at self.entry lane }
    {
        match self {
            Rows::From(first) => first + lane as u64,
            Rows::Listed(places) => places[lane],
            Rows::Moved(register) => register[lane].cast_unsigned(),
        }
    }
}

/// The cells at the first lanes, where they lie, if their places count up.
pub(crate) fn cells_in_place<'a>(cells: &'a [i64], rows: Rows<'_>, live: usize) -> Option<&'a [i64]>
    requires { HasRows rows live }
    ensures lanes { IfSome result (λ xs. live ≤ length xs.now) }
    ensures cells { IfSome result (λ xs. (k : ℕ) → k < live → at xs.now k ≡ at cells.now (row_at rows.entry k)) }
{
    let Rows::From(first) = rows else {
        return None;
    };
    let count = cells.len() as u64;
    if first > count || count - first < live as u64 {
        return None;
    }
    Some(&cells[first as usize..])
}

/// The cell of a row; 0 if there is none.
fn cell_in(cells: &[i64], row: u64) -> i64
    ensures { result ≡ at cells.now row }
{
    if row < cells.len() as u64 {
        cells[row as usize]
    } else {
        0
    }
}

/// Puts the cells at the first lanes into a register.
pub(crate) fn gather_cells(cells: &[i64], rows: Rows<'_>, live: usize, out: &mut [i64]) -> Reached
    requires rows { HasRows rows live }
    requires out { live ≤ length out.old }
    ensures { Reaches (λ k. Ok (at cells.now (row_at rows.entry k))) (at out.new) live result }
{
    for lane in 0..live {
        out[lane] = cell_in(cells, rows.at(lane));
    }
    all(live)
}

/// Puts the places at the first lanes into a register.
pub(crate) fn number_rows(rows: Rows<'_>, live: usize, out: &mut [i64]) -> Reached
    requires rows { HasRows rows live }
    requires out { live ≤ length out.old }
    ensures { Reaches (λ k. Ok (wrap (pos (row_at rows.entry k)))) (at out.new) live result }
{
    for lane in 0..live {
        out[lane] = row_in(rows.at(lane));
    }
    all(live)
}

/// A place as a number.
fn row_in(place: u64) -> i64
    ensures { result ≡ wrap (pos place) }
{
    Item {
        origin: place,
        value: 0,
    }
    .row()
}

/// Puts the places of the lanes whose flag is as it is wanted into a register, one after the other, if an operand asks
/// for them.
pub(crate) fn gather_rows(
    operand: Operand<'_>,
    flags: &[i64],
    kind: bool,
    live: usize,
    rows: Rows<'_>,
    out: &mut [i64],
)
    requires flags { live ≤ length flags.now }
    requires rows { HasRows rows live }
    requires out { live ≤ length out.old }
    ensures { (j : ℕ) → j < length (wanted kind flags.now live) → IsSame operand.entry
        (cast_unsigned w64 (at out.new j)) (row_at rows.entry (slice_index (wanted kind flags.now live) j)) }
{
    if !is_placeless(operand) {
        gather_places(flags, kind, live, rows, out);
    }
}

/// Puts the places of the lanes whose flag is as it is wanted into a register, one after the other.
fn gather_places(flags: &[i64], kind: bool, live: usize, rows: Rows<'_>, out: &mut [i64])
    requires flags { live ≤ length flags.now }
    requires rows { HasRows rows live }
    requires out { live ≤ length out.old }
    ensures { (j : ℕ) → j < length (wanted kind flags.now live)
        → cast_unsigned w64 (at out.new j) ≡ row_at rows.entry (slice_index (wanted kind flags.now live) j) }
{
    let mut kept = 0;
    for i in 0..live {
        out[kept] = signed(rows.at(i));
        if is_wanted(flags[i], kind) {
            kept += 1;
        }
    }
}

/// A place as the 64 bits of a number.
fn signed(place: u64) -> i64
    ensures { cast_unsigned w64 result ≡ place }
{
    place.cast_signed()
}

/// Whether an operand has neither cells nor rows.
fn is_placeless(operand: Operand<'_>) -> bool
    ensures { result ≡ true → (i j : ℕ) → IsSame operand.entry i j }
{
    match operand {
        Operand::Long(expr) => expr.is_placeless(),
        Operand::Bool(test) => test.is_placeless(),
        Operand::Flag(_) => true,
    }
}
