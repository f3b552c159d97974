//! The values of an array, which contracts see as a list.

ghost use Rattle.std.specs.Prelude.{◌≡◌, flat_map, IfOk, IfSome};

use std::alloc::Global;
use std::marker::Model;
use trace::NoMemory;

/// The values of an array, in order. Contracts see the list of them.
///
/// They are stored in the pieces in which they were made, so that an answer takes them over and copies none.
#[derive(Debug, Drop)]
pub struct Values {
    pieces: Vec<Vec<i64>>,
}

impl Model for Values {
    ghost use Rattle.std.specs.Prelude.{List, ℤ, flat_map};

    ghost Value = { List ℤ };

    ghost view = { λ values. flat_map (λ piece. piece.items) values.pieces.items };
}

impl Values {
    /// The values of pieces, one piece after the other. The pieces are moved in; no value is copied.
    pub fn from_pieces(pieces: Vec<Vec<i64>>) -> Values
        ensures { result ≡ flat_map (λ piece. piece.items) pieces.items }
    {
        Values { pieces }
    }

    /// The values of a vector, which is moved in as the only piece; no value is copied.
    pub fn from_vec(items: Vec<i64>) -> Result<Values, NoMemory>
        ensures { IfOk result (λ values. values ≡ items.items) }
    {
        let mut pieces = Vec::with_capacity(*items.allocator(), 1)?;
        pieces.push(items)?;
        Ok(Values { pieces })
    }

    /// The pieces: their values, one piece after the other, are the values.
    pub fn pieces(&self) -> &[Vec<i64>]
        ensures { flat_map (λ piece. piece.items) result.now ≡ self.now }
    {
        &self.pieces
    }

    /// The values as a slice, if they lie in one piece, or if there is no piece.
    pub fn as_slice(&self) -> Option<&[i64]>
        ensures { IfSome result (λ slice. slice.now ≡ self.now) }
    {
        let Some((piece, later)) = self.pieces.split_first() else {
            return Some(&[]);
        };
        if later.is_empty() {
            return Some(piece);
        }
        None
    }

    /// The values copied into one vector, 8 bytes each.
    pub fn to_vec(&self, alloc: Global) -> Result<Vec<i64>, NoMemory>
        ensures { IfOk result (λ values. values.items ≡ self.now) }
    {
        copied(alloc, &self.pieces)
    }

    /// The values in one vector: the only piece itself, or a copy of several.
    ///
    /// For other programs: `streamrun` prints and walks the values where they lie.
    pub fn into_vec(mut self, alloc: Global) -> Result<Vec<i64>, NoMemory>
        ensures { IfOk result (λ values. values.items ≡ self) }
    {
        if self.pieces.len() == 1 {
            if let Some(only) = self.pieces.pop() {
                return Ok(only);
            }
        }
        copied(alloc, &self.pieces)
    }

    /// These values in one piece at most, so that `as_slice` gives them. The values of several pieces are copied once.
    pub fn in_one_piece(self, alloc: Global) -> Result<Values, NoMemory>
        ensures { IfOk result (λ values. values ≡ self) }
    {
        if self.pieces.len() < 2 {
            return Ok(self);
        }
        Values::from_vec(copied(alloc, &self.pieces)?)
    }
}

/// How many values there are in pieces, or the greatest `usize` if there are more.
fn count_in(pieces: &[Vec<i64>]) -> usize {
    let mut count = 0usize;
    for piece in pieces {
        count = count.saturating_add(piece.len());
    }
    count
}

/// The values of pieces, copied.
fn copied(alloc: Global, pieces: &[Vec<i64>]) -> Result<Vec<i64>, NoMemory>
    ensures { IfOk result (λ values. values.items ≡ flat_map (λ piece. piece.items) pieces.now) }
{
    let mut values = Vec::new(alloc);
    values.reserve(count_in(pieces))?;
    for piece in pieces {
        values.extend_from_slice(piece)?;
    }
    Ok(values)
}
