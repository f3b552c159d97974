//! The values of a piece, for `toArray`.

ghost use Rattle.std.specs.Prelude.{◌≡◌, ◌<◌, ◌++◌, [], length, flat_map, OnOk, OnErr, IfErr};
ghost use Rattle.trace.specs.declared.item.End.TheVariants as end;
ghost use Rattle.job_plan.specs.Arrays.{array, array_append};
ghost use Rattle.job_meaning.specs.Walks.{unless_fault};
ghost use Rattle.job_plan.specs.declared.part.Part.TheVariants as part;

use crate::end_part::{EndPart, LastStage, is_fault};
use batch_eval::LaneItems;
use job_meaning::{Answer, Values};
use std::alloc::Global;
use std::marker::Model;
use trace::{End, NoMemory};

/// The values of a piece, without the places of its items, and how the walk ended. Contracts see just that.
///
/// The values are stored in pieces: the values of a batch are copied at once, and joining two parts moves the pieces
/// and no value.
#[derive(Drop)]
pub struct ArrayPart {
    pieces: Vec<Vec<i64>>,
    end: End,
}

impl Model for ArrayPart {
    ghost use Rattle.std.specs.Prelude.{flat_map};
    ghost use Rattle.job_plan.specs.Arrays.{AbstractArray, array};

    ghost Value = { AbstractArray };

    ghost view = { λ part. array (flat_map (λ piece. piece.items) part.pieces.items) part.end };
}

impl ArrayPart {
    /// The part of no item. It takes no memory.
    pub fn none(alloc: Global) -> ArrayPart
        ensures { result ≡ array [] end.Done }
    {
        ArrayPart {
            pieces: Vec::new(alloc),
            end: End::Done,
        }
    }

    /// Adds values after the others, in amortized constant time for each.
    ///
    /// If the allocation fails, the part stays as it was.
    pub(crate) fn push_all(&mut self, values: &[i64]) -> Result<(), NoMemory>
        requires { self.old.ending ≡ end.Done }
        ensures ok { OnOk result (self.new ≡ array (self.old.values ++ values.now) end.Done) }
        ensures err { OnErr result (self.new ≡ self.old) }
        ensures refused { OnErr result (0 < length values.now) }
    {
        if values.is_empty() {
            return Ok(());
        }
        add_values(&mut self.pieces, values)
    }

    /// Takes room for this many more values, unless the memory for it is refused. Contracts see no change.
    pub(crate) fn reserve(&mut self, values: usize)
        ensures { self.new ≡ self.old }
    {
        if values > 0 {
            add_room(&mut self.pieces, values);
        }
    }

    /// Ends so, unless a fault has ended the part. It takes no memory.
    pub(crate) fn end_with(&mut self, end: End)
        ensures { self.new ≡ array_append self.old (array [] end) }
    {
        if let End::Done = self.end {
            self.end = end;
        }
    }

    /// Goes on with another part. It moves the pieces of `right` and no value.
    ///
    /// A part that ends in a fault stays as it is. If the allocation fails, `right` comes back and the part stays as it
    /// was.
    pub(crate) fn append(&mut self, mut right: ArrayPart) -> Result<(), ArrayPart>
        ensures ok { OnOk result (self.new ≡ array_append self.old right) }
        ensures err { OnErr result (self.new ≡ self.old) }
        ensures right_returned { IfErr result (λ part. part ≡ right) }
    {
        if let End::Fault(_) = self.end {
            return Ok(());
        }
        if self.pieces.append(&mut right.pieces).is_err() {
            return Err(right);
        }
        self.end = right.end;
        Ok(())
    }

    /// The values, or the fault that ended the walk. The pieces are moved into the answer; no value is copied.
    pub(crate) fn finish(self) -> Answer
        ensures { result ≡ unless_fault self.ending (Answer.Array self.values) }
    {
        match self.end {
            End::Done => Answer::Array(Values::from_pieces(self.pieces)),
            End::Fault(fault) => Answer::Fault(fault),
        }
    }
}

impl EndPart for ArrayPart {
    ghost as_part = { part.Array };

    fn push_all(
        &mut self,
        _last: LastStage<'_, '_>,
        lanes: LaneItems<'_>,
        _room: &mut [i64],
    ) -> Result<(), NoMemory> {
        ArrayPart::push_all(self, lanes.values)
    }

    fn end_with(&mut self, ending: End) {
        ArrayPart::end_with(self, ending);
    }

    fn is_settled(&self) -> bool {
        is_fault(self.end)
    }

    fn merge(mut self, right: ArrayPart) -> Result<ArrayPart, (ArrayPart, ArrayPart)> {
        match self.append(right) {
            Ok(()) => Ok(self),
            Err(right) => Err((self, right)),
        }
    }
}

/// Adds values to the last piece, or as the first one.
fn add_values(pieces: &mut Vec<Vec<i64>>, values: &[i64]) -> Result<(), NoMemory>
    ensures ok { OnOk result (flat_map (λ piece. piece.items) pieces.new.items
        ≡ flat_map (λ piece. piece.items) pieces.old.items ++ values.now) }
    ensures err { OnErr result
        (flat_map (λ piece. piece.items) pieces.new.items ≡ flat_map (λ piece. piece.items) pieces.old.items) }
{
    match pieces.last_mut() {
        Some(piece) => piece.extend_from_slice(values)?,
        None => {
            let mut piece = Vec::new(*pieces.allocator());
            piece.extend_from_slice(values)?;
            pieces.push(piece)?;
        }
    }
    Ok(())
}

/// Adds a piece without values that has room for this many, if there is memory for it.
fn add_room(pieces: &mut Vec<Vec<i64>>, values: usize)
    ensures { flat_map (λ piece. piece.items) pieces.new.items ≡ flat_map (λ piece. piece.items) pieces.old.items }
{
    if let Ok(piece) = Vec::with_capacity(*pieces.allocator(), values) {
        let _ = pieces.push(piece);
    }
}
