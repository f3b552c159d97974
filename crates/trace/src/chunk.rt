//! The items of a walk so far, and how the walk ended.

ghost use Rattle.std.specs.Prelude.{◌≡◌, ◌≢◌, [], ◌∷◌, ◌++◌, All, OnOk};
ghost use Rattle.std.specs.Prelude.{OnErr, IfErr, IfOk, ⊤, flat_map, map};
ghost use Rattle.trace.specs.Trace.{trace, append};
ghost use Rattle.trace.specs.Sinks.{flow_at};
ghost use Rattle.trace.specs.declared.item.End.TheVariants as end;

mod rewriting;
mod searching;
mod shortening;

use crate::NoMemory;
use crate::item::End;
use crate::sink::{Flow, LongSink};
use lambda_values::Item;
pub use rewriting::Rewrite;
pub use searching::EndTest;
use std::alloc::Global;
use std::marker::Model;

/// The items that a walk gave, and how it ended.
///
/// Contracts see a chunk as the trace of that walk. As a sink it takes items until it has ended.
/// The items are stored in pieces: joining two chunks moves the pieces and no item.
///
/// For other programs: `streamrun` keeps no walk as a chunk.
#[derive(Drop)]
pub struct Chunk {
    pieces: Vec<Vec<Item>>,
    end: End,
    ghost no_empty_piece: { All (λ piece. piece.items ≢ []) pieces.items },
}

impl Model for Chunk {
    ghost use Rattle.std.specs.Prelude.{flat_map};
    ghost use Rattle.trace.specs.Trace.{Trace, trace};

    ghost Value = { Trace };

    ghost view = { λ chunk. trace (flat_map (λ piece. piece.items) chunk.pieces.items) chunk.end };
}

impl Chunk {
    /// A chunk without items, with this end. It takes no memory.
    pub fn ending(alloc: Global, end: End) -> Chunk
        ensures { result ≡ trace [] end }
    {
        Chunk {
            pieces: Vec::new(alloc),
            end,
        }
    }

    /// Adds an item after the others, in amortized constant time.
    ///
    /// If the allocation fails, the chunk stays as it was.
    pub fn push(&mut self, item: Item) -> Result<(), NoMemory>
        requires { self.old.ending ≡ End.Done }
        ensures ok { OnOk result (self.new ≡ trace (self.old.items ++ item ∷ []) End.Done) }
        ensures err { OnErr result (self.new ≡ self.old) }
    {
        match self.pieces.last_mut() {
            Some(piece) => piece.push(item)?,
            None => {
                let mut piece = Vec::new(*self.pieces.allocator());
                piece.push(item)?;
                self.pieces.push(piece)?;
            }
        }
        Ok(())
    }

    /// Goes on with another chunk: its items, and then its end. It moves the pieces of `right` and
    /// no item.
    ///
    /// A chunk that ends in a fault stays as it is, and `right` is dropped. If the allocation fails,
    /// `right` comes back and the chunk stays as it was.
    pub fn append(&mut self, mut right: Chunk) -> Result<(), Chunk>
        ensures ok { OnOk result (self.new ≡ append self.old right) }
        ensures err { OnErr result (self.new ≡ self.old) }
        ensures right_returned { IfErr result (λ chunk. chunk ≡ right) }
        ensures refused { OnErr result ((self.old.ending ≡ End.Done) × (right.items ≢ [])) }
    {
        if let End::Fault(_) = self.end {
            return Ok(());
        }
        if self.pieces.append(&mut right.pieces).is_err() {
            return Err(right);
        }
        self.end = right.end;
        Ok(())
    }

    /// Ends the chunk as said, unless a fault has ended it. It takes no memory.
    pub fn end_with(&mut self, end: End)
        ensures { self.new ≡ append self.old (trace [] end) }
    {
        if let End::Done = self.end {
            self.end = end;
        }
    }

    /// The pieces: the items of the first, then the items of the second, and so on.
    pub fn pieces(&self) -> &[Vec<Item>]
        ensures { flat_map (λ piece. piece.items) result.now ≡ self.now.items }
    {
        self.pieces.as_slice()
    }

    /// The values of a walk that is done, in encounter order, each copied once.
    ///
    /// If the allocation fails, the chunk comes back. For other programs: `streamrun` gathers the values of arrays in
    /// `job_plan`.
    pub fn into_values(self, alloc: Global) -> Result<Vec<i64>, Chunk>
        requires { self.ending ≡ End.Done }
        ensures ok { IfOk result (λ values. values.items ≡ map (λ x. x.value) self.items) }
        ensures err { IfErr result (λ chunk. chunk ≡ self) }
    {
        match values_in(alloc, &self.pieces) {
            Ok(values) => Ok(values),
            Err(_) => Err(self),
        }
    }

    /// How the walk ended.
    pub fn end(&self) -> End
        ensures { result ≡ self.now.ending }
    {
        self.end
    }
}

/// The values of the items in these pieces.
fn values_in(alloc: Global, pieces: &[Vec<Item>]) -> Result<Vec<i64>, NoMemory>
    ensures { IfOk result (λ values. values.items ≡ map (λ x. x.value) (flat_map (λ piece. piece.items) pieces.now)) }
{
    let mut values = Vec::new(alloc);
    for piece in pieces {
        for item in piece {
            values.push(item.value)?;
        }
    }
    Ok(values)
}

impl LongSink for Chunk {
    ghost has_taken = { λ chunk items. chunk ≡ trace items end.Done };

    ghost flow = { λ chunk. flow_at chunk.ending };

    ghost takes_memory = { ⊤ };

    fn accept(&mut self, item: Item) -> Result<Flow, NoMemory> {
        self.push(item)?;
        Ok(Flow::More)
    }
}
