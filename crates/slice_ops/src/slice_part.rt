//! What a slice keeps of the pieces of a stream, and how the pieces join in encounter order.

ghost use Rattle.std.specs.Prelude.{◌≡◌, ◌≢◌, ℕ, false, [], IfOk, IfErr, OnErr};
ghost use Rattle.lambda_values.specs.Earlier.{Numbers};
ghost use Rattle.trace.specs.Trace.{Trace, append};
ghost use Rattle.slice_ops.specs.Parts.{IsJoined, StandsFor, is_settled};
ghost use Rattle.slice_ops.specs.Slices.{AbstractSlice, slice_of, sliced};

use crate::shorten::{drop_while, limit, skip, take_while};
use lambda_values::{BoolExpr, Env};
use trace::{Chunk, End};

/// A stage that looks at a whole walk.
#[derive(Drop)]
pub enum Slice {
    /// `limit` of `LongStream`: the first items, up to a number of them.
    Limit(u64),
    /// `skip` of `LongStream`: all but the first items.
    Skip(u64),
    /// `takeWhile` of `LongStream`: the items before the first one at which the test is false.
    TakeWhile(BoolExpr),
    /// `dropWhile` of `LongStream`: the items from the first one on at which the test is false.
    DropWhile(BoolExpr),
}

/// What a slice keeps of a piece of a stream. For other programs: `streamrun` calls `SliceRest`.
#[derive(Drop)]
pub struct SlicePart<'a> {
    slice: &'a Slice,
    stage: u32,
    chunk: Chunk,
    /// Whether nothing after the piece matters.
    stopped: bool,
}

impl<'a> SlicePart<'a> {
    /// The part of a piece. The slice is the stage with this number. It takes no memory.
    pub fn of(slice: &'a Slice, stage: u32, mut chunk: Chunk, env: &Env) -> SlicePart<'a>
        ensures stands { StandsFor (slice_of slice.now) stage env.now result chunk }
    {
        let stopped = match slice {
            Slice::Limit(n) => limit(&mut chunk, *n),
            Slice::TakeWhile(test) => take_while(&mut chunk, stage, test, env),
            Slice::Skip(_) | Slice::DropWhile(_) => false,
        };
        SlicePart {
            slice,
            stage,
            chunk,
            stopped,
        }
    }

    /// The part of two pieces that lie side by side.
    ///
    /// If the allocation fails, both parts come back. It takes no memory if nothing matters after the left piece, or if
    /// the right one keeps no item.
    pub fn join(
        mut self,
        right: SlicePart<'a>,
    ) -> Result<SlicePart<'a>, (SlicePart<'a>, SlicePart<'a>)>
        ensures ok { IfOk result (λ part. (d : AbstractSlice) (stage : ℕ) (env : Numbers) (a b : Trace)
            → StandsFor d stage env self.entry a → StandsFor d stage env right.entry b
            → StandsFor d stage env part (append a b)) }
        ensures err { IfErr result (λ parts. (parts.0 ≡ self.entry) × (parts.1 ≡ right.entry)) }
        ensures refused { OnErr result ((is_settled self.entry ≡ false) × (right.entry.chunk.items ≢ [])) }
    {
        if self.stopped {
            return Ok(self);
        }
        let End::Done = self.chunk.end() else {
            return Ok(self);
        };
        let SlicePart {
            slice,
            stage,
            chunk,
            stopped,
        } = right;
        if let Err(chunk) = self.chunk.append(chunk) {
            let right = SlicePart {
                slice,
                stage,
                chunk,
                stopped,
            };
            return Err((self, right));
        }
        self.stopped = shorten_joined(self.slice, &mut self.chunk, stopped);
        Ok(self)
    }

    /// What the stage makes of the whole walk. It takes no memory.
    pub fn finish(self, env: &Env) -> Chunk
        ensures { (t : Trace) → StandsFor (slice_of self.entry.slice.now) self.entry.stage env.now self.entry t
            → result ≡ sliced (slice_of self.entry.slice.now) self.entry.stage env.now t }
    {
        let SlicePart {
            slice,
            stage,
            mut chunk,
            stopped: _,
        } = self;
        match slice {
            Slice::Limit(_) | Slice::TakeWhile(_) => {}
            Slice::Skip(n) => skip(&mut chunk, *n),
            Slice::DropWhile(test) => drop_while(&mut chunk, stage, test, env),
        }
        chunk
    }
}

/// Shortens a chunk to which the right piece was appended, which stopped or not. The answer says whether the
/// joined piece stops.
fn shorten_joined(slice: &Slice, chunk: &mut Chunk, stopped: bool) -> bool
    ensures { IsJoined (slice_of slice.now) chunk.old stopped chunk.new result }
{
    match slice {
        Slice::Limit(n) => limit(chunk, *n),
        Slice::Skip(_) | Slice::TakeWhile(_) | Slice::DropWhile(_) => stopped,
    }
}
