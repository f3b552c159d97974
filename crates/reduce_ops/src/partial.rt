//! Folds of the pieces of a stream, and their merging in encounter order.

ghost use Rattle.std.specs.Prelude.{◌≡◌, Some, [], ◌∷◌, ◌++◌};
ghost use Rattle.trace.specs.declared.item.End.TheVariants as end;
ghost use Rattle.trace.specs.Sinks.{flow_at};
ghost use Rattle.trace.specs.Trace.{Trace, trace, append};
ghost use Rattle.reduce_ops.specs.Folds.{reduced, reduced_from, onto};
ghost use Rattle.reduce_ops.specs.Operators.{value_of, identity_of};
ghost use Rattle.reduce_ops.specs.Parts.{StandsFor};

use crate::op::Op;
use trace::{End, Fault, Flow, Item, LongSink, NoMemory};

/// The fold of a piece of a stream, if the piece has items, and how the walk over the piece ended.
///
/// Its size doesn't depend on the piece, and no call takes memory. As a sink it folds each item that it
/// accepts.
#[derive(Clone, Copy)]
pub struct Partial {
    op: Op,
    value: Option<i64>,
    end: End,
}

impl Partial {
    /// The fold of one item.
    pub fn of(op: Op, item: Item) -> Partial
        ensures op { result.op ≡ op }
        ensures stands { StandsFor result (trace (item ∷ []) end.Done) }
    {
        Partial {
            op,
            value: Some(item.value),
            end: End::Done,
        }
    }

    /// The fold of a piece without items, with this end.
    pub fn none(op: Op, end: End) -> Partial
        ensures op { result.op ≡ op }
        ensures stands { StandsFor result (trace [] end) }
    {
        Partial {
            op,
            value: None,
            end,
        }
    }

    /// Folds one more item in, after the others.
    pub fn push(&mut self, item: Item)
        requires { self.old.end ≡ end.Done }
        ensures op { self.new.op ≡ self.old.op }
        ensures ending { self.new.end ≡ self.old.end }
        ensures stands { (t : Trace) → StandsFor self.old t
            → StandsFor self.new (append t (trace (item ∷ []) end.Done)) }
    {
        self.value = fold_on(self.op, self.value, item.value);
    }

    /// Ends the piece as said, unless a fault has ended it.
    pub fn end_with(&mut self, end: End)
        ensures op { self.new.op ≡ self.old.op }
        ensures stands { (t : Trace) → StandsFor self.old t → StandsFor self.new (append t (trace [] end)) }
    {
        if let End::Done = self.end {
            self.end = end;
        }
    }

    /// The fold of two pieces that lie side by side, of one operator. A fault of the left one ends both.
    pub fn merge(self, right: Partial) -> Partial
        ensures op { result.op ≡ self.op }
        ensures stands { (a b : Trace) → right.op ≡ self.op → StandsFor self a → StandsFor right b
            → StandsFor result (append a b) }
    {
        match self.end {
            End::Fault(_) => self,
            End::Done => Partial {
                op: self.op,
                value: match right.value {
                    Some(value) => fold_on(self.op, self.value, value),
                    None => self.value,
                },
                end: right.end,
            },
        }
    }

    /// The fault that ended the walk, or else the fold, which is `None` without items.
    pub fn finish(self) -> Result<Option<i64>, Fault>
        ensures { (t : Trace) → StandsFor self t → result ≡ reduced (value_of self.op) t }
    {
        match self.end {
            End::Done => Ok(self.value),
            End::Fault(fault) => Err(fault),
        }
    }

    /// The fault that ended the walk, or else the fold from a start, like an identity of the operator.
    pub fn finish_from(self, start: i64) -> Result<i64, Fault>
        ensures { (t : Trace) → StandsFor self t → result ≡ reduced_from (value_of self.op) start t }
    {
        match self.finish()? {
            Some(value) => Ok(self.op.apply(start, value)),
            None => Ok(start),
        }
    }

    /// The operator.
    pub fn op(&self) -> Op
        ensures { result ≡ self.now.op }
    {
        self.op
    }

    /// How the piece ended.
    pub fn end(&self) -> End
        ensures { result ≡ self.now.end }
    {
        self.end
    }
}

impl LongSink for Partial {
    ghost has_taken = { λ partial items. StandsFor partial (trace items end.Done) };

    ghost flow = { λ partial. flow_at partial.end };

    ghost takes_memory = { ⊥ };

    fn accept(&mut self, item: Item) -> Result<Flow, NoMemory> {
        self.push(item);
        Ok(Flow::More)
    }
}

/// The fold of what was folded so far, if anything, and one more value.
fn fold_on(op: Op, before: Option<i64>, value: i64) -> Option<i64>
    ensures { result ≡ onto (value_of op) before value }
{
    match before {
        Some(before) => Some(op.apply(before, value)),
        None => Some(value),
    }
}
