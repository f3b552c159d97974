//! What a piece gives to a prefix: its items, in pieces with their folds.

ghost use Rattle.std.specs.Prelude.{◌≡◌, ◌<◌, [], All, length, map, OnOk, OnErr, IfErr, IfOk};
ghost use Rattle.trace.specs.Stages.{stages_of};
ghost use Rattle.trace.specs.Trace.{trace, nothing, append};
ghost use Rattle.trace.specs.declared.item.End.TheVariants as end;
ghost use Rattle.batch_eval.specs.BatchItems.{batch_items};
ghost use Rattle.reduce_ops.specs.Operators.{value_of};
ghost use Rattle.prefix_scan.specs.Prefixes.{ends_after, prefixed, prefixed_items};
ghost use Rattle.batch_eval.specs.Faultless.{left_by};
ghost use Rattle.prefix_walks.specs.Scans.{IsFolded, all_items, scan, scan_append};

use crate::cheap_stages::CheapStages;
use crate::folded_piece::FoldedPiece;
use crate::given::GivenWalk;
use crate::prefix::Prefix;
use crate::prefix_pieces::{add_items, add_lent};
use crate::scanned::ScannedWalk;
use batch_eval::{BatchItems, Registers};
use lambda_values::FaultKind;
use std::alloc::Global;
use std::marker::Model;
use trace::{End, Fault, NoMemory, SourceItems};

/// The items of a piece for a prefix, the stage with this number, and how the walk ended. Contracts see just that.
///
/// The items lie in pieces of 1,024 at most, each with its fold; joining two parts moves the pieces and no item. Values
/// of a source are lent if only cheap stages come before the prefix, which then go over them once more where they are
/// read; of other items at places that count up the values alone are stored.
#[derive(Drop)]
pub struct PrefixPart<'a> {
    prefix: Prefix,
    stage: u32,
    pieces: Vec<FoldedPiece<'a>>,
    end: End,
}

impl<'a> Model for PrefixPart<'a> {
    ghost use Rattle.std.specs.Prelude.{All};
    ghost use Rattle.trace.specs.Trace.{trace};
    ghost use Rattle.prefix_walks.specs.Scans.{AbstractScan, IsFolded, all_items, scan};

    ghost Value = { AbstractScan };

    ghost view = { λ part.
        scan part.prefix.op part.prefix.range part.stage (trace (all_items part.pieces.items) part.end) };

    ghost invariant = { λ part. All (IsFolded part.prefix.op) part.pieces.items };
}

impl<'a> PrefixPart<'a> {
    /// The part of no item. It takes no memory.
    pub fn none(alloc: Global, prefix: Prefix, stage: u32) -> PrefixPart<'a>
        ensures { result ≡ scan prefix.op prefix.range stage nothing }
    {
        PrefixPart {
            prefix,
            stage,
            pieces: Vec::new(alloc),
            end: End::Done,
        }
    }

    /// Adds the items of a source, which have these values. If the allocation fails, the part stays as it was.
    pub fn push_all<I: SourceItems>(&mut self, source: &I, values: &[i64]) -> Result<(), NoMemory>
        requires open { self.old.walk.ending ≡ end.Done }
        requires values { map (λ x. x.value) (I.items source.now) ≡ values.now }
        ensures ok { OnOk result (self.new ≡ scan_append self.old (trace (I.items source.now) end.Done)) }
        ensures err { OnErr result (self.new ≡ self.old) }
        ensures refused { OnErr result (0 < length (I.items source.now)) }
    {
        add_items(&mut self.pieces, self.prefix.op, source, values)
    }

    /// Adds what cheap stages leave of items of a source that stays as long as the job. It stores few of them or none.
    pub fn push_lent(
        &mut self,
        cheap: CheapStages<'a>,
        lent: &BatchItems<'a>,
        registers: &mut Registers,
    ) -> Result<(), NoMemory>
        requires open { self.old.walk.ending ≡ end.Done }
        ensures { OnOk result (self.new ≡ scan_append self.old
            (trace (left_by (stages_of cheap.entry.stages.now) (batch_items lent.now)) end.Done)) }
    {
        add_lent(&mut self.pieces, self.prefix.op, cheap, lent, registers)
    }

    /// Ends so, unless a fault has ended the part. It takes no memory.
    pub fn end_with(&mut self, end: End)
        ensures { self.new ≡ scan_append self.old (trace [] end) }
    {
        if let End::Done = self.end {
            self.end = end;
        }
    }

    /// How the walk ended.
    pub fn end(&self) -> End
        ensures { result ≡ self.now.walk.ending }
    {
        self.end
    }

    /// Goes on with another part of the prefix. It moves the pieces of `right` and no item.
    ///
    /// A part that ends in a fault stays as it is. If the allocation fails, `right` comes back and the part stays as it
    /// was.
    pub fn append(&mut self, mut right: PrefixPart<'a>) -> Result<(), PrefixPart<'a>>
        ensures ok { OnOk result (right.entry.op ≡ self.old.op → self.new ≡ scan_append self.old right.entry.walk) }
        ensures err { OnErr result (self.new ≡ self.old) }
        ensures right_returned { IfErr result (λ part. part ≡ right.entry) }
    {
        if let End::Fault(_) = self.end {
            return Ok(());
        }
        if self.prefix.op != right.prefix.op {
            return Ok(());
        }
        if self.pieces.append(&mut right.pieces).is_err() {
            return Err(right);
        }
        self.end = right.end;
        Ok(())
    }

    /// The walk that the prefix gives. A fault leaves no items, and so does a range that ends after the last item.
    pub fn finish(self, alloc: Global) -> Result<GivenWalk<'a>, NoMemory>
        ensures { IfOk result (λ given. given
            ≡ prefixed (value_of self.entry.op) self.entry.range self.entry.stage self.entry.walk) }
    {
        let PrefixPart {
            prefix,
            stage,
            pieces,
            end,
        } = self;
        match end {
            End::Fault(_) => Ok(GivenWalk::ended(end)),
            End::Done => scanned(alloc, prefix, stage, pieces),
        }
    }
}

/// What a prefix, the stage with this number, gives of a walk of these pieces.
fn scanned<'a>(
    alloc: Global,
    prefix: Prefix,
    stage: u32,
    pieces: Vec<FoldedPiece<'a>>,
) -> Result<GivenWalk<'a>, NoMemory>
    requires { All (IsFolded prefix.op) pieces.items }
    ensures { IfOk result (λ given. given ≡ prefixed_items (value_of prefix.op) prefix.range stage
        (all_items pieces.entry.items)) }
{
    let walk = ScannedWalk::of(alloc, prefix, pieces)?;
    if ends_after(prefix.range, walk.size()) {
        let fault = Fault {
            kind: FaultKind::OutOfArray,
            stage,
            origin: None,
        };
        return Ok(GivenWalk::ended(End::Fault(fault)));
    }
    Ok(GivenWalk::scanned(walk))
}

/// Whether a range ends after this many items.
fn ends_after(range: Option<(u64, u64)>, count: u64) -> bool
    ensures { result ≡ ends_after range count }
{
    match range {
        Some((_, to)) => count < to,
        None => false,
    }
}
