//! The part of a piece: walked, or left out.
ghost use Rattle.std.specs.Prelude.{◌≡◌, IfOk};
ghost use Rattle.job_runner.specs.Cuts.{IsPieceOf, Stands};

use crate::NoMemory;
use crate::earlier::Earlier;
use crate::legs::JobLegs;
use crate::piece::Piece;
use crate::places::{KeptGiven, hold_source, input_of, kept_given};
use crate::task::RunBrand;
use crate::tools::{TableTools, Tools};
use crate::work::TableWork;
use worker_pool::Gate;

/// Walks a piece with what the job takes of earlier answers.
fn walked<S: JobLegs, R: RunBrand, G: Gate, P>(
    work: &TableWork<S, R>,
    piece: Piece,
    kept: &KeptGiven<S>,
    tools: &mut TableTools<'_, S, R, G, P>,
) -> Result<S::Part, NoMemory>
    requires watched { (tools.old.watch.job ≡ piece.job) × (tools.old.watch.leg ≡ piece.leg) }
    requires piece { IsPieceOf S.run piece }
    requires given { kept.now.job ≡ piece.job }
    ensures { IfOk result (λ part. Stands S.run piece part) }
{
    let held = hold_source(&work.places, piece.job, piece.leg);
    let earlier = Earlier::in_places(&work.places);
    let Some(input) = input_of(kept, held.as_ref(), &earlier, piece.leg) else {
        return Err(NoMemory);
    };
    let Tools { scratch, watch, .. } = tools;
    work.jobs.leaf(work.alloc, piece, input, scratch, watch)
}

/// Enters the gate and walks a piece, unless a place at or before its first position decides what the leg gives: then
/// the gate isn't entered. If the leg's source isn't there, or what the job takes of earlier answers, it is as if an
/// allocation had failed: the part is missing.
pub(crate) fn part_of<S: JobLegs, R: RunBrand, G: Gate, P>(
    work: &TableWork<S, R>,
    piece: Piece,
    tools: &mut TableTools<'_, S, R, G, P>,
) -> Result<S::Part, NoMemory>
    requires piece { IsPieceOf S.run piece }
    ensures { IfOk result (λ part. Stands S.run piece part) }
{
    let kept = kept_given(&work.places, piece.job).ok_or(NoMemory)?;
    if tools.watch.leaves_out(piece) {
        return Ok(work.jobs.left_out(work.alloc, piece, &kept.given));
    }
    tools.gate.at_leaf(piece.job, piece.from, piece.to);
    walked(work, piece, kept, tools)
}
