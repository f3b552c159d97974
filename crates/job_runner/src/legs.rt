//! What a run is over.
ghost use Rattle.std.specs.Prelude.{◌≡◌, ◌+◌, ◌^◌, ◌<◌, ◌≤◌, ℕ, true, Some, IfNone, IfOk, IfSome};
ghost use Rattle.trace.specs.declared.item.Fault.{Fault};
ghost use Rattle.job_runner.specs.Runs.{DecidesIn, IsBegun, RunSpec};
ghost use Rattle.job_runner.specs.Cuts.{HasFault, IsPiece, IsPieceOf, Stands};

use crate::NoMemory;
use crate::cut::CutPiece;
use crate::earlier::EarlierAnswers;
use crate::piece::{LegInput, NextSource, Piece};
use early_stop::Stop;
use std::alloc::Global;
use trace::Fault;

/// What is known of a job before it is walked.
#[derive(Drop)]
pub enum Begun<G, A> {
    /// The legs are to be walked, with what the job takes of the answers that it names; the first leg has `size`
    /// positions.
    Walk { given: G, size: u64 },
    /// The answer of the job: there is nothing to walk.
    Known(A),
}

/// Jobs, each a chain of legs: the first leg goes over the job's source, each further one over what the leg before it
/// gives, and the last one gives the job's answer. A leg is walked in pieces, ranges of positions of its source, in any
/// order and on any thread; the parts that the pieces give are merged side by side. A job may name earlier jobs, whose
/// answers it takes.
pub trait JobLegs {
    /// What a piece of a leg gives.
    type Part: Drop;

    /// What a leg after the first one goes over.
    type Source: Drop;

    /// What a job gives.
    type Answer: Drop;

    /// What a job takes of the answers of the jobs that it names.
    type Given: Drop;

    /// What a worker keeps from one leaf to the next, like room to compute in. No part depends on what it holds.
    type Scratch: Drop;

    /// What a leg gives, to contracts. No value of it is made.
    type Outcome;

    // The jobs and their legs, and what parts, sources and answers of them are.
    ghost run: { RunSpec Self.Outcome Self.Part Self.Source Self.Answer Self.Given };

    /// How many jobs there are.
    fn jobs(&self) -> usize
        ensures { result ≡ run.jobs };

    /// The number of a job's last leg.
    fn last_leg(&self, job: usize) -> usize
        requires job { job < run.jobs }
        ensures { result ≡ run.last job };

    /// The different jobs that a job names. It begins after them. No answer depends on it.
    fn names(&self, alloc: Global, job: usize) -> Result<Vec<usize>, NoMemory>
        requires job { job < run.jobs };

    /// How many positions a leg has, as far as that is known before the run; 0 if it is one piece, whatever the
    /// threshold is. No answer depends on it.
    fn likely_size(&self, job: usize, leg: usize) -> u64
        requires job { job < run.jobs }
        requires leg { leg ≤ run.last job };

    /// How many values an item of a leg becomes on its way to the leg's end, if that is known before the run. No answer
    /// depends on it.
    fn likely_values(&self, job: usize, leg: usize) -> Option<u64>
        requires job { job < run.jobs }
        requires leg { leg ≤ run.last job };

    /// The result is the job's inputs from earlier jobs, or its answer if nothing is to be walked. `NoMemory` also if
    /// an answer that it names isn't there.
    fn given<E: EarlierAnswers<Self::Answer>>(
        &self,
        alloc: Global,
        job: usize,
        earlier: &E,
    ) -> Result<Begun<Self::Given, Self::Answer>, NoMemory>
        requires job { job < run.jobs }
        requires earlier { (j : ℕ) (answer : Self.Answer) → E.is_answer j answer → run.is_answer j answer }
        ensures { IfOk result (λ begun. IsBegun run job begun) };

    /// What a worker begins with.
    fn scratch(&self, alloc: Global) -> Self::Scratch;

    /// The part of a piece that isn't walked, since a place at or before its first position decides.
    fn left_out(&self, alloc: Global, piece: Piece, given: &Self::Given) -> Self::Part
        requires given { run.is_given piece.job given.now }
        requires piece { IsPieceOf run piece }
        requires decided { (c : ℕ) × (c ≤ piece.from) × DecidesIn run piece.job piece.leg c }
        ensures { Stands run piece result };

    /// Whether nothing after a piece with this part matters.
    fn is_settled(&self, piece: Piece, part: &Self::Part) -> bool
        requires job { piece.job < run.jobs }
        requires leg { piece.leg ≤ run.last piece.job }
        requires within { (piece.from ≤ piece.to) × (piece.to < run.size piece.job piece.leg) }
        requires part { Stands run piece part.now }
        ensures { result ≡ true → DecidesIn run piece.job piece.leg piece.to };

    /// The fault that ends a piece, if the job gives another answer after a fault.
    fn fault(&self, piece: Piece, given: &Self::Given, part: &Self::Part) -> Option<Fault>
        requires piece { IsPieceOf run piece }
        requires given { run.is_given piece.job given.now }
        requires part { Stands run piece part.now }
        ensures among { IfSome result (λ fault. run.is_caught piece.job piece.leg part.now fault) }
        ensures caught { (fault : Fault) → run.is_caught piece.job piece.leg part.now fault → result ≡ Some fault };

    /// The answer of a job that gives another answer after a fault, if a piece has one.
    fn answer_instead(&self, job: usize) -> Self::Answer
        requires job { job < run.jobs }
        requires caught { (leg : ℕ) × (fault : Fault) × HasFault run job leg fault }
        ensures { run.is_answer job result };

    /// Walks a piece. It may stop at a place that `stop` names, or after it. `NoMemory` also if an answer that the job
    /// names isn't there.
    fn leaf<E: EarlierAnswers<Self::Answer>, W: Stop>(
        &self,
        alloc: Global,
        piece: Piece,
        input: LegInput<'_, '_, Self::Source, Self::Given, E>,
        scratch: &mut Self::Scratch,
        stop: &mut W,
    ) -> Result<Self::Part, NoMemory>
        requires stop { (c : ℕ) → W.decides stop.old c → DecidesIn run piece.job piece.leg c }
        requires piece { IsPieceOf run piece }
        requires first { IfNone input.source (piece.leg ≡ 0) }
        requires source { IfSome input.source (λ source. run.is_source piece.job piece.leg source.now) }
        requires given { run.is_given piece.job input.given.now }
        requires earlier { (j : ℕ) (answer : Self.Answer) → E.is_answer j answer → run.is_answer j answer }
        ensures { IfOk result (λ part. Stands run piece part) };

    /// Merges the parts of the two sides of a cut.
    fn merge(cut: CutPiece, left: Self::Part, right: Self::Part) -> Result<Self::Part, NoMemory>
        requires piece { IsPiece run.jobs run.last run.size cut.job cut.leg cut.from cut.to }
        requires within { (cut.from < cut.middle) × (cut.middle < cut.to) }
        requires left { run.stands_for cut.job cut.leg cut.from cut.middle left }
        requires right { run.stands_for cut.job cut.leg cut.middle cut.to right }
        ensures { IfOk result (λ part. run.stands_for cut.job cut.leg cut.from cut.to part) };

    /// Makes the source of the next leg of the part of a whole leg.
    fn next_source(
        &self,
        alloc: Global,
        job: usize,
        leg: usize,
        part: Self::Part,
        given: &Self::Given,
    ) -> Result<NextSource<Self::Source>, NoMemory>
        requires job { job < run.jobs }
        requires leg { leg < run.last job }
        requires given { run.is_given job given.now }
        requires part { run.stands_for job leg 0 (run.size job leg) part }
        ensures source { IfOk result (λ next. run.is_source job (leg + 1) next.source) }
        ensures size { IfOk result (λ next. next.size ≡ run.size job (leg + 1)) };

    /// Makes the answer of a job of the part of its whole last leg, which may be walked once more for it. `NoMemory`
    /// also if an answer that the job names isn't there.
    fn answer<E: EarlierAnswers<Self::Answer>>(
        &self,
        alloc: Global,
        job: usize,
        part: Self::Part,
        input: LegInput<'_, '_, Self::Source, Self::Given, E>,
        scratch: &mut Self::Scratch,
    ) -> Result<Self::Answer, NoMemory>
        requires job { job < run.jobs }
        requires first { IfNone input.source (run.last job ≡ 0) }
        requires source { IfSome input.source (λ source. run.is_source job (run.last job) source.now) }
        requires size { input.size ≡ run.size job (run.last job) }
        requires given { run.is_given job input.given.now }
        requires earlier { (j : ℕ) (answer : Self.Answer) → E.is_answer j answer → run.is_answer j answer }
        requires part { run.stands_for job (run.last job) 0 (run.size job (run.last job)) part }
        ensures { IfOk result (λ answer. run.is_answer job answer) };
}
