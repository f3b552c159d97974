//! What a leg goes over, by position.

ghost use Rattle.std.specs.Prelude.{◌≡◌, ◌+◌, ◌<◌, ◌≤◌, ◌^◌, List, length, OnErr};
ghost use Rattle.trace.specs.Cover.{placed};
ghost use Rattle.trace.specs.Sinks.{IsFed, flow_after};
ghost use Rattle.trace.specs.Trace.{trace};
ghost use Rattle.lambda_values.specs.declared.item.Item.{Item as item};
ghost use Rattle.trace.specs.declared.item.End.TheVariants as end;
ghost use Rattle.batch_eval.specs.Pipelines.{piped};
ghost use Rattle.job_language.specs.Jobs.{sources_of};
ghost use Rattle.job_plan.specs.Bases.{base_walk};
ghost use Rattle.prefix_walks.specs.Pieces.{after, elements, piece_of};
ghost use Rattle.job_meaning.specs.Walks.{plain_values, source_walk, values_of};

use crate::given::Given;
use crate::sources::{PlainSources, items_of, plain_size};
use batch_eval::{BatchSink, Pipeline, Registers, feed_batches};
use job_language::PlainSource;
use job_routes::Leg;
use lambda_values::{Env, FaultKind};
use prefix_walks::{GivenWalk, Portion, Window, feed_given, within};
use trace::{End, Fault, Fed, Flow, NoMemory};

/// The fault of sources of more than 2^62 values.
const TOO_LONG: Fault = Fault {
    kind: FaultKind::SourceTooLong,
    stage: 0,
    origin: None,
};

/// A whole walk, by position. It borrows the values and copies none.
#[derive(Clone, Copy)]
pub(crate) enum Base<'g, 'a, 'c> {
    /// Of the sources of a job, which stay as long as the parts of the walk.
    Plain(PlainSources<'a, 'c>),
    /// Of sources that may go before the parts of the walk.
    Put(PlainSources<'g, 'g>),
    /// Of sources of more than 2^62 values.
    TooLong,
    /// Of a leg: what it gave.
    Given(&'g GivenWalk<'a>),
}

impl Base<'_, '_, '_> {
    /// How many items the walk has.
    fn size(self) -> u64
        ensures { result ≡ length (base_walk self.entry).items }
    {
        match self {
            Base::Plain(plain) => plain.size,
            Base::Put(put) => put.size,
            Base::TooLong => 0,
            Base::Given(given) => given.size(),
        }
    }
}

/// What a leg goes over: positions of a walk.
#[derive(Clone, Copy)]
pub struct Source<'g, 'a, 'c> {
    pub(crate) base: Base<'g, 'a, 'c>,
    pub(crate) window: Window,
    /// How many items the whole walk has.
    size: u64,
    ghost measured: { size ≡ length (base_walk base).items },
    ghost few: { length (base_walk base).items < 2 ^ 64 },
}

/// What is walked, with the values of the job's names.
#[derive(Clone, Copy)]
pub struct Walked<'g, 'a, 'c, 'e> {
    pub source: Source<'g, 'a, 'c>,
    pub env: &'e Env<'e>,
}

impl<'g, 'a, 'c> Source<'g, 'a, 'c> {
    ghost use Rattle.std.specs.Prelude.{◌-◌, min};
    ghost use Rattle.job_routes.specs.Legs.{leg_in, leg_walk, windowed};
    ghost use Rattle.job_plan.specs.Parts.{walk_in};

    /// All positions of sources. A part of their walk may borrow values. It takes no memory.
    pub fn of_sources(sources: &'a [PlainSource<'c>]) -> Source<'g, 'a, 'c>
        ensures { walk_in result ≡ source_walk (sources_of sources.now) }
    {
        match PlainSources::of(sources) {
            Some(plain) => Source::all(Base::Plain(plain)),
            None => Source::all(Base::TooLong),
        }
    }

    /// All positions of sources. No part of their walk borrows values. It takes no memory.
    pub fn of_put(sources: &'g [PlainSource<'g>]) -> Source<'g, 'a, 'c>
        ensures { walk_in result ≡ source_walk (sources_of sources.now) }
    {
        match PlainSources::of(sources) {
            Some(put) => Source::all(Base::Put(put)),
            None => Source::all(Base::TooLong),
        }
    }

    /// All positions of what a leg gave.
    pub fn of_given(given: &'g Given<'a, 'c>) -> Source<'g, 'a, 'c>
        ensures { walk_in result ≡ given.now }
    {
        match given.window {
            Some(window) => Source::of_sources(given.sources).within(window),
            None => Source::all(Base::Given(&given.walk)),
        }
    }

    /// All positions of a walk.
    fn all(base: Base<'g, 'a, 'c>) -> Source<'g, 'a, 'c>
        ensures { walk_in result ≡ base_walk base.entry }
    {
        Source {
            base,
            window: Window::all(),
            size: base.size(),
        }
    }

    /// The positions that a leg goes over.
    pub fn of_leg(self, leg: &Leg) -> Source<'g, 'a, 'c>
        ensures { walk_in result ≡ leg_walk (leg_in leg.now) (walk_in self.entry) }
    {
        self.within(leg.window)
    }

    /// These positions of the source.
    fn within(self, window: Window) -> Source<'g, 'a, 'c>
        ensures { walk_in result ≡ windowed window.from window.to (walk_in self.entry) }
    {
        let Window { from, to } = window;
        Source {
            base: self.base,
            window: self.window.within(from, to),
            size: self.size,
        }
    }

    /// How the walk over the source ends.
    pub fn end(&self) -> End
        ensures { result ≡ (walk_in self.now).ending }
    {
        match self.base {
            Base::Plain(_) | Base::Put(_) => End::Done,
            Base::TooLong => End::Fault(TOO_LONG),
            Base::Given(given) => given.end(),
        }
    }

    /// How many items the source has, or the greatest `u64` if there are more. It takes constant time.
    pub fn size(&self) -> u64
        ensures { result ≡ min (length (walk_in self.now).items) (2 ^ 64 - 1) }
    {
        let (_, count) = within(self.window.from, self.window.to, self.size);
        count
    }

    /// How a piece of the source ends.
    pub(crate) fn piece_end(&self, to: Option<u64>) -> End
        ensures { result ≡ (piece_of 0 to (walk_in self.now)).ending }
    {
        match to {
            Some(_) => End::Done,
            None => self.end(),
        }
    }

    /// Takes the items at these positions one after the other through the stages.
    pub(crate) fn feed<S: BatchSink>(
        &self,
        line: Pipeline<'_>,
        window: Window,
        registers: &mut Registers,
        sink: &mut S,
    ) -> Result<Fed, NoMemory>
        requires wants { S.flow sink.old ≡ Flow.More }
        ensures fed { (xs : List item) → S.has_taken sink.old xs → IsFed S.has_taken xs
            (piped line.entry (trace (elements window.from window.to (walk_in self.now).items) end.Done))
            result sink.new }
        ensures flow { S.flow sink.new ≡ flow_after result }
        ensures refused { OnErr result S.takes_memory }
    {
        let window = self.window.within(window.from, window.to);
        match self.base {
            Base::Plain(plain) => feed_plain(line, plain.sources, 0, window, registers, sink),
            Base::Put(put) => feed_plain(line, put.sources, 0, window, registers, sink),
            Base::TooLong => Ok(Fed::More),
            Base::Given(given) => feed_given(line, given, window, registers, sink),
        }
    }
}

/// Takes the items at these positions of sources. The first item has the place `origin`.
fn feed_plain<S: BatchSink>(
    line: Pipeline<'_>,
    sources: &[PlainSource],
    origin: u64,
    window: Window,
    registers: &mut Registers,
    sink: &mut S,
) -> Result<Fed, NoMemory>
    requires wants { S.flow sink.old ≡ Flow.More }
    requires few { origin + length (values_of (sources_of sources.now)) ≤ 2 ^ 62 }
    ensures fed { (xs : List item) → S.has_taken sink.old xs → IsFed S.has_taken xs
        (piped line.entry (trace (elements window.from window.to (placed origin (values_of (sources_of sources.now))))
        end.Done)) result sink.new }
    ensures flow { S.flow sink.new ≡ flow_after result }
    ensures refused { OnErr result S.takes_memory }
{
    match sources.split_first() {
        None => Ok(Fed::More),
        Some((source, later)) => {
            let size = plain_size(source);
            let (start, count) = within(window.from, window.to, size);
            let items = items_of(source, origin + start, Portion { start, count });
            match feed_batches(line, &items, registers, sink)? {
                Fed::More => {}
                stopped => return Ok(stopped),
            }
            let left = window.after(size);
            feed_plain(line, later, origin + size, left, registers, sink)
        }
    }
}
