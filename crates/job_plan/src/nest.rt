//! A walk through several slices. Each of them is a sink with the next one inside.

ghost use Rattle.std.specs.Prelude.{◌≡◌, ◌≤◌, ◌<◌, ℕ, suc, [], IfNone, IfOk, IfSome, length};
ghost use Rattle.batch_eval.specs.Pipelines.{piped};
ghost use Rattle.trace.specs.Trace.{Trace};
ghost use Rattle.slice_ops.specs.Slices.{slice_of, sliced};
ghost use Rattle.job_plan.specs.Passages.{junction_of, open_link, through_link};
ghost use Rattle.job_routes.specs.Legs.{link_in, links_in, number_after, walk_through, linked};
ghost use Rattle.job_plan.specs.Parts.{walk_in};

use crate::closing::Closing;
use crate::link_sink::{Junction, LinkBrand, LinkSink, Passage, Passing};
use crate::source::Source;
use batch_eval::{Pipeline, Registers};
use job_routes::Link;
use prefix_walks::Window;
use slice_ops::SliceRest;
use std::alloc::Global;
use std::marker::{Brand, PhantomData};
use trace::{End, Fed, NoMemory};

/// Sinks for 32 slices, one inside the other. The code that feeds a source is there for 0, 1, 2, 4, 8, 16 and 32 of
/// them.
pub(crate) type Deepest = Next<Next<Next<Inner<Next<Three<Next<Seven<Next<Fifteen<Zero>>>>>>>>>>;

type Three<N> = Inner<Inner<Inner<N>>>;

type Seven<N> = Three<Inner<Three<N>>>;

type Fifteen<N> = Seven<Inner<Seven<N>>>;

/// Slices that a walk goes through, and the stages after them.
#[derive(Clone, Copy)]
pub(crate) struct Chain<'p> {
    pub(crate) links: &'p [Link],
    pub(crate) line: Pipeline<'p>,
    /// A link that lets all items pass.
    pub(crate) pass_all: &'p Link,
}

/// A link of a walk, or the one that lets all items pass: what comes to it, and the stages after it.
#[derive(Clone, Copy)]
struct LastLink<'p> {
    before: Chain<'p>,
    link: &'p Link,
    next: Pipeline<'p>,
}

impl<'p> Chain<'p> {
    /// The last link.
    fn split_last(self) -> Option<LastLink<'p>>
        ensures fewer { IfSome result (λ last. length last.before.links.now < length self.entry.links.now) }
        ensures walk { IfSome result (λ last. (t : Trace)
            → linked (links_in self.entry.links.now) self.entry.line.env.now t
            ≡ sliced (slice_of last.link.now.slice) (number_after last.link.now.stages)
            self.entry.line.env.now (piped last.before.line (linked (links_in last.before.links.now)
            self.entry.line.env.now t))) }
        ensures passes { IfSome result (λ last. last.before.pass_all.now ≡ self.entry.pass_all.now) }
        ensures env { IfSome result (λ last. last.before.line.env.now ≡ self.entry.line.env.now) }
        ensures next { IfSome result (λ last. last.next ≡ self.entry.line) }
        ensures none { IfNone result (self.entry.links.now ≡ []) }
    {
        match self.links.split_last() {
            Some((link, links)) => Some(LastLink {
                before: self.up_to(links, link),
                link,
                next: self.line,
            }),
            None => None,
        }
    }

    /// The chain of these links and the stages of another one.
    fn up_to(self, links: &'p [Link], link: &'p Link) -> Chain<'p>
        ensures links { result.links.now ≡ links.now }
        ensures line { (t : Trace) → piped result.line t ≡ walk_through link.now.stages self.entry.line.env.now t }
        ensures passes { result.pass_all.now ≡ self.entry.pass_all.now }
        ensures env { result.line.env.now ≡ self.entry.line.env.now }
    {
        Chain {
            links,
            line: link.stages.pipeline(self.line.env),
            pass_all: self.pass_all,
        }
    }
}

/// Sinks one inside the other, up to a number of them. A sink is a type of its own at each depth, so the number is a
/// type too.
pub(crate) trait Nest {
    ghost depth: { ℕ };

    /// What a sink makes of the walk of a source that went through the links of a chain and then through the stages
    /// after them.
    fn feed<S: Closing>(
        alloc: Global,
        chain: Chain,
        source: &Source,
        registers: &mut Registers,
        sink: S,
    ) -> Result<S::Made, NoMemory>
        requires few { length chain.links.now ≤ Self.depth }
        requires passes { link_in chain.pass_all.now ≡ open_link }
        requires begun { S.has_taken sink [] }
        ensures { IfOk result (λ made. S.stands made (piped chain.entry.line
            (linked (links_in chain.entry.links.now) chain.entry.line.env.now (walk_in source.now)))) };
}

/// No sink but the one that is given.
pub(crate) struct Zero;

/// One sink more, if there is a slice for it.
pub(crate) struct Next<N: Nest> {
    of: PhantomData<N>,
}

/// One sink more. Without a slice for it, it lets all items pass.
pub(crate) struct Inner<N: Nest> {
    of: PhantomData<N>,
}

impl Nest for Zero {
    ghost depth = { 0 };

    fn feed<S: Closing>(
        _alloc: Global,
        chain: Chain,
        source: &Source,
        registers: &mut Registers,
        sink: S,
    ) -> Result<S::Made, NoMemory> {
        feed_source(chain.line, source, registers, sink)
    }
}

impl<N: Nest> Nest for Next<N> {
    ghost depth = { suc N.depth };

    fn feed<S: Closing>(
        alloc: Global,
        chain: Chain,
        source: &Source,
        registers: &mut Registers,
        sink: S,
    ) -> Result<S::Made, NoMemory> {
        match chain.split_last() {
            Some(last) => feed_link::<Brand, N, S>(alloc, last, source, registers, sink),
            None => feed_source(chain.line, source, registers, sink),
        }
    }
}

impl<N: Nest> Nest for Inner<N> {
    ghost depth = { suc N.depth };

    fn feed<S: Closing>(
        alloc: Global,
        chain: Chain,
        source: &Source,
        registers: &mut Registers,
        sink: S,
    ) -> Result<S::Made, NoMemory> {
        let Some(last) = chain.split_last() else {
            let last = LastLink {
                before: chain.up_to(chain.links, chain.pass_all),
                link: chain.pass_all,
                next: chain.line,
            };
            return feed_link::<Brand, N, S>(alloc, last, source, registers, sink);
        };
        feed_link::<Brand, N, S>(alloc, last, source, registers, sink)
    }
}

/// Wraps `sink` in the slice of a link, with the stages after it, and feeds it what comes to the link.
fn feed_link<K: LinkBrand, N: Nest, S: Closing>(
    alloc: Global,
    last: LastLink,
    source: &Source,
    registers: &mut Registers,
    sink: S,
) -> Result<S::Made, NoMemory>
    requires slice { slice_of last.link.now.slice ≡ K.begun }
    requires junction { junction_of (number_after last.link.now.stages) last.next ≡ K.junction }
    requires few { length last.before.links.now ≤ N.depth }
    requires passes { link_in last.before.pass_all.now ≡ open_link }
    requires begun { S.has_taken sink [] }
    ensures { IfOk result (λ made. S.stands made (through_link K.begun K.junction (piped last.entry.before.line
        (linked (links_in last.entry.before.links.now) last.entry.before.line.env.now (walk_in source.now))))) }
{
    let LastLink { before, link, next } = last;
    let rest = SliceRest::of(&link.slice);
    let passing = Passing {
        rest,
        passage: Passage::of(&rest),
        inner: Box::new(alloc, sink)?,
    };
    let junction = Junction {
        stage: link.stages.next(),
        next,
    };
    let sink = LinkSink::<K, S> {
        passing,
        junction,
        registers: Registers::new(alloc),
        of: PhantomData,
    };
    N::feed(alloc, before, source, registers, sink)
}

/// What a sink makes of the walk of a source through stages.
fn feed_source<S: Closing>(
    line: Pipeline<'_>,
    source: &Source,
    registers: &mut Registers,
    sink: S,
) -> Result<S::Made, NoMemory>
    requires begun { S.has_taken sink [] }
    ensures { IfOk result (λ made. S.stands made (piped line.entry (walk_in source.now))) }
{
    if sink.has_enough() {
        return sink.close(End::Done);
    }
    let mut sink = sink;
    let all = Window { from: 0, to: None };
    match source.feed(line, all, registers, &mut sink)? {
        Fed::More => sink.close(source.end()),
        Fed::Fault(fault) => sink.close(End::Fault(fault)),
        Fed::Enough => sink.close(End::Done),
    }
}
