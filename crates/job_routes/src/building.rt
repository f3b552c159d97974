//! The route of a job, built stage by stage. A stage goes to the stages that look at one item at a time, to the
//! positions that its leg goes over, or to the slices that a walk goes through; a `prefix`, a `sorted` or a `distinct`
//! ends a leg.

ghost use Rattle.std.specs.Prelude.{◌≡◌, ◌≤◌, ℕ, suc, List, [], None, length, IfOk, IfSome, IsTrue, OnOk};
ghost use Rattle.lambda_values.specs.Earlier.{Numbers};
ghost use Rattle.trace.specs.Stages.{stage_of, through};
ghost use Rattle.trace.specs.Trace.{Trace};
ghost use Rattle.slice_ops.specs.Slices.{limit, slice_of, sliced};
ghost use Rattle.job_language.specs.Jobs.{AbstractPlainSource, job_stage_of, job_stages_of, terminal_of};
ghost use Rattle.job_meaning.specs.Walks.{after_stage, after_stages, answer_of, source_walk};
ghost use Rattle.job_routes.specs.Building.{HasNext, IsClean, begun_walk};
ghost use Rattle.job_routes.specs.Legs.{end_in, leg_in, legs_in, number_after, walk_through};
ghost use Rattle.job_routes.specs.Legs.{ended, given_walk, legs_answer, scanned, windowed};

use crate::ends::SegmentEnd;
use crate::leg::{Leg, Link};
use crate::numbered_stages::NumberedStages;
use crate::segment::Segment;
use batch_eval::{are_faultless, are_maps};
use find_ops::FindTerminal;
use job_language::{JobStage, Terminal};
use prefix_walks::{Prefix, Window};
use slice_ops::Slice;
use std::alloc::Global;
use std::mem;
use trace::{NoMemory, Stage};

/// A route as far as it is built: the legs that have ended, and the leg that goes on.
#[derive(Drop)]
pub(crate) struct Begun {
    alloc: Global,
    pub(crate) scans: Vec<Leg>,
    /// The positions that the leg goes over.
    pub(crate) window: Window,
    /// The slices of the leg that don't select positions.
    pub(crate) links: Vec<Link>,
    /// The stages after them.
    pub(crate) stages: NumberedStages,
}

impl Begun {
    /// No stages yet.
    fn none(alloc: Global) -> Begun
        ensures walk { (env : Numbers) (ss : List AbstractPlainSource) → begun_walk result env ss ≡ source_walk ss }
        ensures number { number_after result.stages ≡ 1 }
        ensures few { length result.links.items ≡ 0 }
    {
        Begun {
            alloc,
            scans: Vec::new(alloc),
            window: Window::all(),
            links: Vec::new(alloc),
            stages: NumberedStages::none(alloc, 1),
        }
    }

    /// Whether what the leg goes over has no item before a fault: `distinct` gives such items.
    fn is_clean(&self) -> bool
        ensures { IsTrue result → (env : Numbers) (ss : List AbstractPlainSource)
            → IsClean (scanned (legs_in self.now.scans.items) env (source_walk ss)) }
    {
        match self.scans.last() {
            Some(leg) => leg.last.end.gives_clean(),
            None => true,
        }
    }

    /// The positions that are left if a slice selects some of those that the leg goes over: only maps come before it.
    /// `skip` drops what maps make of items, so none of these may have a fault. `limit(0)` takes the fault of a walk
    /// away, and so does any limit that ends before it.
    fn selected(&self, slice: &Slice) -> Option<Window>
        ensures unlinked { IfSome result (λ _. self.now.links.items ≡ []) }
        ensures window { IfSome result (λ w. (m : ℕ) (env : Numbers) (ss : List AbstractPlainSource)
            → walk_through self.now.stages env (windowed w.from w.to
            (scanned (legs_in self.now.scans.items) env (source_walk ss)))
            ≡ sliced (slice_of slice.now) m env (walk_through self.now.stages env
            (windowed self.now.window.from self.now.window.to
            (scanned (legs_in self.now.scans.items) env (source_walk ss))))) }
    {
        if !self.links.is_empty() {
            return None;
        }
        let stages: &[Stage] = &self.stages.list;
        match slice {
            Slice::Limit(count) if *count > 0 && are_maps(stages) && self.is_clean() => {
                self.window.limited(*count)
            }
            Slice::Skip(count) if are_maps(stages) && are_faultless(stages) => {
                self.window.skipped(*count)
            }
            _ => None,
        }
    }

    /// Goes over these positions. The slice that selects them does no more.
    fn select(&mut self, window: Window) -> Result<(), NoMemory>
        requires few { number_after self.old.stages ≤ 32 }
        ensures kept { OnOk result ((self.new.scans ≡ self.old.scans) × (self.new.links ≡ self.old.links)) }
        ensures window { OnOk result (self.new.window ≡ window) }
        ensures walk { OnOk result ((env : Numbers) (t : Trace)
            → walk_through self.new.stages env t ≡ walk_through self.old.stages env t) }
        ensures number { OnOk result (number_after self.new.stages ≡ suc (number_after self.old.stages)) }
    {
        self.window = window;
        self.stages.pass_over()
    }

    /// Adds a slice that a walk goes through.
    fn link(&mut self, slice: Slice) -> Result<(), NoMemory>
        requires few { number_after self.old.stages ≤ 32 }
        ensures { OnOk result (HasNext self.old (sliced (slice_of slice)) self.new) }
    {
        let next = self.stages.next() + 1;
        let stages = mem::replace(&mut self.stages, NumberedStages::none(self.alloc, next));
        self.links.push(Link { stages, slice })?;
        Ok(())
    }

    /// Forgets all stages, but not how many there were.
    fn forget(&mut self)
        requires few { number_after self.old.stages ≤ 32 }
        ensures number { number_after self.new.stages ≡ number_after self.old.stages }
        ensures few { length self.new.links.items ≡ 0 }
    {
        self.stages = NumberedStages::none(self.alloc, self.stages.next());
        self.links = Vec::new(self.alloc);
        self.scans = Vec::new(self.alloc);
    }

    /// Adds a slice that selects positions, or else one that a walk goes through.
    fn cut(&mut self, slice: Slice) -> Result<(), NoMemory>
        requires few { number_after self.old.stages ≤ 32 }
        ensures { OnOk result (HasNext self.old (sliced (slice_of slice)) self.new) }
    {
        match self.selected(&slice) {
            Some(window) => self.select(window),
            None => self.link(slice),
        }
    }

    /// Adds a `limit`. Nothing is walked before `limit(0)`.
    fn limit(&mut self, count: u64) -> Result<(), NoMemory>
        requires few { number_after self.old.stages ≤ 32 }
        ensures { OnOk result (HasNext self.old (sliced (limit count)) self.new) }
    {
        if count == 0 {
            self.forget();
            return self.link(Slice::Limit(count));
        }
        if self.ask(count) {
            return self.select(self.window);
        }
        self.cut(Slice::Limit(count))
    }

    /// Adds a slice.
    fn slice(&mut self, slice: Slice) -> Result<(), NoMemory>
        requires few { number_after self.old.stages ≤ 32 }
        ensures { OnOk result (HasNext self.old (sliced (slice_of slice)) self.new) }
    {
        match slice {
            Slice::Limit(count) => self.limit(count),
            other => self.cut(other),
        }
    }

    /// The leg that goes on, with this end; the next one goes over all positions.
    fn take_leg(&mut self, end: SegmentEnd) -> Leg
        requires number { number_after self.old.stages ≤ 33 }
        requires few { length self.old.links.items ≤ 32 }
        ensures leg { (result.window ≡ self.old.window) × (result.links ≡ self.old.links)
            × (result.last.stages ≡ self.old.stages) × (result.last.end ≡ end) }
        ensures none { (self.new.links.items ≡ []) × (self.new.stages.list.items ≡ [])
            × (self.new.stages.first ≡ suc (number_after self.old.stages))
            × (self.new.window.from ≡ 0) × (self.new.window.to ≡ None) }
        ensures kept { self.new.scans ≡ self.old.scans }
    {
        let window = mem::replace(&mut self.window, Window::all());
        let links = mem::replace(&mut self.links, Vec::new(self.alloc));
        let next = self.stages.next() + 1;
        let stages = mem::replace(&mut self.stages, NumberedStages::none(self.alloc, next));
        let last = Segment { stages, end };
        Leg {
            window,
            links,
            last,
        }
    }

    /// Ends the leg so; the next one goes over what it gives.
    fn scan(&mut self, end: SegmentEnd) -> Result<(), NoMemory>
        requires few { number_after self.old.stages ≤ 32 }
        requires links { length self.old.links.items ≤ 32 }
        ensures { OnOk result
            (HasNext self.old (λ n env t. given_walk (ended (end_in end) n env t)) self.new) }
    {
        let leg = self.take_leg(end);
        self.scans.push(leg)?;
        Ok(())
    }

    /// Adds a stage that looks at one item at a time.
    fn item(&mut self, stage: Stage) -> Result<(), NoMemory>
        requires few { number_after self.old.stages ≤ 32 }
        ensures { OnOk result (HasNext self.old (λ n env t. through n (stage_of stage) env t) self.new) }
    {
        self.stages.push(stage)?;
        Ok(())
    }

    /// Adds a stage.
    fn add(&mut self, stage: JobStage) -> Result<(), NoMemory>
        requires few { number_after self.old.stages ≤ 32 }
        requires links { length self.old.links.items ≤ 32 }
        ensures { OnOk result
            (HasNext self.old (λ n env t. after_stage n (job_stage_of stage) env t) self.new) }
    {
        match stage {
            JobStage::Item(stage) => self.item(stage),
            JobStage::Slice(slice) => self.slice(slice),
            JobStage::Prefix { positions, op } => {
                let range = positions;
                self.scan(SegmentEnd::Prefix(Prefix { op, range }))
            }
            JobStage::Sorted => self.scan(SegmentEnd::Sorted {
                most: None,
                places: true,
            }),
            JobStage::Distinct => self.scan(SegmentEnd::Distinct { most: None }),
        }
    }

    /// The end that is walked for another one: `findFirst` for a fold that keeps the first value, if no fault can come
    /// after an item, which is so of a clean walk and stages without faults.
    fn end_for(&self, end: SegmentEnd) -> SegmentEnd
        ensures { (n : ℕ) (env : Numbers) (ss : List AbstractPlainSource)
            → ended (end_in result) n env (begun_walk self.now env ss)
            ≡ ended (end_in end) n env (begun_walk self.now env ss) }
    {
        if self.links.is_empty()
            && end.keeps_first()
            && are_faultless(&self.stages.list)
            && self.is_clean()
        {
            return SegmentEnd::Find(FindTerminal::First);
        }
        end
    }
}

/// The legs of a job of these stages and this terminal: those that give walks, and the last one.
pub(crate) fn legs_of(
    alloc: Global,
    stages: Vec<JobStage>,
    terminal: Terminal,
) -> Result<(Vec<Leg>, Leg), NoMemory>
    requires few { length stages.items ≤ 32 }
    ensures { IfOk result (λ made. (env : Numbers) (ss : List AbstractPlainSource)
        → legs_answer (record { search = None; scans = legs_in made.0.items; last = leg_in made.1 }) env
        (source_walk ss)
        ≡ answer_of (suc (length stages.items)) env (terminal_of terminal)
        (after_stages 1 (job_stages_of stages.items) env (source_walk ss))) }
{
    let end = SegmentEnd::of(terminal);
    let mut begun = Begun::none(alloc);
    for stage in stages {
        begun.add(stage)?;
    }
    begun.ask_for(&end);
    let walked = begun.end_for(end);
    begun.drop_places(&walked);
    let last = begun.take_leg(walked);
    Ok((begun.scans, last))
}
