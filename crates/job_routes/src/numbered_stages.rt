//! Stages that look at one item at a time, with their numbers in a job.

ghost use Rattle.std.specs.Prelude.{◌+◌, ◌<◌, ◌^◌, length};

use batch_eval::{Pipeline, are_faultless};
use lambda_values::{Env, LongExpr};
use std::alloc::Global;
use trace::{NoMemory, Stage};

/// Stages that look at one item at a time, one after another.
#[derive(Drop)]
pub struct NumberedStages {
    /// The number of the first one, or of the next stage if there is none.
    pub first: u32,
    pub list: Vec<Stage>,
    ghost numbered: { first + length list.items < 2 ^ 32 },
}

impl NumberedStages {
    ghost use Rattle.std.specs.Prelude.{◌≡◌, ◌≤◌, suc, [], OnOk};
    ghost use Rattle.lambda_values.specs.Earlier.{Numbers};
    ghost use Rattle.trace.specs.Stages.{stage_of, through};
    ghost use Rattle.trace.specs.Trace.{Trace};
    ghost use Rattle.batch_eval.specs.Pipelines.{piped};
    ghost use Rattle.job_routes.specs.Legs.{number_after, walk_through};

    /// No stages. The first one to come has this number.
    pub fn none(alloc: Global, first: u32) -> NumberedStages
        ensures { (result.first ≡ first) × (result.list.items ≡ []) }
    {
        NumberedStages {
            first,
            list: Vec::new(alloc),
        }
    }

    /// The number of the stage that comes next.
    pub fn next(&self) -> u32
        ensures { result ≡ number_after self.now }
    {
        self.first + self.list.len() as u32
    }

    /// Adds a stage.
    pub(crate) fn push(&mut self, stage: Stage) -> Result<(), NoMemory>
        requires few { number_after self.old ≤ 32 }
        ensures walk { OnOk result ((env : Numbers) (t : Trace) → walk_through self.new env t
            ≡ through (number_after self.old) (stage_of stage) env (walk_through self.old env t)) }
        ensures number { OnOk result (number_after self.new ≡ suc (number_after self.old)) }
    {
        self.list.push(stage)?;
        Ok(())
    }

    /// Passes over a stage that does nothing here. Without faults before it no number shows; else it becomes a map that
    /// changes nothing.
    pub(crate) fn pass_over(&mut self) -> Result<(), NoMemory>
        requires few { number_after self.old ≤ 32 }
        ensures walk { OnOk result ((env : Numbers) (t : Trace)
            → walk_through self.new env t ≡ walk_through self.old env t) }
        ensures number { OnOk result (number_after self.new ≡ suc (number_after self.old)) }
    {
        if are_faultless(&self.list) {
            self.first += 1;
            return Ok(());
        }
        self.push(Stage::Map(LongExpr::Parameter(0)))
    }

    /// Adds the stages that come next.
    pub(crate) fn append(&mut self, later: NumberedStages) -> Result<(), NoMemory>
        requires next { later.first ≡ number_after self.old }
        ensures walk { OnOk result ((env : Numbers) (t : Trace)
            → walk_through self.new env t ≡ walk_through later env (walk_through self.old env t)) }
        ensures number { OnOk result (number_after self.new ≡ number_after later) }
    {
        let mut list = later.list;
        self.list.append(&mut list)?;
        Ok(())
    }

    /// The stages, with these values of the job's names.
    pub fn pipeline<'a>(&'a self, env: &'a Env<'a>) -> Pipeline<'a>
        ensures walk { (t : Trace) → piped result t ≡ walk_through self.now env.now t }
        ensures env { result.env.now ≡ env.now }
    {
        Pipeline {
            stages: &self.list,
            first: self.first,
            env,
        }
    }
}
