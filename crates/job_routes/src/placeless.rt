//! Routes whose last leg rests on the values of items alone.

ghost use Rattle.std.specs.Prelude.{◌≡◌, ℕ, List, IsTrue};
ghost use Rattle.lambda_values.specs.Earlier.{Numbers};
ghost use Rattle.trace.specs.Stages.{stage_of, stages_of};
ghost use Rattle.job_language.specs.Jobs.{AbstractPlainSource, item};
ghost use Rattle.job_language.specs.Places.{stage_is_placeless};
ghost use Rattle.job_routes.specs.Building.{IgnorePlaces, begun_walk};
ghost use Rattle.job_routes.specs.Legs.{end_in, ended};

use crate::building::Begun;
use crate::ends::SegmentEnd;
use batch_eval::are_faultless;
use trace::Stage;

impl Begun {
    /// Has a `sorted` at the end of the last leg keep the values of its items alone, if no place of them can show after
    /// it: in no fault, since there is none, and in no `cell` and no `row`.
    pub(crate) fn drop_places(&mut self, end: &SegmentEnd)
        ensures walk { (n : ℕ) (env : Numbers) (ss : List AbstractPlainSource)
            → ended (end_in end.now) n env (begun_walk self.new env ss)
            ≡ ended (end_in end.now) n env (begun_walk self.old env ss) }
        ensures kept { (self.new.links ≡ self.old.links) × (self.new.stages ≡ self.old.stages) }
    {
        if self.links.is_empty() && end.ignores_places() && ignore_places(&self.stages.list) {
            if let Some(leg) = self.scans.last_mut() {
                leg.drop_places();
            }
        }
    }
}

/// Whether all of these stages are maps and filters that can't have a fault, and have neither `cell` nor `row` in them.
fn ignore_places(stages: &[Stage]) -> bool
    ensures { IsTrue result → IgnorePlaces (stages_of stages.now) }
{
    match stages.split_first() {
        None => true,
        Some((stage, later)) => {
            if !is_placeless(stage) {
                return false;
            }
            are_faultless(&stages[..1]) && ignore_places(later)
        }
    }
}

/// Whether a stage has neither `cell` nor `row` in it.
fn is_placeless(stage: &Stage) -> bool
    ensures { result ≡ stage_is_placeless (item (stage_of stage.now)) }
{
    match stage {
        Stage::Map(image) => image.is_placeless(),
        Stage::Filter(test) => test.is_placeless(),
        Stage::FlatMap(inner) => inner.is_placeless(),
    }
}
