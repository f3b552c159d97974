//! What the end of a route asks of the `sorted` or the `distinct` before it.

ghost use Rattle.std.specs.Prelude.{◌≡◌, ◌<◌, ◌+◌, ℕ, List, [], None, IfSome, false, true};
ghost use Rattle.trace.specs.Stages.{stages_of};
ghost use Rattle.lambda_values.specs.Earlier.{Numbers};
ghost use Rattle.batch_eval.specs.Faultless.{AreMaps};
ghost use Rattle.slice_ops.specs.Slices.{limited};
ghost use Rattle.job_language.specs.Jobs.{AbstractPlainSource};
ghost use Rattle.job_routes.specs.Building.{begun_walk};
ghost use Rattle.job_routes.specs.Legs.{end_in, ended};

use crate::building::Begun;
use crate::ends::SegmentEnd;
use batch_eval::are_maps;

impl Begun {
    /// How many items of the last leg are enough for this number of items, if only maps come between.
    fn enough_for(&self, count: u64) -> Option<u64>
        ensures plain { IfSome result (λ _. (self.now.links.items ≡ []) × (self.now.window.to ≡ None) × (0 < count)) }
        ensures maps { IfSome result (λ _. AreMaps (stages_of self.now.stages.list.items)) }
        ensures sum { IfSome result (λ enough. enough ≡ self.now.window.from + count) }
    {
        let is_plain = self.links.is_empty() && self.window.to.is_none() && count > 0;
        if is_plain && are_maps(&self.stages.list) {
            return self.window.from.checked_add(count);
        }
        None
    }

    /// Asks the `sorted` or `distinct` at the end of the last leg for no more items than a `limit` of this number
    /// needs, if only maps come between. Whether it did: the walk is then limited.
    pub(crate) fn ask(&mut self, count: u64) -> bool
        ensures asked { result ≡ true → (env : Numbers) (ss : List AbstractPlainSource)
            → begun_walk self.new env ss ≡ limited count (begun_walk self.old env ss) }
        ensures same { result ≡ false → (env : Numbers) (ss : List AbstractPlainSource)
            → begun_walk self.new env ss ≡ begun_walk self.old env ss }
        ensures kept { (self.new.links ≡ self.old.links) × (self.new.stages ≡ self.old.stages)
            × (self.new.window ≡ self.old.window) }
    {
        let Some(enough) = self.enough_for(count) else {
            return false;
        };
        match self.scans.last_mut() {
            Some(leg) => leg.ask(enough),
            None => false,
        }
    }

    /// Asks for one item, if this end takes no more.
    pub(crate) fn ask_for(&mut self, end: &SegmentEnd)
        ensures walk { (n : ℕ) (env : Numbers) (ss : List AbstractPlainSource)
            → ended (end_in end.now) n env (begun_walk self.new env ss)
            ≡ ended (end_in end.now) n env (begun_walk self.old env ss) }
        ensures kept { (self.new.links ≡ self.old.links) × (self.new.stages ≡ self.old.stages) }
    {
        if end.takes_one() {
            self.ask(1);
        }
    }
}
