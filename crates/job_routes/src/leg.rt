//! A leg of a route: what a walk goes through at once.

ghost use Rattle.std.specs.Prelude.{◌≡◌, ◌≤◌, Some, false, length, true};
ghost use Rattle.lambda_values.specs.Earlier.{Numbers};
ghost use Rattle.trace.specs.Trace.{Trace};
ghost use Rattle.sort_ops.specs.Parts.{done_after};
ghost use Rattle.sort_ops.specs.Runs.{with_places};

use crate::numbered_stages::NumberedStages;
use crate::segment::Segment;
use prefix_walks::Window;
use slice_ops::Slice;

/// A slice, and the stages before it: the slice is the stage after them.
#[derive(Drop)]
pub struct Link {
    pub stages: NumberedStages,
    pub slice: Slice,
}

/// What a walk goes through at once: slices one after another, and the segment after them.
#[derive(Drop)]
pub struct Leg {
    /// The positions that it goes over.
    pub window: Window,
    pub links: Vec<Link>,
    pub last: Segment,
    ghost few: { length links.items ≤ 32 },
}

impl Leg {
    ghost use Rattle.job_routes.specs.Legs.{given_walk, is_one_piece, leg_in, leg_outcome};

    /// Whether the walk is one piece, whatever its length is: it goes through slices, or it is an exact sum of the many
    /// items that one may be made into.
    pub fn streams(&self) -> bool
        ensures { result ≡ is_one_piece (leg_in self.now) }
    {
        match self.links.split_first() {
            Some(_) => true,
            None => self.last.is_in_order(),
        }
    }

    /// Asks a `sorted` or a `distinct` at its end for this number of items at most. Whether there is one of them.
    pub(crate) fn ask(&mut self, enough: u64) -> bool
        ensures asked { result ≡ true → (env : Numbers) (t : Trace)
            → given_walk (leg_outcome (leg_in self.new) env t)
            ≡ done_after (Some enough) (given_walk (leg_outcome (leg_in self.old) env t)) }
        ensures same { result ≡ false → (env : Numbers) (t : Trace)
            → given_walk (leg_outcome (leg_in self.new) env t) ≡ given_walk (leg_outcome (leg_in self.old) env t) }
    {
        self.last.end.ask(enough)
    }

    /// Has a `sorted` at its end keep the values of its items alone. Whether there is one.
    pub(crate) fn drop_places(&mut self) -> bool
        ensures dropped { result ≡ true → (env : Numbers) (t : Trace)
            → given_walk (leg_outcome (leg_in self.new) env t)
            ≡ with_places false (given_walk (leg_outcome (leg_in self.old) env t)) }
        ensures same { result ≡ false → (env : Numbers) (t : Trace)
            → given_walk (leg_outcome (leg_in self.new) env t) ≡ given_walk (leg_outcome (leg_in self.old) env t) }
    {
        self.last.end.drop_places()
    }
}
