//! Filters of a batch.
//!
//! A `filter` writes a flag for each lane, and moves nothing. Stages after it may go over all lanes, whatever their
//! flags are, and a further `filter` clears flags. As long as most lanes pass, that is faster than to move their items;
//! so it is where few operators are left and the sink takes flags.

ghost use Rattle.batch_eval.specs.Batches.{flagged_walk, set_items};
ghost use Rattle.batch_eval.specs.Lanes.{at};
ghost use Rattle.batch_eval.specs.Pipelines.{piped};
ghost use Rattle.batch_eval.specs.Rooms.{FitsEach, FitsTest};
ghost use Rattle.lambda_values.specs.Term.{truth_of};
ghost use Rattle.std.specs.Prelude.{◌≡◌, ℕ, ◌<◌, ◌≤◌, IsTrue, false, length};
ghost use Rattle.trace.specs.Stages.{filter, of_item, stages_of};
ghost use Rattle.trace.specs.Trace.{each};

use crate::batch::{Batch, stopped};
use crate::cheap::is_cheap;
use crate::choose::{SAMPLE, select};
use crate::in_place::lane_test;
use crate::keep::keep_lanes;
use crate::lanes::{Number, Own};
use crate::number_test::NumberTest;
use crate::operands::connect;
use crate::pipeline::Pipeline;
use crate::register::{Inputs, Operand, eval_bool, eval_long};
use crate::rows::Rows;
use lambda_values::{BoolExpr, Connective};
use std::mem;
use trace::Stage;

/// Whether at least half of the first flags are set, up to 128. A flag that is set is -1: their sum needs no branch.
fn most_are_set(flags: &[i64], live: usize) -> bool
    requires { live ≤ length flags.now }
{
    let count = live.min(SAMPLE);
    let mut set: i64 = 0;
    for lane in 0..count {
        set = set.wrapping_sub(flags[lane]);
    }
    set >= count as i64 / 2
}

/// Whether an operand is evaluated at all lanes: it is cheap, and all stages stay in lanes or most flags are set.
fn is_worth(operand: Operand<'_>, in_lanes: bool, flags: &[i64], live: usize) -> bool
    requires { live ≤ length flags.now }
{
    is_cheap(operand) && (in_lanes || most_are_set(flags, live))
}

impl Batch {
    /// `filter` of `LongStream`, but no item is moved: those of the lanes whose flag is set pass.
    pub(crate) fn flag_lanes(
        &mut self,
        test: &BoolExpr,
        line: Pipeline<'_>,
        flags: &mut [i64],
        room: &mut [i64],
    )
        requires flags { length flags.old ≡ 1024 }
        requires room { FitsTest (truth_of test.now) (length room.old) }
        ensures { flagged_walk flags.new self.new ≡ each (of_item line.entry.first (filter (truth_of test.now))
            line.entry.env.now) self.old.items self.old.ending }
    {
        let inputs = Inputs {
            env: line.env,
            xs: &self.values,
            live: self.live,
            rows: Rows::of(self.start, &self.origins),
        };
        let reached = eval_bool(test, inputs, flags, room);
        self.end = stopped(
            self.end,
            line.first,
            self.live,
            self.start,
            &self.origins,
            reached,
        );
        self.live = reached.live;
    }

    /// Goes through `map`s and `filter`s over all lanes, as long as all stages stay in lanes or most flags are set, an
    /// expression is cheap, and no lane has a fault. The result are the stages to come.
    pub(crate) fn sift<'a>(
        &mut self,
        line: Pipeline<'a>,
        in_lanes: bool,
        flags: &mut [i64],
        room: &mut [i64],
    ) -> Pipeline<'a>
        requires flags { length flags.old ≡ 1024 }
        requires room { FitsEach (stages_of line.stages.now) (length room.old) }
        ensures walk { piped result (flagged_walk flags.new self.new)
            ≡ piped line.entry (flagged_walk flags.old self.old) }
        ensures fewer { length result.stages.now ≤ length line.entry.stages.now }
        ensures room { FitsEach (stages_of result.stages.now) (length room.old) }
    {
        let inputs = Inputs {
            env: line.env,
            xs: &self.values,
            live: self.live,
            rows: Rows::of(self.start, &self.origins),
        };
        match line.split_first() {
            Some((Stage::Map(image), later))
                if is_worth(Operand::Long(image), in_lanes, flags, self.live) => {
                if eval_long(image, inputs, &mut self.spare, room).live < self.live {
                    return line;
                }
                mem::swap(&mut self.values, &mut self.spare);
                self.sift(later, in_lanes, flags, room)
            }
            Some((Stage::Filter(test), later))
                if is_worth(Operand::Bool(test), in_lanes, flags, self.live) => {
                if !self.clear_flags(test, line, flags, room) {
                    return line;
                }
                self.sift(later, in_lanes, flags, room)
            }
            _ => line,
        }
    }

    /// Clears the flags of the lanes at which a test isn't true, if no lane has a fault; else answers false. A test of
    /// numbers where they lie with a number takes no loop but the one that clears flags.
    fn clear_flags(
        &mut self,
        test: &BoolExpr,
        line: Pipeline<'_>,
        flags: &mut [i64],
        room: &mut [i64],
    ) -> bool
        requires flags { length flags.old ≡ 1024 }
        requires room { FitsTest (truth_of test.now) (length room.old) }
        ensures cleared { IsTrue result → flagged_walk flags.new self.new
            ≡ each (of_item line.entry.first (filter (truth_of test.now)) line.entry.env.now)
            (set_items flags.old self.old.items) self.old.ending }
        ensures other { result ≡ false → (flags.new ≡ flags.old) × (self.new ≡ self.old) }
    {
        let inputs = Inputs {
            env: line.env,
            xs: &self.values,
            live: self.live,
            rows: Rows::of(self.start, &self.origins),
        };
        if let Some(right) = lane_test(test, inputs) {
            connect(Connective::And, right, self.live, flags);
            return true;
        }
        if eval_bool(test, inputs, &mut self.spare, room).live < self.live {
            return false;
        }
        let set = NumberTest::is_set();
        select(&self.spare, set, Own, Number(0), self.live, flags);
        true
    }

    /// Moves the items of the lanes whose flag is set to the front.
    pub(crate) fn keep(&mut self, flags: &[i64])
        requires { length flags.now ≡ 1024 }
        ensures { self.new ≡ flagged_walk flags.now self.old }
    {
        self.live = keep_lanes(
            flags,
            self.live,
            self.start,
            &mut self.values,
            &mut self.origins,
        );
        self.start = None;
    }
}
