//! Maps and filters that are so cheap that what they leave of values is computed where it is read, and not kept.

ghost use Rattle.std.specs.Prelude.{◌≡◌, ◌≤◌, ◌<◌, ◌^◌, IfSome, false, length};
ghost use Rattle.trace.specs.Stages.{stages_of};
ghost use Rattle.batch_eval.specs.BatchItems.{batch_items};
ghost use Rattle.batch_eval.specs.Faultless.{AreFaultless, AreFaultless-prop, left_by};

use crate::piece_buffer::PieceBuffer;
use batch_eval::{BatchItems, Pipeline, Registers, after_stages, feed_at_once};
use lambda_values::Env;
use std::alloc::Global;
use trace::Stage;

/// What cheap stages cost at most. What they leave of a value is computed twice, for the fold of a piece and where the
/// piece is read, and takes no memory. With several workers, or where most values pass, that takes less time than to
/// write what is left and to read it again. With one worker it takes more where few pass.
const MOST_COST: u32 = 5;

/// Maps and filters, one after the other. Each names no earlier job and can't have a fault. There may be none.
#[derive(Clone, Copy)]
pub struct CheapStages<'a> {
    alloc: Global,
    pub(crate) stages: &'a [Stage],
    ghost cheap: { AreFaultless false (stages_of stages.now) } by { AreFaultless-prop false (stages_of stages.now) },
    ghost few: { length stages.now < 2 ^ 32 },
}

impl<'a> CheapStages<'a> {
    /// These stages, if all of them are cheap, can't have a fault and name no earlier job. `None` is right of all
    /// stages: that it isn't answered without need is speed, which no clause says.
    pub fn of(alloc: Global, stages: &'a [Stage]) -> Option<CheapStages<'a>>
        requires { length stages.now < 2 ^ 32 }
        ensures { IfSome result (λ cheap. cheap.stages.now ≡ stages.now) }
    {
        let _ = after_stages(stages, MOST_COST, false)?;
        Some(CheapStages { alloc, stages })
    }

    /// Puts what the stages leave of up to 1,024 items into a buffer.
    pub(crate) fn put(
        &self,
        lent: &BatchItems<'_>,
        registers: &mut Registers,
        buffer: &mut PieceBuffer,
    )
        requires { length (batch_items lent.now) ≤ 1024 }
        ensures { buffer.new ≡ left_by (stages_of self.now.stages.now) (batch_items lent.now) }
    {
        buffer.clear();
        let env = Env::empty(self.alloc);
        let line = Pipeline {
            stages: self.stages,
            first: 0,
            env: &env,
        };
        let _ = feed_at_once(line, lent, registers, buffer);
    }
}
