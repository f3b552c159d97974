//! The stages that a walk goes through, with what they need.

ghost use Rattle.std.specs.Prelude.{◌≡◌, ◌∷◌, [], ◌+◌, ◌<◌, ◌^◌, IfNone, IfSome, length};

use lambda_values::Env;
use trace::Stage;

/// Stages, the number of the first one in its job, and the values of the names that lambdas of the job use.
#[derive(Clone, Copy)]
pub struct Pipeline<'a> {
    pub stages: &'a [Stage],
    pub first: u32,
    pub env: &'a Env<'a>,
    ghost numbered: { first + length stages.now < 2 ^ 32 },
}

impl<'a> Pipeline<'a> {
    /// The first stage, and the pipeline after it.
    pub(crate) fn split_first(self) -> Option<(&'a Stage, Pipeline<'a>)>
        ensures stages { IfSome result (λ parts. self.entry.stages.now ≡ parts.0.now ∷ parts.1.stages.now) }
        ensures first { IfSome result (λ parts. parts.1.first ≡ self.entry.first + 1) }
        ensures env { IfSome result (λ parts. parts.1.env.now ≡ self.entry.env.now) }
        ensures none { IfNone result (self.entry.stages.now ≡ []) }
    {
        let (stage, stages) = self.stages.split_first()?;
        let later = Pipeline {
            stages,
            first: self.first + 1,
            env: self.env,
        };
        Some((stage, later))
    }
}
