//! What a segment gives.

ghost use Rattle.std.specs.Prelude.{◌≡◌};
ghost use Rattle.job_routes.specs.Legs.{given_answer, given_walk};

use job_meaning::Answer;
use prefix_walks::GivenWalk;
use trace::End;

/// What a segment makes of its source.
#[derive(Drop)]
pub enum Outcome<'a> {
    /// Of a segment that no terminal ends: what the next leg goes over.
    Source(GivenWalk<'a>),
    /// Of the last leg: the answer of the job.
    Answer(Answer),
}

impl<'a> Outcome<'a> {
    /// The walk that a segment gives; none of one that gives an answer.
    pub fn walk(self) -> GivenWalk<'a>
        ensures { result ≡ given_walk self.entry }
    {
        match self {
            Outcome::Source(given) => given,
            Outcome::Answer(_) => GivenWalk::ended(End::Done),
        }
    }

    /// The answer that a segment gives; 0 of one that gives a walk.
    pub fn answer(self) -> Answer
        ensures { result ≡ given_answer self.entry }
    {
        match self {
            Outcome::Source(_) => Answer::Number(0),
            Outcome::Answer(answer) => answer,
        }
    }
}
