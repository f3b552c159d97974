//! The answers of earlier jobs.
ghost use Rattle.std.specs.Prelude.{ℕ, IfSome, [], ◌≡◌};
ghost use Rattle.job_runner.specs.Runs.{AreAnswers, AreAnswers-prop};

use crate::legs::JobLegs;
use crate::places::{JobPlaces, kept_answer};

/// Answers of jobs, as far as they are there.
pub trait EarlierAnswers<A> {
    // It is the answer of this job.
    ghost is_answer: { ℕ → A → Type 0 };

    /// The answer of a job, if it is there.
    fn answer(&self, job: usize) -> Option<&A>
        ensures { IfSome result (λ answer. is_answer job answer.now) };
}

/// The answers of earlier jobs that are there: left by tasks in places, or worked out by a reader.
#[derive(Drop)]
pub struct Earlier<'a, S: JobLegs> {
    places: &'a [JobPlaces<S>],
    answers: &'a [S::Answer],
    ghost are: { AreAnswers S.run.is_answer 0 answers.now } by { AreAnswers-prop S.run 0 answers.now },
}

impl<'a, S: JobLegs> Earlier<'a, S> {
    /// The answers that these places have.
    pub(crate) fn in_places(places: &'a [JobPlaces<S>]) -> Earlier<'a, S> {
        Earlier {
            places,
            answers: &[],
        }
    }

    /// These answers, which the first jobs have.
    pub(crate) fn listed(answers: &'a [S::Answer]) -> Earlier<'a, S>
        requires { AreAnswers S.run.is_answer 0 answers.now }
    {
        Earlier {
            places: &[],
            answers,
        }
    }
}

impl<S: JobLegs> EarlierAnswers<S::Answer> for Earlier<'_, S> {
    ghost is_answer = { S.run.is_answer };

    #[tactic(auto, using(crate::proofs::AnswerLemmas::answer_got))]
    fn answer(&self, job: usize) -> Option<&S::Answer> {
        match self.answers.get(job) {
            Some(answer) => Some(answer),
            None => kept_answer(self.places, job),
        }
    }
}
