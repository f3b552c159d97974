//! The answers of finds and of exact sums.

ghost use Rattle.std.specs.Prelude.{◌≡◌};
ghost use Rattle.job_meaning.specs.Walks.{exact_answer, found_answer};

use find_ops::Found;
use job_meaning::Answer;
use trace::Fault;

/// What a find or a match answers.
pub(crate) fn answer_of(found: Result<Found, Fault>) -> Answer
    ensures { result ≡ found_answer found }
{
    match found {
        Ok(Found::Value(value)) => Answer::Optional(value),
        Ok(Found::Truth(truth)) => Answer::Truth(truth),
        Err(fault) => Answer::Fault(fault),
    }
}

/// What an exact sum answers.
pub(crate) fn exact_answer(sum: Result<i64, Fault>) -> Answer
    ensures { result ≡ exact_answer sum }
{
    match sum {
        Ok(sum) => Answer::Number(sum),
        Err(fault) => Answer::Fault(fault),
    }
}
