//! What a job gives after a fault.

ghost use Rattle.std.specs.Prelude.{◌≡◌, option_map};
ghost use Rattle.job_language.specs.Jobs.{terminal_of};
ghost use Rattle.job_meaning.specs.Walks.{fallback_as};
ghost use Rattle.job_routes.specs.Legs.{fallback_in};

use crate::ends::number_as;
use job_language::Terminal;
use job_meaning::Answer;

/// What a job gives after a fault, in the form in which its terminal answers.
#[derive(Clone, Copy)]
pub enum Fallback {
    /// Of `sum`, `count`, and `reduce` from a number.
    Number(i64),
    /// Of a terminal that gives an optional.
    Optional(i64),
}

impl Fallback {
    /// The fallback as an answer.
    pub fn answer(self) -> Answer
        ensures { result ≡ fallback_in self }
    {
        match self {
            Fallback::Number(number) => Answer::Number(number),
            Fallback::Optional(number) => Answer::Optional(Some(number)),
        }
    }
}

/// The fallback of a job whose `onFault` has this number, in the form in which the terminal gives numbers; none without
/// a number.
pub fn fallback_of(terminal: &Terminal, number: Option<i64>) -> Option<Fallback>
    ensures { option_map fallback_in result ≡ fallback_as (terminal_of terminal.now) number }
{
    number_as(terminal, number?)
}
