//! What is asked of the items of a job, and what that gives to jobs that name it.
ghost use Rattle.std.specs.Prelude.{◌≡◌};
ghost use Rattle.job_language.specs.Jobs.{given_by, terminal_of};

use find_ops::FindTerminal;
use reduce_ops::Op;

/// What is asked of the items of a job.
#[derive(Drop)]
pub enum Terminal {
    /// `sum()`, wrapping to 64 bits.
    Sum,
    /// `count()`.
    Count,
    /// `min()`.
    Min,
    /// `max()`.
    Max,
    /// `toArray()`.
    ToArray,
    /// `reduce(OPERATOR)`.
    Reduce(Op),
    /// `reduce(identity, OPERATOR)`; the number is the operator's identity.
    ReduceFrom { identity: i64, op: Op },
    /// `findFirst()` and the three matches.
    Find(FindTerminal),
    /// `reduce(0, Math::addExact)` and `sumExact()`: the sum, or a fault at the first item after which it is outside
    /// 64 bits.
    ExactSum,
}

/// What the terminal of a job gives.
#[derive(Clone, Copy, PartialEq, Eq)]
pub enum Gives {
    /// A number, or none.
    Number,
    Boolean,
    Array,
}

impl Terminal {
    /// What the terminal gives.
    pub fn gives(&self) -> Gives
        ensures { result ≡ given_by (terminal_of self.now) }
    {
        match self {
            Terminal::ToArray => Gives::Array,
            Terminal::Find(find) => match find {
                FindTerminal::First => Gives::Number,
                _ => Gives::Boolean,
            },
            Terminal::Sum
            | Terminal::Count
            | Terminal::Min
            | Terminal::Max
            | Terminal::Reduce(_)
            | Terminal::ReduceFrom { .. }
            | Terminal::ExactSum => Gives::Number,
        }
    }
}
