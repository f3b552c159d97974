//! What the pieces of a stream decide, and how they merge in encounter order.

ghost use Rattle.std.specs.Prelude.{◌≡◌, ℕ, [], ◌∷◌, is_some, None, take};
ghost use Rattle.trace.specs.declared.item.End.TheVariants as end;
ghost use Rattle.trace.specs.Trace.{Trace, trace, append};
ghost use Rattle.lambda_values.specs.Earlier.{Numbers};
ghost use Rattle.find_ops.specs.Finds.{Find, find_of, find_answer, first_decision, decision_at_end};
ghost use Rattle.find_ops.specs.Parts.{StandsFor};

use crate::terminal::FindTerminal;
use lambda_values::Env;
use trace::{Chunk, End, Fault, Item, SourceItems};

/// The answer of a find or a match.
#[derive(Clone, Copy, PartialEq, Eq)]
pub enum Found {
    /// The answer of `findFirst`: the first value, if there is one.
    Value(Option<i64>),
    /// The answer of a match.
    Truth(bool),
}

/// What a piece of a stream decides.
///
/// Its size doesn't depend on the piece, and no call takes memory.
#[derive(Clone, Copy)]
pub struct FindPart {
    /// The answer or the fault of the first item that decides, or the fault that ended the piece.
    decision: Option<Result<Found, Fault>>,
    /// What a stream gives that decides nothing.
    otherwise: Found,
}

impl FindPart {
    /// The part of a piece without items that ended so.
    pub fn none(terminal: &FindTerminal, end: End) -> FindPart
        ensures stands { (stage : ℕ) (env : Numbers)
            → StandsFor (find_of terminal.now) stage env result (trace [] end) }
    {
        FindPart {
            decision: decision_at(end),
            otherwise: terminal.answer_of_none(),
        }
    }

    /// The part of a piece. The terminal is the stage with this number.
    ///
    /// For other programs: `streamrun` looks at items as they come, by `look_after`.
    pub fn of(terminal: &FindTerminal, stage: u32, chunk: &Chunk, env: &Env) -> FindPart
        ensures stands { StandsFor (find_of terminal.now) stage env.now result chunk.now }
    {
        let decision = terminal.first_decision_in(stage, env, chunk.pieces());
        FindPart {
            decision: decision.or(decision_at(chunk.end())),
            otherwise: terminal.answer_of_none(),
        }
    }

    /// The part of this piece and one more item after it.
    pub fn look_at(self, terminal: &FindTerminal, stage: u32, env: &Env, item: Item) -> FindPart
        ensures stands { (t : Trace) → StandsFor (find_of terminal.now) stage env.now self t
            → StandsFor (find_of terminal.now) stage env.now result (append t (trace (item ∷ []) end.Done)) }
    {
        match self.decision {
            Some(_) => self,
            None => FindPart {
                decision: terminal.decision(stage, env, item),
                otherwise: self.otherwise,
            },
        }
    }

    /// The part of this piece and the items of a source after it. The items up to this position decide nothing. It
    /// looks at the others until one decides.
    pub fn look_after<I: SourceItems>(
        self,
        terminal: &FindTerminal,
        stage: u32,
        env: &Env,
        source: &I,
        position: u64,
    ) -> FindPart
        requires undecided { first_decision (find_of terminal.now) stage env.now
            (take position (I.items source.now)) ≡ None }
        ensures stands { (t : Trace) → StandsFor (find_of terminal.now) stage env.now self t
            → StandsFor (find_of terminal.now) stage env.now result (append t (trace (I.items source.now) end.Done)) }
    {
        if self.decision.is_some() {
            return self;
        }
        FindPart {
            decision: terminal.first_decision_after(stage, env, source, position),
            otherwise: self.otherwise,
        }
    }

    /// The part of two pieces that lie side by side: the left one decides first.
    pub fn merge(self, right: FindPart) -> FindPart
        ensures stands { (d : Find) (stage : ℕ) (env : Numbers) (a b : Trace) → StandsFor d stage env self a
            → StandsFor d stage env right b → StandsFor d stage env result (append a b) }
    {
        FindPart {
            decision: self.decision.or(right.decision),
            otherwise: self.otherwise,
        }
    }

    /// The part of this piece if it ends so.
    pub fn end_with(self, end: End) -> FindPart
        ensures stands { (d : Find) (stage : ℕ) (env : Numbers) (t : Trace) → StandsFor d stage env self t
            → StandsFor d stage env result (append t (trace [] end)) }
    {
        FindPart {
            decision: self.decision.or(decision_at(end)),
            otherwise: self.otherwise,
        }
    }

    /// Whether no further piece can change the answer.
    pub fn is_decided(&self) -> bool
        ensures { result ≡ is_some self.now.decision }
    {
        self.decision.is_some()
    }

    /// The answer of the terminal, or the fault that comes before it.
    pub fn finish(self) -> Result<Found, Fault>
        ensures { (d : Find) (stage : ℕ) (env : Numbers) (t : Trace) → StandsFor d stage env self t
            → result ≡ find_answer d stage env t }
    {
        match self.decision {
            Some(decision) => decision,
            None => Ok(self.otherwise),
        }
    }
}

/// The fault in which a walk ended.
fn decision_at(end: End) -> Option<Result<Found, Fault>>
    ensures { result ≡ decision_at_end end }
{
    match end {
        End::Done => None,
        End::Fault(fault) => Some(Err(fault)),
    }
}
