//! The terminals that look for an item, and what one item decides.

ghost use Rattle.std.specs.Prelude.{◌≡◌, flat_map, take};
ghost use Rattle.find_ops.specs.Finds.{find_of, answer_of_none, decision, first_decision};

use crate::find_part::Found;
use lambda_values::{BoolExpr, Env, FaultKind};
use trace::{Fault, Item, SourceItems};

/// A terminal that looks for an item.
#[derive(Drop)]
pub enum FindTerminal {
    /// `findFirst` of `LongStream`: the first value.
    First,
    /// `anyMatch`: whether the test is true at some item.
    AnyMatch(BoolExpr),
    /// `allMatch`: whether the test is true at all items.
    AllMatch(BoolExpr),
    /// `noneMatch`: whether the test is true at no item.
    NoneMatch(BoolExpr),
}

impl FindTerminal {
    /// What a stream gives if no item decides.
    pub fn answer_of_none(&self) -> Found
        ensures { result ≡ answer_of_none (find_of self.now) }
    {
        match self {
            FindTerminal::First => Found::Value(None),
            FindTerminal::AnyMatch(_) => Found::Truth(false),
            FindTerminal::AllMatch(_) | FindTerminal::NoneMatch(_) => Found::Truth(true),
        }
    }

    /// The answer or the fault that an item decides, or `None` if the walk goes on.
    pub fn decision(&self, stage: u32, env: &Env, item: Item) -> Option<Result<Found, Fault>>
        ensures { result ≡ decision (find_of self.now) stage env.now item }
    {
        match self {
            FindTerminal::First => Some(Ok(Found::Value(Some(item.value)))),
            FindTerminal::AnyMatch(test) => match test.eval_at(item, env) {
                Ok(true) => Some(Ok(Found::Truth(true))),
                Ok(false) => None,
                Err(kind) => Some(Err(fault_at(stage, item, kind))),
            },
            FindTerminal::AllMatch(test) => match test.eval_at(item, env) {
                Ok(true) => None,
                Ok(false) => Some(Ok(Found::Truth(false))),
                Err(kind) => Some(Err(fault_at(stage, item, kind))),
            },
            FindTerminal::NoneMatch(test) => match test.eval_at(item, env) {
                Ok(true) => Some(Ok(Found::Truth(false))),
                Ok(false) => None,
                Err(kind) => Some(Err(fault_at(stage, item, kind))),
            },
        }
    }

    /// The decision of the first of these items that decides. For other programs: `streamrun` calls
    /// `first_decision_after`.
    pub fn first_decision(
        &self,
        stage: u32,
        env: &Env,
        items: &[Item],
    ) -> Option<Result<Found, Fault>>
        ensures { result ≡ first_decision (find_of self.now) stage env.now items.now }
    {
        for item in items {
            if let Some(decision) = self.decision(stage, env, *item) {
                return Some(decision);
            }
        }
        None
    }

    /// The decision of the first item that decides among the items of these pieces, one piece after the other.
    /// For other programs, as `first_decision` is.
    pub fn first_decision_in(
        &self,
        stage: u32,
        env: &Env,
        pieces: &[Vec<Item>],
    ) -> Option<Result<Found, Fault>>
        ensures { result ≡ first_decision (find_of self.now) stage env.now
            (flat_map (λ piece. piece.items) pieces.now) }
    {
        for piece in pieces {
            if let Some(decision) = self.first_decision(stage, env, piece) {
                return Some(decision);
            }
        }
        None
    }

    /// The decision of the first item of a source that decides. The items up to this position decide nothing and aren't
    /// read.
    pub fn first_decision_after<I: SourceItems>(
        &self,
        stage: u32,
        env: &Env,
        source: &I,
        position: u64,
    ) -> Option<Result<Found, Fault>>
        requires undecided { first_decision (find_of self.now) stage env.now (take position (I.items source.now))
            ≡ None }
        ensures { result ≡ first_decision (find_of self.now) stage env.now (I.items source.now) }
    {
        for next in position..source.count() {
            if let Some(decision) = self.decision(stage, env, source.item_at(next)) {
                return Some(decision);
            }
        }
        None
    }
}

/// The fault of this stage at this item.
fn fault_at(stage: u32, item: Item, kind: FaultKind) -> Fault
    ensures { result ≡ record { kind = kind; stage = stage; origin = Some item.origin } }
{
    Fault {
        kind,
        stage,
        origin: Some(item.origin),
    }
}
