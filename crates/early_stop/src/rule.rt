//! The rule of the words, and what each step means to its caller.
ghost use Rattle.std.specs.Prelude.{ℕ, ◌+◌, ⊤};
ghost use Rattle.early_stop.specs.Decisive.{IsDecisive};
ghost use Rattle.early_stop.specs.Cuts.{Ruled, blank, rest_view, part_view, lowered_at, seen_at};

use crate::segments::Segments;
use crate::view::KnownPlaces;
use atomic_table::{Play, Split, TableRule};
use std::marker::{Brand, PhantomData};

pub struct CutRule<S> {
    of: PhantomData<S>,
}

impl<S: Segments> TableRule<(), KnownPlaces, S> for CutRule<S> {
    ghost holds = { λ z. Ruled (λ i. IsDecisive (S.outcome z i) (S.source z i)) (S.count z + 1) };

    ghost first = { λ _. blank };
}

/// Whose step it is, over which segments. Each call picks it.
pub trait CutActor {
    ghost decides: { ℕ → ℕ → Type 0 };

    ghost words: { ℕ };

    ghost actor: { ℕ };
}

impl CutActor for Brand {
    ghost decides = { λ _ _. ⊤ };

    ghost words = { 0 };

    ghost actor = { 0 };
}

pub struct Lower<A> {
    of: PhantomData<A>,
}

impl<A: CutActor> Play<(), KnownPlaces> for Lower<A> {
    ghost then = { lowered_at A.decides A.words A.actor };
}

pub struct See<A> {
    of: PhantomData<A>,
}

impl<A: CutActor> Play<(), KnownPlaces> for See<A> {
    ghost then = { seen_at A.decides A.words A.actor };
}

pub struct SplitPlaces;

impl Split<KnownPlaces> for SplitPlaces {
    ghost left = { rest_view };

    ghost right = { part_view };
}
