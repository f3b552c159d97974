//! What a seat knows, for proofs alone.
ghost use Rattle.std.specs.Prelude.{ℕ, Bool, List, Option};
ghost use Rattle.std.specs.Borrow.{ftrue};
ghost use Rattle.std.specs.Coded.{coded×, coded_ℕ, coded_list, coded_option};

use std::marker::{Model, PhantomData};

/// What a seat holds, what it has armed, and what it has seen. `T` is the type of a pair's tag. No value of it is made.
pub struct View<T> {
    /// What the seat may still pay with: a claim costs one, and an addition of `d` arrivals costs `d`.
    pub ghost credit: { ℕ },
    /// How many arrivals the seat has added, or one that was joined into it. It is never taken back.
    pub ghost added: { ℕ },
    /// The arrivals that it has to make, each by its node.
    pub ghost held: { List ℕ },
    /// Which of the arrivals in `held` are sides of pairs, each by the slot of its value.
    pub ghost sides: { List ℕ },
    /// The slots that are out with it.
    pub ghost taken: { List ℕ },
    /// The nodes that it drew and hasn't armed.
    pub ghost claims: { List ℕ },
    /// The record of the nodes that it armed, each with the arrivals that it was given to keep. It is never taken back.
    pub ghost armed: { List (ℕ × List ℕ) },
    /// The sides among the arrivals that the nodes in `armed` keep.
    pub ghost armed_sides: { List (ℕ × List ℕ) },
    /// Notes of records that were armed, also from seats that it was split off from.
    pub ghost noted: { List (ℕ × List ℕ) },
    /// Notes of the sides in records that were armed.
    pub ghost noted_sides: { List (ℕ × List ℕ) },
    /// The tags of pairs, each by its node.
    pub ghost tags: { List (ℕ × T) } by { coded_list (coded× coded_ℕ T.code) },
    /// Notes of the places of kept values, each by the pair's node: a node, a side by its slot, a top and a tag.
    pub ghost places: { List (ℕ × Option (ℕ × (ℕ × (ℕ × T)))) } by { coded_list
        (coded× coded_ℕ (coded_option (coded× coded_ℕ (coded× coded_ℕ (coded× coded_ℕ T.code))))) },
    /// The least that END's word has shown.
    pub ghost seen: { Option ℕ },
    /// Whether a claim found no node left.
    pub ghost none_left: { Bool },
    of: PhantomData<T>,
}

impl<T> Model for View<T> {
    ghost also_owns = { λ _. ftrue };
}

/// What the table is made with.
#[derive(Drop)]
pub struct Sizes {
    pub nodes: u32,
    pub ends: u64,
}
