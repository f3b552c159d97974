//! The words of early stop, and the token of one thread.
ghost use Rattle.std.specs.Prelude.{◌≡◌, ◌+◌};

use crate::rule::CutRule;
use crate::segments::Segments;
use crate::view::KnownPlaces;
use atomic_table::Table;
use std::alloc::Global;

/// For each segment a place of its source, in an atomic word of its own. Threads share it by `&`; each steps with its
/// own `CutSeat`.
#[derive(Drop)]
pub struct Cut<S: Segments> {
    pub(crate) table: Table<(), KnownPlaces, S, CutRule<S>, Global>,
    pub(crate) segments: u32,
    ghost words: { table.shared.table_id.words ≡ segments + 1 },
}

/// A token of one thread, which is passed to each call and given back.
#[derive(Drop)]
pub struct CutSeat {
    pub(crate) token: atomic_table::Seat<(), KnownPlaces>,
}
