//! The counts of a completion tree.
ghost use Rattle.std.specs.Prelude.{◌≡◌, ◌+◌, ◌*◌};

use crate::place::{Fits, Slot};
use crate::rule::Rule;
use crate::view::{Sizes, View};
use atomic_table::Table;
use completion_core::Node;
use std::alloc::Global;

pub(crate) type Words<V, K, T> = Table<Option<Slot<V, K>>, View<T>, Sizes, Rule<V, K>, Global>;

/// The pending counts of many nodes, each in an atomic word of its own, and of END. Threads share it by `&`; what each
/// of them may do stands in its `Seat`.
#[derive(Drop)]
pub struct Counts<V, K: Fits<V>> {
    pub(crate) table: Words<V, K, K::Tag>,
    pub(crate) nodes: Node,
    ghost words: { (table.shared.table_id.words ≡ nodes + 2) × (table.shared.table_id.slots ≡ 3 * (nodes + 1)) },
    ghost sized: { table.shared.key.nodes ≡ nodes },
}
