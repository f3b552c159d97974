//! Items of a piece.

ghost use Rattle.std.specs.Prelude.{◌≡◌, length};
ghost use Rattle.prefix_walks.specs.Scans.{items_in};

use crate::piece_buffer::PieceBuffer;
use crate::stored::Stored;
use crate::worked::Worked;
use batch_eval::Registers;

/// Items side by side, up to 1,024 of them.
#[derive(Drop)]
pub enum PieceItems<'a> {
    Stored(Stored),
    Worked(Worked<'a>),
}

impl PieceItems<'_> {
    /// How many items there are.
    pub(crate) fn count(&self) -> usize
        ensures { result ≡ length (items_in self.now) }
    {
        match self {
            PieceItems::Stored(stored) => stored.count(),
            PieceItems::Worked(worked) => worked.count,
        }
    }

    /// Puts the items into a buffer.
    pub(crate) fn put(&self, registers: &mut Registers, buffer: &mut PieceBuffer)
        ensures { buffer.new ≡ items_in self.now }
    {
        match self {
            PieceItems::Stored(stored) => stored.put(buffer),
            PieceItems::Worked(worked) => worked.stages.put(&worked.lent, registers, buffer),
        }
    }
}
