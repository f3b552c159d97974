//! The registers of one worker, from walk to walk.

ghost use Rattle.batch_eval.specs.Rooms.{FitsStages};
ghost use Rattle.std.specs.Prelude.{◌≡◌, IfOk, IfSome, None, Some, length};
ghost use Rattle.trace.specs.Stages.{stages_of};

use crate::batch::Batch;
use crate::inner_columns::rest_fits;
use crate::register::LANES;
use crate::room::stages_fit;
use lambda_values::BoolExpr;
use std::alloc::Global;
use trace::{NoMemory, Stage};

/// How many numbers flags and expressions may take while they are evaluated: those of 6 registers, if these are enough,
/// and at most those of 528. A choice 64 deep takes 257, and each operand of inner streams one more. `Space::new` says
/// what the two more numbers are for.
const ROOMS: [usize; 5] = [
    6 * LANES + 2,
    33 * LANES + 2,
    66 * LANES + 2,
    132 * LANES + 2,
    264 * LANES + 2,
];

const MOST_ROOM: usize = 528 * LANES + 2;

/// A walk over fewer items isn't worth registers, unless each item may become many.
const LEAST_ITEMS: u64 = 8;

/// A walk over fewer items isn't worth an allocation of registers, unless each item may become many.
const FEW_ITEMS: u64 = 64;

/// What walks by batches of up to 1,024 items keep their values in.
///
/// A worker has one and uses it for each walk. The first walk that needs registers allocates 72 KB, one with larger
/// expressions up to 4.4 MB, and each `flatMap` 24 KB. Nothing is kept from one walk to the next.
#[derive(Drop)]
pub struct Registers {
    alloc: Global,
    space: Option<Space>,
}

/// Registers that are allocated: a batch, and room for what expressions need besides.
#[derive(Drop)]
pub(crate) struct Space {
    pub(crate) batch: Batch,
    /// Batches for the inner values of `flatMap`s.
    pub(crate) nested: Vec<Batch>,
    pub(crate) room: Vec<i64>,
}

impl Registers {
    /// Registers for one worker at a time. It takes no memory.
    pub fn new(alloc: Global) -> Registers
        ensures { result.space ≡ None }
    {
        Registers { alloc, space: None }
    }

    /// Registers that these stages can use for a walk over this number of items, moved out; a sink's test and operands
    /// of inner streams as well, as far as 528 of them are enough. There are none if the stages need more, if the items
    /// are under 8, or under 64 and an allocation would be needed, without a `flatMap`, or if an allocation failed.
    pub(crate) fn take_for(
        &mut self,
        stages: &[Stage],
        test: Option<&BoolExpr>,
        count: u64,
    ) -> Option<Space>
        ensures { IfSome result (λ space. FitsStages (stages_of stages.now) (length space.room.items)) }
    {
        let mut space = self.take_room(stages, test, count)?;
        space.nest(self.alloc, stages);
        Some(space)
    }

    /// Registers for a walk of these stages over this number of items, moved out, or none as in `take_for`. They may
    /// have no batches for inner values.
    fn take_room(&mut self, stages: &[Stage], test: Option<&BoolExpr>, count: u64) -> Option<Space>
        ensures { IfSome result (λ space. FitsStages (stages_of stages.now) (length space.room.items)) }
    {
        let grows = may_grow(stages);
        if count < LEAST_ITEMS && !grows {
            return None;
        }
        if let Some(space) = self.space.take() {
            let room = space.room.len();
            if stages_fit(stages, room) && (rest_fits(stages, test, room) || room >= MOST_ROOM) {
                return Some(space);
            }
        }
        if count < FEW_ITEMS && !grows {
            return None;
        }
        let room = room_for(stages, test);
        if !stages_fit(stages, room) {
            return None;
        }
        Space::new(self.alloc, room).ok()
    }

    /// Takes registers back, for a later walk.
    pub(crate) fn put_back(&mut self, space: Space)
        ensures { self.new.space ≡ Some space }
    {
        self.space = Some(space);
    }
}

/// The least room that is enough for these stages and a sink's test, or the largest one.
fn room_for(stages: &[Stage], test: Option<&BoolExpr>) -> usize {
    for room in ROOMS {
        if stages_fit(stages, room) && rest_fits(stages, test, room) {
            return room;
        }
    }
    MOST_ROOM
}

/// Whether what comes out of these stages may be longer than what goes in.
pub(crate) fn may_grow(stages: &[Stage]) -> bool {
    stages
        .iter()
        .any(|stage| matches!(stage, Stage::FlatMap(_)))
}

impl Space {
    /// A batch without items, and room of this length.
    ///
    /// glibc puts blocks side by side, 16 bytes apart. So the room, if it has two numbers more than its registers, and
    /// both registers of the batch begin at a multiple of 32 bytes, or none of them does. Where they do, loops over
    /// four numbers at a time are up to a fifth faster.
    fn new(alloc: Global, room: usize) -> Result<Space, NoMemory>
        ensures { IfOk result (λ space. length space.room.items ≡ room) }
    {
        Ok(Space {
            room: vec![in alloc; 0i64; room]?,
            batch: Batch::new(alloc)?,
            nested: Vec::new(alloc),
        })
    }

    /// Adds batches for the inner values of the `flatMap`s among these stages, as far as memory for them is there.
    fn nest(&mut self, alloc: Global, stages: &[Stage])
        ensures { self.new.room.items ≡ self.old.room.items }
    {
        let inner = stages
            .iter()
            .filter(|stage| matches!(stage, Stage::FlatMap(_)))
            .count();
        for _ in self.nested.len()..inner {
            let Ok(batch) = Batch::new(alloc) else {
                return;
            };
            if self.nested.push(batch).is_err() {
                return;
            }
        }
    }
}
