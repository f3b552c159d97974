//! Which expressions are worth evaluating at lanes that may not need them.
//!
//! Nothing here has a contract: either answer is right, since who asks goes another way where a lane has a fault.

use crate::faultless::{after_long, after_stages, after_test};
use crate::register::Operand;
use trace::Stage;

/// To gather the lanes that need an operand and to merge them again costs about this much.
const TO_GATHER: u32 = 8;

/// To move the items of a batch that pass a filter costs about this much.
const TO_MOVE: u32 = 4;

/// Whether all later stages go over all lanes, however few passed a `filter`: the sink takes flags, and they are `map`s
/// and `filter`s that take less time so than it takes to move the items.
pub(crate) fn stay_in_lanes(stages: &[Stage], takes_flags: bool) -> bool {
    takes_flags && after_stages(stages, TO_MOVE, true).is_some()
}

/// Whether both operands of a choice cost little and can't fault.
pub(crate) fn are_cheap(chosen: Operand<'_>, other: Operand<'_>) -> bool {
    is_cheap(chosen) && is_cheap(other)
}

/// Whether an operand costs little and can't fault.
pub(crate) fn is_cheap(operand: Operand<'_>) -> bool {
    match operand {
        Operand::Long(expr) => after_long(expr, TO_GATHER, true).is_some(),
        Operand::Bool(test) => after_test(test, TO_GATHER, true).is_some(),
        Operand::Flag(_) => true,
    }
}
