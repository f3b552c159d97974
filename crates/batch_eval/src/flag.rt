//! Booleans in a register: -1 for true, which a loop has from a comparison, and 0 for false.

ghost use Rattle.batch_eval.specs.Lanes.{flag_of};
ghost use Rattle.batch_eval.specs.Lanes.{is_set as is_set_flag};
ghost use Rattle.std.specs.Prelude.{◌≡◌, ◌&&◌, ◌||◌, Ok};

use crate::kernel::Kernel;
use lambda_values::FaultKind;

/// A boolean as a register holds it.
pub(crate) fn flag(value: bool) -> i64
    ensures { result ≡ flag_of value }
{
    if value { -1 } else { 0 }
}

/// Whether a flag is set: it is not 0.
pub(crate) fn is_set(flag: i64) -> bool
    ensures { result ≡ is_set_flag flag }
{
    flag != 0
}

/// Whether both of two flags are set, as a flag.
pub(crate) struct BothSet;

impl Kernel for BothSet {
    ghost value = { λ x y. Ok (flag_of (is_set_flag x && is_set_flag y)) };

    fn apply(x: i64, y: i64) -> Result<i64, FaultKind> {
        Ok(flag(is_set(x) & is_set(y)))
    }
}

/// Whether one of two flags is set, as a flag.
pub(crate) struct EitherSet;

impl Kernel for EitherSet {
    ghost value = { λ x y. Ok (flag_of (is_set_flag x || is_set_flag y)) };

    fn apply(x: i64, y: i64) -> Result<i64, FaultKind> {
        Ok(flag(is_set(x) | is_set(y)))
    }
}
