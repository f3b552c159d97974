//! How far the sums of many values reach: small values by 64 bits.

ghost use Rattle.std.specs.Prelude.{◌≡◌, ◌≤◌, true, length};
ghost use Rattle.std.specs.List.{All};
ghost use Rattle.reduce_ops.specs.Reaches.{IsReach, IsSmall, IsWidest, reach_beside, reach_in, reach_of};

use crate::reach::Reach;

/// Values from -2^49 to 2^49 are small.
const SMALL: i64 = 562_949_953_421_312;

/// The sums of this number of small values stay within 64 bits.
const FEW: usize = 4_096;

/// The range of the running sums when `values` follow sums with the range `before`. `None` if sums differ by 2^64 or
/// more.
pub(crate) fn reach_with(before: Reach, values: &[i64]) -> Option<Reach>
    ensures { IsReach result (reach_beside (reach_in before) (reach_of values.now)) }
{
    if values.len() <= FEW && are_small(values) {
        return reach_with_small(before, values);
    }
    let reach = reach_of_any(values)?;
    before.beside(reach)
}

/// Whether all values are small. There is no early end, so that a loop can take several values at a time.
fn are_small(values: &[i64]) -> bool
    ensures { result ≡ true → All IsSmall values.now }
{
    let mut least: i64 = 0;
    let mut greatest: i64 = 0;
    for value in values {
        least = least.min(*value);
        greatest = greatest.max(*value);
    }
    least >= -SMALL && greatest <= SMALL
}

/// The range of the running sums when a few small values follow sums with the range `before`. No loop can take several
/// of these sums at a time. So they are worked out one by one only if there are values on both sides of 0 that may lead
/// beyond `before`.
fn reach_with_small(before: Reach, values: &[i64]) -> Option<Reach>
    requires few { length values.now ≤ 4096 }
    requires small { All IsSmall values.now }
    ensures { IsReach result (reach_beside (reach_in before) (reach_of values.now)) }
{
    let widest = widest_of_small(values);
    if widest.is_one_sided() || before.covers(widest) {
        return before.beside(widest);
    }
    before.beside(reach_of_small(values))
}

/// The range of the sums of a few small values in any order: from the sum of the values below 0 to the sum of the
/// values above. It may be wider than the range of their sums in this order, and no answer depends on that.
fn widest_of_small(values: &[i64]) -> Reach
    requires few { length values.now ≤ 4096 }
    requires small { All IsSmall values.now }
    ensures { IsWidest (reach_in result) (reach_of values.now) }
{
    let mut total: i64 = 0;
    let mut rises: i64 = 0;
    for value in values {
        total += *value;
        rises += (*value).max(0);
    }
    Reach::between(total, total - rises, rises)
}

/// How far the sums of a few small values reach.
fn reach_of_small(values: &[i64]) -> Reach
    requires few { length values.now ≤ 4096 }
    requires small { All IsSmall values.now }
    ensures { reach_in result ≡ reach_of values.now }
{
    let mut total: i64 = 0;
    let mut least: i64 = 0;
    let mut greatest: i64 = 0;
    for value in values {
        total += *value;
        least = least.min(total);
        greatest = greatest.max(total);
    }
    Reach::between(total, least, greatest)
}

/// How far the sums of any values reach. `None` if sums differ by 2^64 or more.
fn reach_of_any(values: &[i64]) -> Option<Reach>
    ensures { IsReach result (reach_of values.now) }
{
    let mut reach = Reach::none();
    for value in values {
        reach = reach.on(*value)?;
    }
    Some(reach)
}
