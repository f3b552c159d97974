//! Numbers of few digits, read where they stand in a text.
ghost use Rattle.std.specs.Prelude.{◌≡◌, ◌<◌, ◌≤◌, ◌-◌, ◌^◌, true, Some, IfSome, length, take, drop, get_or};
ghost use Rattle.std.specs.List.{list_all};
ghost use Rattle.std.specs.Char.{is_ascii_digit};
ghost use Rattle.columns.specs.Cell.{digits_value};
ghost use Rattle.columns.specs.Number.{number_of};
ghost use Rattle.columns.specs.TextRows.{is_bare_byte};

use crate::digits::{BLOCK, front_digits};

/// With one digit more after it, a number below this one is still an `i64`.
const ENOUGH: u64 = 922_337_203_685_477_580;

/// The number of a minus sign or none and some digits from `at` on, and where they end; not of all digits if there are
/// many.
#[inline(always)]
pub(crate) fn short_number(text: &[u8], at: usize) -> Option<(i64, usize)>
    requires { at ≤ length text.now }
    ensures bare { IfSome result (λ r. list_all is_bare_byte (take (r.1 - at) (drop at text.now)) ≡ true) }
    ensures number { IfSome result (λ r. number_of (take (r.1 - at) (drop at text.now)) ≡ Some r.0) }
    ensures ends { IfSome result (λ r. (at ≤ r.1) × (r.1 ≤ length text.now)) }
{
    if at < text.len() && text[at] == b'-' {
        return negative_number(text, at);
    }
    let (size, end) = digits_at(text, at);
    if at == end {
        return None;
    }
    Some((size as i64, end))
}

/// The number of a minus sign at `at` and some digits, and where they end; not of all digits if there are many.
#[inline(always)]
fn negative_number(text: &[u8], at: usize) -> Option<(i64, usize)>
    requires within { at < length text.now }
    requires minus { get_or text.now at 0 ≡ 45 }
    ensures bare { IfSome result (λ r. list_all is_bare_byte (take (r.1 - at) (drop at text.now)) ≡ true) }
    ensures number { IfSome result (λ r. number_of (take (r.1 - at) (drop at text.now)) ≡ Some r.0) }
    ensures ends { IfSome result (λ r. (at ≤ r.1) × (r.1 ≤ length text.now)) }
{
    let (size, end) = digits_at(text, at + 1);
    if at + 1 == end {
        return None;
    }
    Some((-(size as i64), end))
}

/// What the digits from `at` on are worth, and where they end; of many digits only the first ones.
///
/// Sixteen bytes are looked at together if they are left, but not for one digit alone: a processor that guesses this
/// reads on at once.
#[inline(always)]
fn digits_at(text: &[u8], at: usize) -> (u64, usize)
    requires { at ≤ length text.now }
    ensures ends { (at ≤ result.1) × (result.1 ≤ length text.now) }
    ensures digits { list_all is_ascii_digit (take (result.1 - at) (drop at text.now)) ≡ true }
    ensures value { result.0 ≡ digits_value (take (result.1 - at) (drop at text.now)) }
    ensures fits { result.0 < 2 ^ 63 }
{
    if text.len() - at < BLOCK || !text[at].is_ascii_digit() {
        return more_digits(text, at, at, 0);
    }
    if !text[at + 1].is_ascii_digit() {
        return (u64::from(text[at] - b'0'), at + 1);
    }
    let (value, count) = front_digits(text, at);
    if count < BLOCK {
        return (value, at + count);
    }
    more_digits(text, at, at + count, value)
}

/// What the digits from `at` on are worth, and where they end, if the digits from `at` to `from` are worth `so_far`.
#[inline(always)]
fn more_digits(text: &[u8], at: usize, from: usize, so_far: u64) -> (u64, usize)
    requires within { (at ≤ from) × (from ≤ length text.now) }
    requires digits { list_all is_ascii_digit (take (from - at) (drop at text.now)) ≡ true }
    requires so_far { so_far ≡ digits_value (take (from - at) (drop at text.now)) }
    requires fits { so_far < 2 ^ 63 }
    ensures ends { (from ≤ result.1) × (result.1 ≤ length text.now) }
    ensures digits { list_all is_ascii_digit (take (result.1 - at) (drop at text.now)) ≡ true }
    ensures value { result.0 ≡ digits_value (take (result.1 - at) (drop at text.now)) }
    ensures fits { result.0 < 2 ^ 63 }
{
    let mut value = so_far;
    for end in from..text.len() {
        let digit = text[end];
        if value >= ENOUGH || !digit.is_ascii_digit() {
            return (value, end);
        }
        value = value * 10 + u64::from(digit - b'0');
    }
    (value, text.len())
}
