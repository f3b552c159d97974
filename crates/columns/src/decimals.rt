//! The number that a cell spells with decimal places.
ghost use Rattle.std.specs.Prelude.{◌≡◌, ◌<◌, ◌≤◌, ◌*◌, ◌^◌, ◌++◌, ◌⊎◌, ℤ, pos, neg_ℤ, IfSome, IfNone, Some};
ghost use Rattle.std.specs.Prelude.{length, take, drop, true, false, fold, ◌+◌, ◌-◌, if◌then◌else◌};
ghost use Rattle.std.specs.Fmt.{signed_decimal};
ghost use Rattle.std.specs.List.{list_all};
ghost use Rattle.std.specs.Char.{is_ascii_digit};
ghost use Rattle.columns.specs.Cell.{digits_value};
ghost use Rattle.columns.specs.Decimals.{SpellsDecimal, before_point, decimal_of, digits_with, from_point};
ghost use Rattle.columns.specs.Decimals.{scaled, signed_with, zeros};
ghost use Rattle.columns.specs.Number.{in_range, number_of, signed_digits};
ghost use Rattle.columns.specs.TableForms.{filled};

use crate::cell::{are_blanks, read_filled, without_first_blanks, without_last_blanks};

/// The number that a cell spells in decimal digits with at most this many after a point, times 10 to that power: with
/// two places `12.5` is 1250. There may be one sign before the digits, and spaces and tabs around. `None` for any other
/// text, and for a number that, times the power, an `i64` doesn't hold.
pub fn read_decimal(cell: &[u8], places: u8) -> Option<i64>
    ensures value { result ≡ decimal_of places cell.now }
    ensures spells { IfSome result (λ n. SpellsDecimal places cell.now n) }
    ensures only { (n : ℤ) → SpellsDecimal places cell.now n → result ≡ Some n }
{
    signed(without_last_blanks(without_first_blanks(cell)), places)
}

/// The number that a cell spells, or the number that is given for a blank one, with this many decimal places.
pub(crate) fn read_with(places: u8, blank: Option<i64>, cell: &[u8]) -> Option<i64>
    ensures { result ≡ number_of (scaled places (filled blank cell.now)) }
{
    if places == 0 {
        return read_filled(blank, cell);
    }
    match blank {
        Some(number) if are_blanks(cell) => with_zeros(number, places),
        _ => read_decimal(cell, places),
    }
}

/// An integer as a number with decimal places.
fn with_zeros(number: i64, places: u8) -> Option<i64>
    ensures { result ≡ decimal_of places (signed_decimal number) }
{
    let size = times_ten(number.unsigned_abs(), usize::from(places))?;
    with_sign(number < 0, size)
}

fn with_sign(is_negative: bool, size: u64) -> Option<i64>
    ensures { result ≡ in_range (if is_negative then neg_ℤ (pos size) else pos size) }
{
    if is_negative {
        i64::try_from(-i128::from(size)).ok()
    } else {
        i64::try_from(size).ok()
    }
}

fn signed(text: &[u8], places: u8) -> Option<i64>
    ensures { result ≡ signed_with places text.now }
{
    match text {
        [b'-', digits @ ..] => negative(digits, places),
        [b'+', digits @ ..] => positive(digits, places),
        digits => positive(digits, places),
    }
}

fn positive(text: &[u8], places: u8) -> Option<i64>
    ensures { result ≡ signed_digits pos (digits_with places text.now) }
{
    i64::try_from(size_of(text, places)?).ok()
}

fn negative(text: &[u8], places: u8) -> Option<i64>
    ensures { result ≡ signed_digits (λ m. neg_ℤ (pos m)) (digits_with places text.now) }
{
    i64::try_from(-i128::from(size_of(text, places)?)).ok()
}

/// What digits before a point and after it are worth, where it is below 10^19.
fn size_of(text: &[u8], places: u8) -> Option<u64>
    ensures digits { IfSome result (λ m. (0 < length (digits_with places text.now))
        × (list_all is_ascii_digit (digits_with places text.now) ≡ true)
        × (m ≡ digits_value (digits_with places text.now))) }
    ensures none { IfNone result ((length (digits_with places text.now) ≡ 0)
        ⊎ (list_all is_ascii_digit (digits_with places text.now) ≡ false)
        ⊎ (10 ^ 19 ≤ digits_value (digits_with places text.now))) }
{
    let places = usize::from(places);
    let at = point_at(text);
    match &text[at..] {
        [] if at == 0 => None,
        [] => size_with(text, &[], places),
        [_point] => None,
        [_point, fraction @ ..] if fraction.len() > places => None,
        [_point, fraction @ ..] => size_with(&text[..at], fraction, places - fraction.len()),
    }
}

/// Where the first point of a text stands, or its end.
fn point_at(text: &[u8]) -> usize
    ensures before { take result text.now ≡ before_point text.now }
    ensures from { drop result text.now ≡ from_point text.now }
    ensures within { result ≤ length text.now }
{
    let mut at = 0;
    while at < text.len() && text[at] != b'.' {
        at += 1;
    }
    at
}

/// What these digits and this many zeros after them are worth, where it is below 10^19.
fn size_with(whole: &[u8], fraction: &[u8], count: usize) -> Option<u64>
    ensures digits { IfSome result (λ m. (list_all is_ascii_digit (whole.now ++ (fraction.now ++ zeros count)) ≡ true)
        × (m ≡ digits_value (whole.now ++ (fraction.now ++ zeros count)))) }
    ensures none { IfNone result ((list_all is_ascii_digit (whole.now ++ (fraction.now ++ zeros count)) ≡ false)
        ⊎ (10 ^ 19 ≤ digits_value (whole.now ++ (fraction.now ++ zeros count)))) }
{
    let size = digits_after(0, whole)?;
    let size = digits_after(size, fraction)?;
    times_ten(size, count)
}

/// A number of 19 digits: with one more digit it is larger than every `i64`.
const TOO_LARGE_FOR_MORE: u64 = 1_000_000_000_000_000_000;

/// What a number and digits after it are worth, where it is below 10^19.
#[tactic(auto, using(crate::proofs::DecimalLemmas::digit_more))]
fn digits_after(so_far: u64, digits: &[u8]) -> Option<u64>
    ensures digits { IfSome result (λ m. (list_all is_ascii_digit digits.now ≡ true)
        × (m ≡ fold (λ n d. 10 * n + (d - 48)) so_far digits.now)) }
    ensures none { IfNone result ((list_all is_ascii_digit digits.now ≡ false)
        ⊎ (10 ^ 19 ≤ fold (λ n d. 10 * n + (d - 48)) so_far digits.now)) }
{
    let mut value = so_far;
    for digit in digits {
        if !digit.is_ascii_digit() {
            return None;
        }
        if value >= TOO_LARGE_FOR_MORE {
            return None;
        }
        value = value * 10 + u64::from(*digit - b'0');
    }
    Some(value)
}

/// A number times a power of ten, where it is below 10^19.
fn times_ten(number: u64, count: usize) -> Option<u64>
    ensures value { IfSome result (λ m. m ≡ number * 10 ^ count) }
    ensures none { IfNone result (10 ^ 19 ≤ number * 10 ^ count) }
{
    let mut value = number;
    for _ in 0..count {
        if value >= TOO_LARGE_FOR_MORE {
            return None;
        }
        value *= 10;
    }
    Some(value)
}
