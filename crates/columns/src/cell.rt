//! The number that a cell spells.
ghost use Rattle.std.specs.Prelude.{◌≡◌, ◌<◌, ◌^◌, ◌⊎◌, ◌≤◌, ℤ, pos, neg_ℤ, IfSome, IfNone, Some};
ghost use Rattle.std.specs.Prelude.{length, true, false, reverse, if◌then◌else◌, ◌==◌, ◌||◌, FitsSigned};
ghost use Rattle.std.specs.Option.{SomeIff};
ghost use Rattle.std.specs.Int.{w64};
ghost use Rattle.std.specs.List.{list_all};
ghost use Rattle.std.specs.Char.{is_ascii_digit};
ghost use Rattle.columns.specs.Cell.{SpellsCell, digits_value, is_blank};
ghost use Rattle.columns.specs.Number.{drop_blanks, number_of, signed_digits, signed_number};
ghost use Rattle.columns.specs.TableForms.{filled};

/// The number that a cell spells in decimal digits, with one sign or none before them, and spaces and tabs around.
/// There may be any number of digits, and leading zeros. `None` for any other text, and for a number that an `i64`
/// doesn't hold. Looks at each byte once.
pub fn read_cell(cell: &[u8]) -> Option<i64>
    ensures value { result ≡ number_of cell.now }
    ensures spells { IfSome result (λ n. SpellsCell cell.now n) }
    ensures only { (n : ℤ) → SpellsCell cell.now n → result ≡ Some n }
{
    signed(without_last_blanks(without_first_blanks(cell)))
}

/// The number that a cell spells, or the number that is given for a blank one.
pub(crate) fn read_filled(blank: Option<i64>, cell: &[u8]) -> Option<i64>
    ensures { result ≡ number_of (filled blank cell.now) }
{
    match blank {
        Some(number) if are_blanks(cell) => Some(number),
        _ => read_cell(cell),
    }
}

/// Whether a text is of spaces and tabs alone; one without bytes is.
pub(crate) fn are_blanks(text: &[u8]) -> bool
    ensures { result ≡ list_all is_blank text.now }
{
    text.iter().all(|byte| is_blank(*byte))
}

fn signed(text: &[u8]) -> Option<i64>
    ensures { result ≡ signed_number text.now }
{
    match text {
        [b'-', digits @ ..] => negative(digits),
        [b'+', digits @ ..] => positive(digits),
        digits => positive(digits),
    }
}

fn is_blank(byte: u8) -> bool
    ensures { result ≡ is_blank byte }
{
    byte == b' ' || byte == b'\t'
}

/// The cell from its first byte on that is neither a space nor a tab.
pub(crate) fn without_first_blanks(cell: &[u8]) -> &[u8]
    ensures { result.now ≡ drop_blanks cell.now }
{
    let mut rest = cell;
    while let [first, more @ ..] = rest {
        if !is_blank(*first) {
            break;
        }
        rest = more;
    }
    rest
}

/// The cell up to its last byte that is neither a space nor a tab.
pub(crate) fn without_last_blanks(cell: &[u8]) -> &[u8]
    ensures { result.now ≡ reverse (drop_blanks (reverse cell.now)) }
{
    let mut rest = cell;
    while let [more @ .., last] = rest {
        if !is_blank(*last) {
            break;
        }
        rest = more;
    }
    rest
}

fn positive(digits: &[u8]) -> Option<i64>
    ensures { result ≡ signed_digits pos digits.now }
{
    i64::try_from(magnitude(digits)?).ok()
}

fn negative(digits: &[u8]) -> Option<i64>
    ensures { result ≡ signed_digits (λ m. neg_ℤ (pos m)) digits.now }
{
    i64::try_from(-i128::from(magnitude(digits)?)).ok()
}

/// A number of 19 digits: with one more digit it is larger than every `i64`.
const TOO_LARGE_FOR_MORE: u64 = 1_000_000_000_000_000_000;

/// What one digit or more are worth, where it is below 10^19.
#[tactic(auto, using(crate::proofs::CellLemmas::digits_value_more))]
fn magnitude(digits: &[u8]) -> Option<u64>
    ensures digits { IfSome result (λ m. (0 < length digits.now)
        × (list_all is_ascii_digit digits.now ≡ true) × (m ≡ digits_value digits.now)) }
    ensures none { IfNone result ((length digits.now ≡ 0)
        ⊎ (list_all is_ascii_digit digits.now ≡ false) ⊎ (10 ^ 19 ≤ digits_value digits.now)) }
{
    if digits.is_empty() {
        return None;
    }
    let mut value = 0u64;
    for digit in digits {
        if !digit.is_ascii_digit() {
            return None;
        }
        if value >= TOO_LARGE_FOR_MORE {
            return None;
        }
        value = value * 10 + u64::from(*digit - b'0');
    }
    Some(value)
}
