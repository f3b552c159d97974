//! What stands at the beginning of bytes as a report writes it, and what follows it.
ghost use Rattle.std.specs.Prelude.{◌≡◌, ◌≢◌, ◌++◌, ◌∷◌, ◌<◌, ◌≤◌, ◌^◌, ℕ, ℤ, List, MatchOption, IfSome, Option, Some};
ghost use Rattle.std.specs.Prelude.{FitsSigned, true, false, not, length};
ghost use Rattle.std.specs.Int.{w64};
ghost use Rattle.std.specs.List.{list_all, position};
ghost use Rattle.std.specs.Fmt.{decimal, signed_decimal};
ghost use Rattle.job_meaning.specs.Longs.{Fits, PlaceFits};
ghost use Rattle.merge_run.specs.Taken.{AreTaken, IsTaken, is_plain, is_number_byte, ends_text, place_then};

/// What follows a text, if the bytes begin with it.
pub(crate) fn after<'a>(bytes: &'a [u8], text: &[u8]) -> Option<&'a [u8]>
    ensures { MatchOption result ((rest : List ℕ) → bytes.now ≢ text.now ++ rest)
        (λ rest. bytes.now ≡ text.now ++ rest.now) }
{
    bytes.strip_prefix(text)
}

/// The bytes between a text, with which all begins, and the next quote, and what follows the quote.
pub(crate) fn take_text<'a>(bytes: &'a [u8], before: &[u8]) -> Option<(&'a [u8], &'a [u8])>
    ensures { (text rest : List ℕ) → is_plain text ≡ true → bytes.now ≡ before.now ++ (text ++ 34 ∷ rest)
        → AreTaken text rest result }
{
    take_quoted(after(bytes, before)?)
}

/// The text before the first quote, and what follows the quote, if no backslash comes before it.
fn take_quoted(bytes: &[u8]) -> Option<(&[u8], &[u8])>
    ensures { (text rest : List ℕ) → is_plain text ≡ true → bytes.now ≡ text ++ 34 ∷ rest
        → AreTaken text rest result }
{
    let (text, left) = bytes.split_at(text_end(bytes)?);
    Some((text, after(left, b"\"")?))
}

/// The place of the first quote or backslash.
fn text_end(bytes: &[u8]) -> Option<usize>
    ensures { result ≡ position ends_text bytes.now }
{
    bytes.iter().position(|byte| ends_text(*byte))
}

/// Whether a byte is a quote or a backslash.
fn ends_text(byte: u8) -> bool
    ensures { result ≡ ends_text byte }
{
    byte == b'"' || byte == b'\\'
}

/// The place of the first byte that no number has.
fn number_end(bytes: &[u8]) -> Option<usize>
    ensures { result ≡ position (λ b. not (is_number_byte b)) bytes.now }
{
    bytes.iter().position(|byte| !is_number_byte(*byte))
}

/// Whether a byte is a minus sign or a digit.
fn is_number_byte(byte: u8) -> bool
    ensures { result ≡ is_number_byte byte }
{
    byte == b'-' || byte.is_ascii_digit()
}

/// The digits before the first byte that no number has, and all from that byte on.
fn take_digits(bytes: &[u8]) -> Option<(&[u8], &[u8])>
    ensures complete { (digits rest : List ℕ) (b : ℕ) → list_all is_number_byte digits ≡ true → is_number_byte b ≡ false
        → bytes.now ≡ digits ++ b ∷ rest → AreTaken digits (b ∷ rest) result }
    ensures shorter { IfSome result (λ taken. length taken.1.now ≤ length bytes.now) }
{
    let end = number_end(bytes)?;
    Some(bytes.split_at(end))
}

/// The number that a report writes so, and what follows it.
pub(crate) fn take_number(bytes: &[u8]) -> Option<(i64, &[u8])>
    ensures complete { (z : ℤ) (rest : List ℕ) (b : ℕ) → FitsSigned w64 z → is_number_byte b ≡ false
        → bytes.now ≡ signed_decimal z ++ b ∷ rest → IsTaken z (b ∷ rest) result }
    ensures small { IfSome result (λ taken. Fits taken.0) }
    ensures shorter { IfSome result (λ taken. length taken.1.now ≤ length bytes.now) }
{
    let (digits, rest) = take_digits(bytes)?;
    Some((number_of(digits)?, rest))
}

/// The number without a sign that a report writes so, and what follows it.
pub(crate) fn take_count(bytes: &[u8]) -> Option<(u64, &[u8])>
    ensures { (n : ℕ) (rest : List ℕ) (b : ℕ) → n < 2 ^ 64 → is_number_byte b ≡ false
        → bytes.now ≡ decimal n ++ b ∷ rest → IsTaken n (b ∷ rest) result }
{
    let (digits, rest) = take_digits(bytes)?;
    Some((count_of(digits)?, rest))
}

/// The place of an item or `null`, as a report writes it, and what follows it.
pub(crate) fn take_place(bytes: &[u8]) -> Option<(Option<u64>, &[u8])>
    ensures { (o : Option ℕ) (rest : List ℕ) (b : ℕ) → PlaceFits o → is_number_byte b ≡ false
        → bytes.now ≡ place_then o (b ∷ rest) → IsTaken o (b ∷ rest) result }
{
    if let Some(rest) = after(bytes, b"null") {
        return Some((None, rest));
    }
    let (place, rest) = take_count(bytes)?;
    Some((Some(place), rest))
}

/// The number before the bracket that ends an object, and what follows it.
pub(crate) fn take_last_number(bytes: &[u8]) -> Option<(i64, &[u8])>
    ensures complete { (z : ℤ) (rest : List ℕ) → FitsSigned w64 z
        → bytes.now ≡ signed_decimal z ++ 125 ∷ rest → IsTaken z rest result }
    ensures small { IfSome result (λ taken. Fits taken.0) }
{
    let (number, left) = take_number(bytes)?;
    Some((number, after(left, b"}")?))
}

/// The number of 64 bits that these bytes write.
fn number_of(digits: &[u8]) -> Option<i64>
    ensures complete { (z : ℤ) → FitsSigned w64 z → digits.now ≡ signed_decimal z → result ≡ Some z }
    ensures small { IfSome result Fits }
{
    match str::from_utf8(digits) {
        Ok(text) => text.parse::<i64>().ok(),
        Err(_) => None,
    }
}

/// The number from 0 on that these bytes write.
fn count_of(digits: &[u8]) -> Option<u64>
    ensures { (n : ℕ) → n < 2 ^ 64 → digits.now ≡ decimal n → result ≡ Some n }
{
    match str::from_utf8(digits) {
        Ok(text) => text.parse::<u64>().ok(),
        Err(_) => None,
    }
}
