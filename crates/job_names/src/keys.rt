//! The names of columns that are looked at with decimal places.
ghost use Rattle.std.specs.Prelude.{◌≡◌, ◌≤◌, IfOk, IfSome};
ghost use Rattle.job_names.specs.ColumnKeys.{key_of, places_of};

use std::alloc::{AllocError, Global};

/// The name that a column has where it is looked at with this many decimal places: its own without any.
pub fn key_of(alloc: Global, name: &[u8], places: u8) -> Result<Vec<u8>, AllocError>
    ensures { IfOk result (λ key. key.items ≡ key_of name.now places) }
{
    let mut key = Vec::from_slice(alloc, name)?;
    if places > 0 {
        key.push(b'"')?;
        key.push(places)?;
    }
    Ok(key)
}

/// The number of decimal places that a text spells: 0 to 18, without zeros in front.
pub fn places_of(text: &[u8]) -> Option<u8>
    ensures value { result ≡ places_of text.now }
    ensures bound { IfSome result (λ places. places ≤ 18) }
{
    match text {
        [digit] if digit.is_ascii_digit() => Some(*digit - b'0'),
        [b'1', digit] if *digit >= b'0' && *digit <= b'8' => Some(*digit - b'0' + 10),
        _ => None,
    }
}
