//! The text of a number, and of many in a row.
//!
//! Of many, a few at a time are written into room on the stack, from the last one to the first, since the digits of a
//! number come from its last one to its first. Then they are appended at once.
ghost use Rattle.std.specs.Prelude.{◌≡◌, ◌+◌, ◌*◌, ◌≤◌, ◌++◌, [], ◌∷◌, drop, flat_map, length, IfNone, IfSome, OnOk};
ghost use Rattle.std.specs.Fmt.{signed_decimal};
ghost use Rattle.report.specs.AnswerForms.{further};
ghost use Rattle.report.specs.Numbers.{parted, separator_bytes};

use crate::NoMemory;
use crate::separator::Separator;
use itoa::{Buffer, write_digits};
use job_meaning::Values;

/// How many numbers are written at a time.
const AT_A_TIME: usize = 64;

/// The bytes that a number takes at most: a comma, a blank, a sign and 19 digits.
const LONGEST: usize = 22;

/// Appends a number in decimal digits, with a minus sign before them if it is negative.
pub(crate) fn write_number(text: &mut Vec<u8>, value: i64) -> Result<(), NoMemory>
    ensures { OnOk result (text.new.items ≡ text.old.items ++ signed_decimal value) }
{
    text.extend_from_slice(Buffer::new().format(value).as_bytes())
}

/// Appends the numbers of an array, parted by the separator.
pub(crate) fn write_numbers(
    text: &mut Vec<u8>,
    separator: Separator,
    values: &Values,
) -> Result<(), NoMemory>
    ensures { OnOk result (text.new.items ≡ text.old.items ++ parted separator values.now) }
{
    let Some((first, rest, pieces)) = split_first(values.pieces()) else {
        return Ok(());
    };
    write_number(text, first)?;
    write_others(text, separator, rest, pieces)
}

/// The first number of pieces, the others of its piece, and the pieces after that one. Pieces without numbers are
/// skipped.
pub(crate) fn split_first(pieces: &[Vec<i64>]) -> Option<(i64, &[i64], &[Vec<i64>])>
    ensures some { IfSome result (λ found. flat_map (λ piece. piece.items) pieces.now
        ≡ found.0 ∷ (found.1.now ++ flat_map (λ piece. piece.items) found.2.now)) }
    ensures none { IfNone result (flat_map (λ piece. piece.items) pieces.now ≡ []) }
{
    let mut left = pieces;
    while let Some((piece, later)) = left.split_first() {
        if let Some((first, rest)) = piece.split_first() {
            return Some((*first, rest, later));
        }
        left = later;
    }
    None
}

/// Appends the numbers after the first one, each after the separator: the others of its piece, and the numbers of the
/// pieces after that.
pub(crate) fn write_others(
    text: &mut Vec<u8>,
    separator: Separator,
    rest: &[i64],
    pieces: &[Vec<i64>],
) -> Result<(), NoMemory>
    ensures { OnOk result (text.new.items ≡ text.old.items
        ++ further (separator_bytes separator) (rest.now ++ flat_map (λ piece. piece.items) pieces.now)) }
{
    write_further(text, separator, rest)?;
    for piece in pieces {
        write_further(text, separator, piece)?;
    }
    Ok(())
}

/// Appends the numbers, each after the separator.
pub(crate) fn write_further(
    text: &mut Vec<u8>,
    separator: Separator,
    values: &[i64],
) -> Result<(), NoMemory>
    ensures { OnOk result (text.new.items ≡ text.old.items ++ further (separator_bytes separator) values.now) }
{
    let mut room = [0; AT_A_TIME * LONGEST];
    let mut at = 0;
    while at < values.len() {
        let count = AT_A_TIME.min(values.len() - at);
        let start = put_further(separator, &values[at..at + count], &mut room);
        text.extend_from_slice(&room[start..])?;
        at += count;
    }
    Ok(())
}

/// Puts the numbers, each after the separator, at the end of the room, and answers where they start.
fn put_further(separator: Separator, values: &[i64], room: &mut [u8]) -> usize
    requires room { 22 * length values.now ≤ length room.old }
    ensures within { result ≤ length room.new }
    ensures put { drop result room.new ≡ further (separator_bytes separator) values.now }
{
    let mut start = room.len();
    let mut left = values.len();
    while left > 0 {
        left -= 1;
        start = put_next(separator, values[left], room, start);
    }
    start
}

/// Puts the number after the separator, so that it ends at `end`, and answers where this starts.
#[inline]
fn put_next(separator: Separator, value: i64, room: &mut [u8], end: usize) -> usize
    requires room { 22 ≤ end }
    requires within { end ≤ length room.old }
    ensures short { end ≤ result + 22 }
    ensures within { result ≤ end }
    ensures put { drop result room.new ≡ separator_bytes separator ++ signed_decimal value ++ drop end room.old }
{
    let start = put_number(value, room, end);
    separator.put(room, start)
}

/// Puts the number so that it ends at `end`, and answers where it starts.
#[inline]
fn put_number(value: i64, room: &mut [u8], end: usize) -> usize
    requires room { 20 ≤ end }
    requires within { end ≤ length room.old }
    ensures short { end ≤ result + 20 }
    ensures within { result ≤ end }
    ensures put { drop result room.new ≡ signed_decimal value ++ drop end room.old }
{
    let start = write_digits(value.unsigned_abs(), room, end);
    if value >= 0 {
        return start;
    }
    room[start - 1] = b'-';
    start - 1
}
