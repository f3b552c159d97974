//! Cells that hold anything, skipped where they stand in a text.
ghost use Rattle.std.specs.Prelude.{◌≡◌, ◌<◌, ◌≤◌, ◌⊎◌, ◌==◌, ◌+◌, ℕ, List, IfSome};
ghost use Rattle.std.specs.Prelude.{length, take, drop, get_or, not, true, false};
ghost use Rattle.std.specs.List.{prefix_len};
ghost use Rattle.csv.specs.declared.parser.State.TheVariants as st;
ghost use Rattle.columns.specs.TextRows.{GoesQuoted, GoesTo, IsSeparator, ends_cell};

use crate::digits::BLOCK;
use std::simd::prelude::*;

/// Where the field that starts at `at` ends, whatever it holds: at a separator or a line end. `None` if the text ends
/// before.
#[inline(always)]
pub(crate) fn cell_end(text: &[u8], at: usize, separator: u8) -> Option<usize>
    requires within { at ≤ length text.now }
    requires separator { IsSeparator separator }
    ensures goes { IfSome result (λ end. (cell : List ℕ)
        × GoesTo separator (drop at text.now) cell (drop end text.now)) }
    ensures within { IfSome result (λ end. (at ≤ end) × (end < length text.now)) }
    ensures mark { IfSome result (λ end. ends_cell separator (get_or text.now end 0) ≡ true) }
{
    if has_quote(text, at) {
        return quoted_end(text, at, separator);
    }
    mark_from(text, at, separator)
}

/// Whether a quote stands at `at`.
#[inline(always)]
pub(crate) fn has_quote(text: &[u8], at: usize) -> bool
    ensures quote { result ≡ (get_or text.now at 0 == 34) }
    ensures within { result ≡ true → at < length text.now }
{
    at < text.len() && text[at] == b'"'
}

/// Where the field ends that starts with a quote at `at`: its quotes end, and then it goes on as if bare.
fn quoted_end(text: &[u8], at: usize, separator: u8) -> Option<usize>
    requires within { at < length text.now }
    requires quote { get_or text.now at 0 ≡ 34 }
    requires separator { IsSeparator separator }
    ensures goes { IfSome result (λ end. (cell : List ℕ)
        × GoesTo separator (drop at text.now) cell (drop end text.now)) }
    ensures within { IfSome result (λ end. (at ≤ end) × (end < length text.now)) }
    ensures mark { IfSome result (λ end. ends_cell separator (get_or text.now end 0) ≡ true) }
{
    let from = quotes_end(text, at + 1)?;
    mark_from(text, from, separator)
}

/// Where the quotes end that began before `at`: after the first quote that no other one follows.
fn quotes_end(text: &[u8], at: usize) -> Option<usize>
    requires { at ≤ length text.now }
    ensures goes { IfSome result (λ end. (inside : List ℕ) × ((s : ℕ)
        → GoesQuoted s st.AfterQuote (drop at text.now) inside (drop end text.now))) }
    ensures within { IfSome result (λ end. (at < end) × (end ≤ length text.now)) }
    ensures single { IfSome result (λ end. (get_or text.now end 0 == 34) ≡ false) }
{
    let mut from = at;
    while from < text.len() {
        let quote = quote_from(text, from)?;
        if quote + 1 < text.len() && text[quote + 1] == b'"' {
            from = quote + 2;
        } else {
            return Some(quote + 1);
        }
    }
    None
}

/// The place of the first quote from `at` on.
pub(crate) fn quote_from(text: &[u8], at: usize) -> Option<usize>
    requires { at ≤ length text.now }
    ensures within { IfSome result (λ quote. (at ≤ quote) × (quote < length text.now)) }
    ensures none { IfSome result (λ quote. (k : ℕ) → at ≤ k → k < quote → (get_or text.now k 0 == 34) ≡ false) }
    ensures quote { IfSome result (λ quote. get_or text.now quote 0 ≡ 34) }
{
    let mut from = at;
    while text.len() - from >= BLOCK {
        let run = quoted_run(text, from);
        if run < BLOCK {
            return Some(from + run);
        }
        from += BLOCK;
    }
    for end in from..text.len() {
        if text[end] == b'"' {
            return Some(end);
        }
    }
    None
}

/// The place of the first separator or line end from `at` on.
#[inline(always)]
pub(crate) fn mark_from(text: &[u8], at: usize, separator: u8) -> Option<usize>
    requires { at ≤ length text.now }
    ensures within { IfSome result (λ end. (at ≤ end) × (end < length text.now)) }
    ensures none { IfSome result (λ end. (k : ℕ) → at ≤ k → k < end
        → ends_cell separator (get_or text.now k 0) ≡ false) }
    ensures mark { IfSome result (λ end. ends_cell separator (get_or text.now end 0) ≡ true) }
{
    let mut from = at;
    while text.len() - from >= BLOCK {
        let run = bare_run(text, from, separator);
        if run < BLOCK {
            return Some(from + run);
        }
        from += BLOCK;
    }
    for end in from..text.len() {
        if ends_cell(text[end], separator) {
            return Some(end);
        }
    }
    None
}

#[inline(always)]
pub(crate) fn ends_cell(byte: u8, separator: u8) -> bool
    ensures { result ≡ ends_cell separator byte }
{
    byte == separator || byte == b'\r' || byte == b'\n'
}

/// How many of the sixteen bytes from `at` on come before the first quote.
#[inline(always)]
fn quoted_run(text: &[u8], at: usize) -> usize
    requires { at + 16 ≤ length text.now }
    ensures { result ≡ prefix_len (λ c. not (c == 34)) (take 16 (drop at text.now)) }
{
    first_zero(u8x16::from_slice(&text[at..]) - u8x16::splat(b'"'))
}

/// How many of the sixteen bytes from `at` on come before the first separator or line end.
#[inline(always)]
fn bare_run(text: &[u8], at: usize, separator: u8) -> usize
    requires { at + 16 ≤ length text.now }
    ensures { result ≡ prefix_len (λ c. not (ends_cell separator c)) (take 16 (drop at text.now)) }
{
    let bytes = u8x16::from_slice(&text[at..]);
    let separators = first_zero(bytes - u8x16::splat(separator));
    let returns = first_zero(bytes - u8x16::splat(b'\r'));
    let feeds = first_zero(bytes - u8x16::splat(b'\n'));
    lesser(lesser(separators, returns), feeds)
}

#[inline(always)]
fn lesser(a: usize, b: usize) -> usize
    ensures below { (result ≤ a) × (result ≤ b) }
    ensures one { (result ≡ a) ⊎ (result ≡ b) }
{
    if b < a { b } else { a }
}

/// How many lanes come before the first that is zero.
#[inline(always)]
fn first_zero(lanes: u8x16) -> usize
    ensures { result ≡ prefix_len (λ x. not (x == 0)) lanes }
{
    let zeros = lanes.simd_eq(u8x16::splat(0)).to_bitmask();
    if zeros == 0 {
        16
    } else {
        zeros.trailing_zeros() as usize
    }
}
