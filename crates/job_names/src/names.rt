//! The keys of columns that stand in the jobs of a file.
ghost use Rattle.std.specs.Char.{is_ascii_digit};
ghost use Rattle.std.specs.Prelude.{◌≡◌, ◌≢◌, ◌++◌, Err, IfErr, IfOk, OnOk, None, map, take_while};
ghost use Rattle.job_names.specs.JobNames.{after_blanks, names_after, names_of_texts, places_after};

use crate::keys::{key_of, places_of};
use std::alloc::{AllocError, Global};
use stream_tokens::{JobTexts, TextFault};

/// The keys of what stands between double quotes in these texts, in order: of the columns that jobs name, if they are
/// in the language. A file whose texts can't be listed has none.
pub fn names_in(alloc: Global, texts: &mut JobTexts<'_>) -> Result<Vec<Vec<u8>>, AllocError>
    ensures { IfOk result (λ names. map (λ name. name.items) names.items ≡ names_of_texts texts.old) }
{
    let mut names = Vec::new(alloc);
    match add_names(alloc, &mut names, texts) {
        Ok(()) => Ok(names),
        Err(TextFault::Syntax { .. }) => Ok(Vec::new(alloc)),
        Err(TextFault::NoMemory) => Err(AllocError),
    }
}

/// Adds the keys in the texts that are left.
fn add_names(
    alloc: Global,
    names: &mut Vec<Vec<u8>>,
    texts: &mut JobTexts<'_>,
) -> Result<(), TextFault>
    ensures added { OnOk result (map (λ name. name.items) names.new.items
        ≡ map (λ name. name.items) names.old.items ++ names_of_texts texts.old) }
    ensures refused { IfErr result (λ fault. fault ≢ TextFault.NoMemory → texts.old ≡ Err fault) }
{
    for _ in 0..u64::MAX {
        match texts.next_text(alloc)? {
            Some(job) => add_names_in(alloc, names, job.text.as_slice())?,
            None => return Ok(()),
        }
    }
    // No file has that many jobs.
    Err(TextFault::NoMemory)
}

/// A text without the blanks that it begins with.
fn after_blanks(text: &[u8]) -> &[u8]
    ensures { result.now ≡ after_blanks text.now }
{
    for at in 0..text.len() {
        if text[at] != b' ' && text[at] != b'\t' {
            return &text[at..];
        }
    }
    &text[..0]
}

/// The digits that a text begins with.
fn digits_of(text: &[u8]) -> &[u8]
    ensures { result.now ≡ take_while is_ascii_digit text.now }
{
    for at in 0..text.len() {
        if !text[at].is_ascii_digit() {
            return &text[..at];
        }
    }
    text
}

/// The decimal places of a column, by the text after its name.
fn places_after(text: &[u8]) -> u8
    ensures { result ≡ places_after text.now }
{
    match after_blanks(text) {
        [b',', after @ ..] => places_of(digits_of(after_blanks(after))).unwrap_or(0),
        _ => 0,
    }
}

/// Adds the keys in a text.
fn add_names_in(alloc: Global, names: &mut Vec<Vec<u8>>, text: &[u8]) -> Result<(), AllocError>
    ensures { OnOk result (map (λ name. name.items) names.new.items
        ≡ map (λ name. name.items) names.old.items ++ names_after None text.now) }
{
    let mut begun: Option<usize> = None;
    for at in 0..text.len() {
        if text[at] == b'"' {
            match begun {
                Some(from) => {
                    let places = places_after(&text[at + 1..]);
                    names.push(key_of(alloc, &text[from..at], places)?)?;
                    begun = None;
                }
                None => begun = Some(at + 1),
            }
        }
    }
    Ok(())
}
