//! The text of many numbers in a row, made on several threads.
ghost use Rattle.std.specs.Prelude.{◌≡◌, ◌++◌, flat_map, IfOk};
ghost use denote.Param.Send.{IsSync};
ghost use Rattle.report.specs.AnswerForms.{further};
ghost use Rattle.report.specs.Numbers.{separator_bytes};
ghost use Rattle.report.specs.Runs.{runs_in};

use crate::NoMemory;
use crate::groups::Groups;
use crate::numbers::write_further;
use crate::separator::Separator;
use std::alloc::Global;
use std::thread;
use std::thread::Threads;

/// The text of the numbers after the first one, each after the separator: the others of its piece, and the numbers of
/// the pieces after that. Each text has `size` numbers, the last one perhaps fewer, and is made on a thread of its own.
pub(crate) fn others_by<H: Threads + Sync>(
    rt: &H,
    alloc: Global,
    separator: Separator,
    rest: &[i64],
    pieces: &[Vec<i64>],
    size: usize,
) -> Result<Vec<Vec<u8>>, NoMemory>
    ensures { IfOk result (λ texts. flat_map (λ text. text.items) texts.items
        ≡ further (separator_bytes separator) (rest.now ++ flat_map (λ piece. piece.items) pieces.now)) }
{
    let groups = Groups::of(alloc, rest, pieces, size)?;
    texts_of(rt, alloc, separator, &groups)
}

/// The texts of groups of runs, each made on a thread of its own. This thread waits: while it is at work itself, Linux
/// may begin a thread that it started up to four milliseconds late.
#[cycle(texts)]
fn texts_of<H: Threads + Sync>(
    rt: &H,
    alloc: Global,
    separator: Separator,
    groups: &[Vec<&[i64]>],
) -> Result<Vec<Vec<u8>>, NoMemory>
    ensures { IfOk result (λ texts. flat_map (λ text. text.items) texts.items
        ≡ further (separator_bytes separator) (flat_map (λ group. runs_in group.items) groups.now)) }
{
    let Some((last, before)) = groups.split_last() else {
        return Ok(Vec::new(alloc));
    };
    let write = || -> Result<Vec<u8>, NoMemory>
        ensures { IfOk result (λ text. text.items
            ≡ further (separator_bytes separator) (runs_in last.entry.now.items)) }
    { text_of(alloc, separator, last) };
    let write_before = || -> Result<Vec<Vec<u8>>, NoMemory>
        requires { IsSync H.row }
        ensures { IfOk result (λ texts. flat_map (λ text. text.items) texts.items
            ≡ further (separator_bytes separator) (flat_map (λ group. runs_in group.items) before.entry.now)) }
    { texts_of(rt, alloc, separator, before) };
    let (text, texts) = thread::join(rt, write, write_before);
    let mut texts = texts?;
    texts.push(text?)?;
    Ok(texts)
}

/// The text of the numbers of runs, each after the separator.
fn text_of(alloc: Global, separator: Separator, runs: &[&[i64]]) -> Result<Vec<u8>, NoMemory>
    ensures { IfOk result (λ text. text.items ≡ further (separator_bytes separator) (runs_in runs.now)) }
{
    let mut text = Vec::new(alloc);
    for run in runs {
        write_further(&mut text, separator, run)?;
    }
    Ok(text)
}
