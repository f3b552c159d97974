//! What may stand where in a job: one step for each piece.
ghost use Rattle.std.specs.Prelude.{◌≡◌, ◌≤◌, ◌<◌, IfOk, MatchOption, Some, None, reverse};
ghost use Rattle.job_language.specs.Reading.{at_source, after_source, moved};

use crate::operation::Role;
use crate::piece::Mark;
use std::alloc::{AllocError, Global};

/// What stands before the next piece.
#[derive(Clone, Copy, PartialEq, Eq)]
pub enum Mode {
    /// The place of a source.
    Source,
    /// `LongStream`.
    Owner,
    /// `LongStream.`.
    Bare,
    AfterSource,
    /// The dot before a stage or the terminal.
    Step,
    AfterStage,
    AfterTerminal,
    /// The dot after the terminal.
    Fallback,
    AfterFallback,
    End,
}

fn at_source(commas: &mut Vec<bool>, mark: Mark) -> Result<Option<Mode>, AllocError>
    ensures { IfOk result (λ next. MatchOption next (at_source (reverse commas.old.items) mark ≡ None)
        (λ mode. at_source (reverse commas.old.items) mark ≡ Some (mode, reverse commas.new.items))) }
{
    match mark {
        Mark::Call(Role::Source) => Ok(Some(Mode::AfterSource)),
        Mark::Call(Role::Concatenation) => {
            commas.push(false)?;
            Ok(Some(Mode::Source))
        }
        _ => Ok(None),
    }
}

fn after_source(commas: &mut Vec<bool>, mark: Mark) -> Result<Option<Mode>, AllocError>
    ensures { IfOk result (λ next. MatchOption next (after_source (reverse commas.old.items) mark ≡ None)
        (λ mode. after_source (reverse commas.old.items) mark ≡ Some (mode, reverse commas.new.items))) }
{
    match mark {
        Mark::Comma => match commas.pop() {
            Some(_) => {
                commas.push(true)?;
                Ok(Some(Mode::Source))
            }
            None => Ok(None),
        },
        Mark::Close => match commas.pop() {
            Some(true) => Ok(Some(Mode::AfterSource)),
            _ => Ok(None),
        },
        Mark::Dot => match commas.pop() {
            None => Ok(Some(Mode::Step)),
            Some(_) => Ok(None),
        },
        _ => Ok(None),
    }
}

/// The mode after a piece, or `None` if the piece can't stand there.
pub fn moved(mode: Mode, commas: &mut Vec<bool>, mark: Mark) -> Result<Option<Mode>, AllocError>
    ensures { IfOk result (λ next. MatchOption next (moved mode (reverse commas.old.items) mark ≡ None)
        (λ after. moved mode (reverse commas.old.items) mark ≡ Some (after, reverse commas.new.items))) }
{
    match mode {
        Mode::Source => match mark {
            Mark::Owner => Ok(Some(Mode::Owner)),
            _ => at_source(commas, mark),
        },
        Mode::Bare => at_source(commas, mark),
        Mode::AfterSource => after_source(commas, mark),
        Mode::Owner => match mark {
            Mark::Dot => Ok(Some(Mode::Bare)),
            _ => Ok(None),
        },
        Mode::Step => match mark {
            Mark::Call(Role::Stage) => Ok(Some(Mode::AfterStage)),
            Mark::Call(Role::Terminal) => Ok(Some(Mode::AfterTerminal)),
            _ => Ok(None),
        },
        Mode::AfterStage => match mark {
            Mark::Dot => Ok(Some(Mode::Step)),
            _ => Ok(None),
        },
        Mode::AfterTerminal => match mark {
            Mark::Dot => Ok(Some(Mode::Fallback)),
            Mark::Semicolon => Ok(Some(Mode::End)),
            _ => Ok(None),
        },
        Mode::Fallback => match mark {
            Mark::Call(Role::Fallback) => Ok(Some(Mode::AfterFallback)),
            _ => Ok(None),
        },
        Mode::AfterFallback => match mark {
            Mark::Semicolon => Ok(Some(Mode::End)),
            _ => Ok(None),
        },
        Mode::End => Ok(None),
    }
}
