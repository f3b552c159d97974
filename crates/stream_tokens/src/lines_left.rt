//! The lines of a file, from one to the next.
ghost use Rattle.std.specs.Prelude.{◌≡◌, [], ◌∷◌, ◌+◌, ◌<◌, ◌^◌, IfSome, IfNone, length};

use crate::line::{Line, first_line};

/// The lines of a file that are left.
#[derive(Drop)]
pub(crate) struct LinesLeft<'a> {
    rest: &'a [u8],
    // How many lines are before them.
    before: u64,
    ghost counted: { before + length rest.now < 2 ^ 64 },
}

impl<'a> LinesLeft<'a> {
    ghost use Rattle.stream_tokens.specs.JobTexts.{numbered};
    ghost use Rattle.stream_tokens.specs.Lines.{lines_of};
    ghost use Rattle.stream_tokens.specs.TextsLeft.{lines_at, numbered_line};

    /// All lines of some bytes.
    pub(crate) fn of(bytes: &'a [u8]) -> LinesLeft<'a>
        ensures { lines_at result ≡ numbered 1 (lines_of bytes.now) }
    {
        LinesLeft {
            rest: bytes,
            before: 0,
        }
    }

    /// The first of the lines, and those after it.
    pub(crate) fn first(&self) -> Option<(Line<'a>, LinesLeft<'a>)>
        ensures some { IfSome result
            (λ pair. lines_at self.now ≡ numbered_line pair.0 ∷ lines_at pair.1) }
        ensures none { IfNone result (lines_at self.now ≡ []) }
        ensures fewer { IfSome result
            (λ pair. length pair.1.rest.now < length self.now.rest.now) }
    {
        if self.rest.is_empty() {
            return None;
        }
        let (bytes, rest) = first_line(self.rest);
        let number = self.before + 1;
        let line = Line { number, bytes };
        let after = LinesLeft {
            rest,
            before: number,
        };
        Some((line, after))
    }
}
