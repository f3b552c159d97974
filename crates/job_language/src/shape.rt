//! The shape of a job: its calls in order of writing.
ghost use Rattle.std.specs.Prelude.{◌≡◌, ℕ, ◌<◌, ◌++◌, ◌∷◌, List, [], IfOk, MatchOption, length};
ghost use Rattle.lambda_expr.specs.Words.{Word as meant, words_of};
ghost use Rattle.job_language.specs.declared.piece.Mark.{Mark as meant_mark};
ghost use Rattle.lambda_expr.specs.CodeWords.{word_of, words_in};
ghost use Rattle.job_language.specs.Verdicts.{placed};
ghost use Rattle.job_language.specs.Grammar.{Job as job, IsSpelled, IsNoJob};
ghost use Rattle.job_language.specs.Shapes.{begins_job, all_placed, OpensAfter, piece_from, is_last};
ghost use Rattle.job_language.specs.Shapes.{IsNotSpelled, AreCallsOf, AreCallsIn, IsReading, Advances};
ghost use Rattle.job_language.specs.Shapes.{StandIn, MayStandIn};

use crate::mode::{Mode, moved};
use crate::piece::{ReadPiece, WrittenCall, piece_at};
use crate::sound::are_sound;
use lambda_expr::{Word, word_at};
use std::alloc::{AllocError, Global};
use stream_tokens::{CutText, Symbol};

/// What was read of a job, up to a place.
#[derive(Drop)]
pub struct Reader {
    pub mode: Mode,
    /// For each open `concat`, whether it has a comma.
    pub commas: Vec<bool>,
    pub calls: Vec<WrittenCall>,
    pub at: usize,
}

/// Puts the call of a piece, if it is one, after the others.
fn add_call(calls: &mut Vec<WrittenCall>, call: Option<WrittenCall>) -> Result<(), AllocError>
    ensures stand { IfOk result (λ _. (ws : List meant) → StandIn ws calls.old.items
        → MayStandIn ws call → StandIn ws calls.new.items) }
    ensures calls { IfOk result (λ _. (ws : List meant) (n : ℕ) (m : meant_mark) → OpensAfter n call
        → all_placed ws calls.new.items ≡ all_placed ws calls.old.items ++ placed n (piece_from ws m call ∷ [])) }
{
    if let Some(call) = call {
        calls.push(call)?;
    }
    Ok(())
}

impl Reader {
    /// Reads one piece; false if no job has these words.
    fn advance(&mut self, alloc: Global, text: &CutText) -> Result<bool, AllocError>
        requires in_range { self.old.at < length text.now.tokens }
        requires reading { IsReading (words_in text.now) self.old }
        ensures { IfOk result (λ more. Advances (words_in text.now) self.old self.new more) }
    {
        let Some(piece) = piece_at(alloc, text, self.at)? else {
            return Ok(false);
        };
        let ReadPiece { mark, to, call } = piece;
        let Some(mode) = moved(self.mode, &mut self.commas, mark)? else {
            return Ok(false);
        };
        add_call(&mut self.calls, call)?;
        self.mode = mode;
        self.at = to;
        Ok(true)
    }
}

fn is_begin(name: Word, assign: Word) -> bool
    ensures { (ws : List meant) → result ≡ begins_job (word_of name.entry ∷ word_of assign.entry ∷ ws) }
{
    matches!(name, Word::Name(_)) && matches!(assign, Word::Sign(Symbol::Assign))
}

fn begins_job(text: &CutText) -> bool
    ensures { result ≡ begins_job (words_in text.now) }
{
    is_begin(word_at(text, 0), word_at(text, 1))
}

/// Whether a job may end there.
fn is_last(mode: Mode) -> bool
    ensures { result ≡ is_last mode }
{
    matches!(mode, Mode::AfterTerminal | Mode::AfterFallback | Mode::End)
}

/// The calls of the job that has these words, or `None` if no job has them.
fn read_calls(alloc: Global, text: &CutText) -> Result<Option<Vec<WrittenCall>>, AllocError>
    ensures { let ws = words_in text.now in IfOk result (λ found. MatchOption found (IsNotSpelled ws)
        (λ calls. AreCallsOf ws (all_placed ws calls.items) × StandIn ws calls.items)) }
{
    if !begins_job(text) {
        return Ok(None);
    }
    let mut reader = Reader {
        mode: Mode::Source,
        commas: Vec::new(alloc),
        calls: Vec::new(alloc),
        at: 2,
    };
    while reader.at < text.len() {
        if !reader.advance(alloc, text)? {
            return Ok(None);
        }
    }
    let Reader { mode, calls, .. } = reader;
    if is_last(mode) {
        Ok(Some(calls))
    } else {
        Ok(None)
    }
}

/// The calls of the job that a text is, in order of writing: the plain sources, the stages, the terminal, the fallback.
/// `None` if the text is no job.
///
/// Takes memory for the places of each call's parts, and time in proportion to the tokens.
pub fn parse_job(alloc: Global, text: &CutText) -> Result<Option<Vec<WrittenCall>>, AllocError>
    ensures { let ws = words_of text.now.bytes text.now.tokens in IfOk result (λ found. MatchOption found (IsNoJob ws)
        (λ calls. AreCallsIn ws (all_placed ws calls.items) × StandIn ws calls.items)) }
{
    if are_sound(text) {
        read_calls(alloc, text)
    } else {
        Ok(None)
    }
}

/// Words are one job at most.
#[tactic(auto, using(crate::proofs::ShapeLemmas::one_spelled))]
pub fn one_job()
    ensures { (ws : List meant) (j k : job) → IsSpelled ws j → IsSpelled ws k → j ≡ k }
{}
