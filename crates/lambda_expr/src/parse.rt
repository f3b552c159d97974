//! The reader of expressions: one turn for each lexeme, with a stack of what waits for its right operand.

ghost use Rattle.std.specs.Prelude.{◌≡◌, ◌<◌, List, [], IfOk, IfErr};
ghost use Rattle.lambda_expr.specs.declared.step.ParseStep.{ParseStep as step};
ghost use Rattle.lambda_expr.specs.Grammar.{Expression};
ghost use Rattle.lambda_expr.specs.Signs.{level};
ghost use Rattle.lambda_expr.specs.Reader.{read, joins, starts, called, cell_closed, decimal_closed, row_closed};
ghost use Rattle.lambda_expr.specs.Codes.{reduced, state_of, top_of, IsCoded, IsSettled, Turns};
ghost use Rattle.lambda_expr.specs.Codes.{frames_of, run, ArePostfix, IsStop};
ghost use Rattle.lambda_expr.specs.declared.parse.ParseStop.TheVariants.{NoMemory};

use crate::following::follow;
use crate::lexeme::{ClassName, Lexeme, Lexemes, Name, Numeral};
use crate::sign::Sign;
use crate::stack::Stack;
use crate::step::{Opening, ParseStep};
use std::alloc::{AllocError, AllocFailed, Global};

/// What waits for the operand to its right. Its other operands were written already.
#[derive(Clone, Copy)]
pub(crate) enum Pending {
    Opened(Opening),
    Signed(Sign),
    Left(Sign),
    Question,
    Colon,
}

/// What stands after what waits.
#[derive(Clone, Copy)]
pub(crate) enum Held {
    Nothing,
    Complete,
    ClassName(ClassName),
    OwnerDot(ClassName),
    Callee(ClassName, Name),
    /// `cell`.
    Cell,
    /// `cell(`.
    CellOpen,
    /// `cell(` and a string, by its place.
    CellText(usize),
    /// `cell(`, a string, by its place, and a comma.
    CellComma(usize),
    /// `cell(`, a string, by its place, a comma, and a number of decimal places.
    CellPlaces(usize, u8),
    /// `row`.
    Row,
    /// `row(`.
    RowOpen,
}

/// Why words were not read.
#[derive(Clone, Copy)]
pub(crate) enum ParseStop {
    /// The words before this place begin a text of the grammar, and with the word here they don't.
    At(usize),
    /// An allocation failed.
    NoMemory,
}

/// What is read, or why words were not.
pub(crate) type Parsed<T> = Result<T, ParseStop>;

impl From<AllocError> for ParseStop {
    ghost from_gives = { λ _ e. e ≡ NoMemory };

    fn from(_error: AllocError) -> ParseStop {
        ParseStop::NoMemory
    }
}

impl<T: Drop> From<AllocFailed<T>> for ParseStop {
    ghost from_gives = { λ _ e. e ≡ NoMemory };

    fn from(_error: AllocFailed<T>) -> ParseStop {
        ParseStop::NoMemory
    }
}

/// The step that what waits becomes before a sign of this level, if it binds as tightly.
fn reduced(least: u32, top: Pending) -> Option<ParseStep>
    ensures { result ≡ reduced least top }
{
    match top {
        Pending::Opened(_) | Pending::Question => None,
        Pending::Signed(sign) => Some(ParseStep::Prefix(sign)),
        Pending::Left(sign) => {
            if sign.level() < least {
                None
            } else {
                Some(ParseStep::Binary(sign))
            }
        }
        Pending::Colon => {
            if least > 1 {
                None
            } else {
                Some(ParseStep::Ternary)
            }
        }
    }
}

/// What is on top becomes a step, as far as it binds as tightly as `least`.
pub(crate) fn join(stack: &mut Stack, steps: &mut Vec<ParseStep>, least: u32) -> Parsed<()>
    requires { IsCoded stack.old steps.old.items Held.Complete }
    ensures joins { IfOk result
        (λ _. joins least (top_of stack.old steps.old.items) ≡ top_of stack.new steps.new.items) }
    ensures coded { IfOk result (λ _. IsCoded stack.new steps.new.items Held.Complete) }
    ensures refused { IfErr result (λ stop. stop ≡ ParseStop.NoMemory) }
{
    while let Some(top) = stack.innermost() {
        match reduced(least, top) {
            Some(step) => {
                stack.take();
                steps.push(step)?;
            }
            None => return Ok(()),
        }
    }
    Ok(())
}

/// One more word where an operand is wanted.
fn start(stack: &mut Stack, steps: &mut Vec<ParseStep>, word: Lexeme, at: usize) -> Parsed<Held>
    requires { IsCoded stack.old steps.old.items Held.Nothing }
    ensures { Turns (starts (frames_of stack.old (run [] steps.old.items)) word) at stack.new steps.new.items result }
{
    match word {
        Lexeme::Name(Name::Plain(place)) => {
            steps.push(ParseStep::Name(place))?;
            Ok(Held::Complete)
        }
        Lexeme::Name(Name::Truth(value)) => {
            steps.push(ParseStep::Truth(value))?;
            Ok(Held::Complete)
        }
        Lexeme::Name(Name::ClassName(owner)) => Ok(Held::ClassName(owner)),
        Lexeme::Name(Name::Cell) => Ok(Held::Cell),
        Lexeme::Name(Name::Row) => Ok(Held::Row),
        Lexeme::Number(number) => {
            steps.push(ParseStep::Number(number))?;
            Ok(Held::Complete)
        }
        Lexeme::Reference(place) => {
            steps.push(ParseStep::Reference(place))?;
            Ok(Held::Complete)
        }
        Lexeme::Sign(sign) => {
            if sign.is_prefix() {
                stack.put(Pending::Signed(sign))?;
                return Ok(Held::Nothing);
            }
            Err(ParseStop::At(at))
        }
        Lexeme::Open => {
            stack.put(Pending::Opened(Opening::Paren))?;
            Ok(Held::Nothing)
        }
        _ => Err(ParseStop::At(at)),
    }
}

/// One more word after the name of a call or of a constant.
fn call(
    stack: &mut Stack,
    steps: &mut Vec<ParseStep>,
    owner: ClassName,
    name: Name,
    word: Lexeme,
    at: usize,
) -> Parsed<Held>
    requires { IsCoded stack.old steps.old.items (Held.Callee owner name) }
    ensures { Turns (called (frames_of stack.old (run [] steps.old.items)) owner name word)
        at stack.new steps.new.items result }
{
    match word {
        Lexeme::Open => {
            stack.put(Pending::Opened(Opening::Call(owner, name)))?;
            Ok(Held::Nothing)
        }
        _ => match owner {
            ClassName::Math => Err(ParseStop::At(at)),
            ClassName::Long => {
                steps.push(ParseStep::Constant(name))?;
                follow(stack, steps, word, at)
            }
        },
    }
}

/// One more word after `cell(` and a string.
fn close_cell(
    stack: &Stack,
    steps: &mut Vec<ParseStep>,
    place: usize,
    word: Lexeme,
    at: usize,
) -> Parsed<Held>
    requires { IsCoded stack.now steps.old.items (Held.CellText place) }
    ensures { Turns (cell_closed (frames_of stack.now (run [] steps.old.items)) place word)
        at stack.now steps.new.items result }
{
    match word {
        Lexeme::Close => {
            steps.push(ParseStep::Cell(place))?;
            Ok(Held::Complete)
        }
        Lexeme::Sign(Sign::Comma) => Ok(Held::CellComma(place)),
        _ => Err(ParseStop::At(at)),
    }
}

/// One more word after `cell(`, a string, a comma, and a number of decimal places.
fn close_decimal(
    stack: &Stack,
    steps: &mut Vec<ParseStep>,
    place: usize,
    places: u8,
    word: Lexeme,
    at: usize,
) -> Parsed<Held>
    requires { IsCoded stack.now steps.old.items (Held.CellPlaces place places) }
    ensures { Turns (decimal_closed (frames_of stack.now (run [] steps.old.items)) place places word)
        at stack.now steps.new.items result }
{
    match word {
        Lexeme::Close => {
            steps.push(ParseStep::DecimalCell(place, places))?;
            Ok(Held::Complete)
        }
        _ => Err(ParseStop::At(at)),
    }
}

/// One more word after `row(`.
fn close_row(stack: &Stack, steps: &mut Vec<ParseStep>, word: Lexeme, at: usize) -> Parsed<Held>
    requires { IsCoded stack.now steps.old.items Held.RowOpen }
    ensures { Turns (row_closed (frames_of stack.now (run [] steps.old.items)) word)
        at stack.now steps.new.items result }
{
    match word {
        Lexeme::Close => {
            steps.push(ParseStep::Row)?;
            Ok(Held::Complete)
        }
        _ => Err(ParseStop::At(at)),
    }
}

/// One more word.
fn turn(
    stack: &mut Stack,
    steps: &mut Vec<ParseStep>,
    held: Held,
    word: Lexeme,
    at: usize,
) -> Parsed<Held>
    requires { IsCoded stack.old steps.old.items held }
    ensures { Turns (read (state_of stack.old steps.old.items held) word) at stack.new steps.new.items result }
{
    match held {
        Held::Nothing => start(stack, steps, word, at),
        Held::Complete => follow(stack, steps, word, at),
        Held::ClassName(owner) => match word {
            Lexeme::Dot => Ok(Held::OwnerDot(owner)),
            _ => Err(ParseStop::At(at)),
        },
        Held::OwnerDot(owner) => match word {
            Lexeme::Name(name) => Ok(Held::Callee(owner, name)),
            _ => Err(ParseStop::At(at)),
        },
        Held::Callee(owner, name) => call(stack, steps, owner, name, word, at),
        Held::Cell => match word {
            Lexeme::Open => Ok(Held::CellOpen),
            _ => Err(ParseStop::At(at)),
        },
        Held::CellOpen => match word {
            Lexeme::Text(place) => Ok(Held::CellText(place)),
            _ => Err(ParseStop::At(at)),
        },
        Held::CellText(place) => close_cell(stack, steps, place, word, at),
        Held::CellComma(place) => match word {
            Lexeme::Number(Numeral::Places(places)) => Ok(Held::CellPlaces(place, places)),
            _ => Err(ParseStop::At(at)),
        },
        Held::CellPlaces(place, places) => close_decimal(stack, steps, place, places, word, at),
        Held::Row => match word {
            Lexeme::Open => Ok(Held::RowOpen),
            _ => Err(ParseStop::At(at)),
        },
        Held::RowOpen => close_row(stack, steps, word, at),
    }
}

/// What stands after the last word, a constant made an operand.
fn settle(stack: &Stack, steps: &mut Vec<ParseStep>, held: Held) -> Parsed<bool>
    requires { IsCoded stack.now steps.old.items held }
    ensures { IsSettled (state_of stack.now steps.old.items held) stack.now steps.new.items result }
{
    match held {
        Held::Complete => Ok(true),
        Held::Callee(ClassName::Long, name) => {
            steps.push(ParseStep::Constant(name))?;
            Ok(true)
        }
        _ => Ok(false),
    }
}

/// Reads an expression: its steps in postfix order, or where its words stop.
pub(crate) fn parse(alloc: Global, words: &Lexemes) -> Parsed<Vec<ParseStep>>
    ensures ok { IfOk result (λ steps. ArePostfix words.now steps.items) }
    ensures stops { IfErr result (λ stop. IsStop Expression words.now stop) }
{
    let mut stack = Stack::new(alloc);
    let mut steps = Vec::new(alloc);
    let mut held = Held::Nothing;
    let count = words.len();
    for at in 0..count {
        match turn(&mut stack, &mut steps, held, words.at(at), at) {
            Ok(next) => held = next,
            Err(stop) => return Err(stop),
        }
    }
    if !settle(&stack, &mut steps, held)? {
        return Err(ParseStop::At(count));
    }
    join(&mut stack, &mut steps, 0)?;
    match stack.take() {
        None => Ok(steps),
        Some(_) => Err(ParseStop::At(count)),
    }
}
