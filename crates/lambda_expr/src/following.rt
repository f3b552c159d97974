//! What a parse does with a sign after an operand.

ghost use Rattle.std.specs.Prelude.{◌≡◌, List};
ghost use Rattle.lambda_expr.specs.declared.step.ParseStep.{ParseStep as step};
ghost use Rattle.lambda_expr.specs.Reader.{takes, follows};
ghost use Rattle.lambda_expr.specs.Codes.{top_of, IsCoded, Turns};

use crate::lexeme::Lexeme;
use crate::parse::{Held, ParseStop, Parsed, Pending, join};
use crate::sign::Sign;
use crate::stack::Stack;
use crate::step::{Opening, ParseStep};

/// Whether a sign may follow an operand here: a comma only where a call is innermost.
fn takes(sign: Sign, stack: &Stack) -> bool
    ensures { (ss : List step) → result ≡ takes sign (top_of stack.now ss).frames }
{
    match sign {
        Sign::Comma => matches!(
            stack.innermost(),
            Some(Pending::Opened(Opening::Call(_, _)))
        ),
        _ => !matches!(sign, Sign::Complement | Sign::Not),
    }
}

/// One more word after an operand.
pub(crate) fn follow(
    stack: &mut Stack,
    steps: &mut Vec<ParseStep>,
    word: Lexeme,
    at: usize,
) -> Parsed<Held>
    requires { IsCoded stack.old steps.old.items Held.Complete }
    ensures { Turns (follows (top_of stack.old steps.old.items) word) at stack.new steps.new.items result }
{
    match word {
        Lexeme::Sign(sign) => {
            join(stack, steps, sign.level())?;
            if !takes(sign, stack) {
                return Err(ParseStop::At(at));
            }
            stack.put(Pending::Left(sign))?;
            Ok(Held::Nothing)
        }
        Lexeme::Question => {
            join(stack, steps, 2)?;
            stack.put(Pending::Question)?;
            Ok(Held::Nothing)
        }
        Lexeme::Colon => {
            join(stack, steps, 0)?;
            match stack.take() {
                Some(Pending::Question) => {
                    stack.put(Pending::Colon)?;
                    Ok(Held::Nothing)
                }
                _ => Err(ParseStop::At(at)),
            }
        }
        Lexeme::Close => {
            join(stack, steps, 0)?;
            match stack.take() {
                Some(Pending::Opened(opening)) => {
                    steps.push(ParseStep::Enclose(opening))?;
                    Ok(Held::Complete)
                }
                _ => Err(ParseStop::At(at)),
            }
        }
        _ => Err(ParseStop::At(at)),
    }
}
