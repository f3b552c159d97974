//! Whether each word of a text may stand in a grammar.
ghost use Rattle.std.specs.Prelude.{◌≡◌};
ghost use Rattle.std.specs.List.{list_all};
ghost use Rattle.lambda_expr.specs.CodeWords.{word_of, words_in};
ghost use Rattle.job_language.specs.Grammar.{is_sound};

use lambda_expr::{Word, may_stand, word_at};
use stream_tokens::{CutText, Symbol};

/// Whether a word may stand in a grammar.
fn is_sound(word: Word) -> bool
    ensures { result ≡ is_sound (word_of word.entry) }
{
    match word {
        Word::Number(digits) => may_stand(digits),
        Word::Sign(Symbol::PlusPlus) => false,
        Word::Sign(Symbol::MinusMinus) => false,
        Word::Bad => false,
        _ => true,
    }
}

/// Whether each word of a text may stand in a grammar: none is a bad byte, `++`, `--`, or a number of two or more
/// digits that begins with 0.
pub fn are_sound(text: &CutText) -> bool
    ensures { result ≡ list_all is_sound (words_in text.now) }
{
    for place in 0..text.len() {
        if !is_sound(word_at(text, place)) {
            return false;
        }
    }
    true
}
