//! Lambdas over numbers of 64 bits: reading them from texts.
//!
//! It stands on `stream_tokens`, which cuts a text into tokens, on `lambda_values`, which has the expressions and their
//! values, and on `job_names`, which has the names of columns with decimal places. Its users:
//! - `job_language` reads lambdas by `read_lambda_within`, clauses `ok` and `refused`: a part of a text that is cut
//!   already gives the lambda that it spells, or the first refusal that applies, a syntax fault with its column. Its
//!   caller says whether the text may have `cell("name")`, `cell("name", 2)` and `row()`. It reads numbers by
//!   `is_number` and `number_read`, and other words by `word_at`: a word is a function of a token.
//! - other programs read whole texts by `read_lambda` and `read_number`.
//!
//! `each_text_has_an_answer`, `one_answer` and `one_number` say that there is one answer and no other; `without_cells`
//! and `same_without_the_word` say what cells and rows change.
//!
//! Begin with `specs/Grammar.antt` and `specs/Refusals.antt`, then `read.rt` and `parse.rt`.
//!
//! Not promised: that memory is there. Reading recurses nowhere, and what it gives is at most 64 deep.
//!
//! Tested: `refusals.rt` of `test_engine`; `batches.rt`, `calls.rt`, `decimal_jobs.rt`, `full_sinks.rt`, `lambdas.rt`,
//! `messages.rt`, `random.rt` of `test_low`; runs of the programs in `tests`.
#![tactic(auto)]

mod body;
mod check;
mod elaborate;
mod fault;
mod following;
mod head;
mod laws;
mod lexeme;
mod making;
mod number;
mod operation;
mod parse;
mod read;
mod sign;
mod source;
mod stack;
mod step;
mod stream;
mod table;
mod want;
mod word;

pub use fault::ReadFault;
pub use laws::{
    each_text_has_an_answer, one_answer, one_number, one_reading, one_stop, same_without_the_word,
    without_cells,
};
pub use number::{is_number, may_stand, number_read, read_number};
pub use read::{read_lambda, read_lambda_within};
pub use want::Want;
pub use word::{Word, word_at};
