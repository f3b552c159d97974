//! The tokens of a text, and the texts of the jobs of a file.
//!
//! A text of a job or of a lambda is cut into names, numbers, strings, references and symbols, from left to right and
//! the longest first (`cut`). A file of jobs is taken apart into the texts of its jobs, each with the number of its
//! line, all at once (`job_texts`) or one by one (`JobTexts`), and has a version of the language (`version_of`). Each
//! takes every byte string. Version 3 is read where the caller says that it may be (`version_within`,
//! `JobTexts::within`).
//!
//! Stands on std and `thiserror`. The readers of lambdas and of jobs stand on it: `cut`, clause `tokens`, gives them
//! the one list of tokens that a text has (`one_cut`), and `JobTexts::next_text`, clause `gives`, the next text. They
//! match on `TokenKind` and `Symbol`, and read a token's bytes by `Token::text`. `CutText` is a text with its tokens,
//! or the part of one between two tokens: it is cut once, and columns count from the part.
//!
//! Begin with `specs/Tokens.antt`, then `scanner.rt`; for lines with `specs/JobTexts.antt`, then `job_text.rt`.
//!
//! Not promised: that a token is part of some grammar. A bad byte, `++`, `--` and a number like `007` are cut like all
//! others, and the readers refuse them.
//!
//! Tested: `refusals.rt`, `reports.rt` of `test_engine`; `calls.rt`, `lambdas.rt` of `test_low`; runs of the programs
//! in `tests`.
#![tactic(auto)]

mod bytes;
mod cut_text;
mod job_text;
mod line;
mod lines_left;
mod scanner;
mod symbol;
mod text;
mod token;
mod version;

pub use bytes::Bytes;
pub use cut_text::{CutText, tokens_of_a_part};
pub use job_text::{JobText, JobTexts, TextFault, job_texts};
pub use scanner::{cut, one_cut, tokens_stand_in_order};
pub use std::alloc::AllocError as NoMemory;
pub use symbol::Symbol;
pub use text::Text;
pub use token::{Token, TokenKind};
pub use version::{later_versions_are_said, version_of, version_within};
