//! Faults of two crates in one type of error.
use columns::{Columns, read_columns};
use counted_io::Counted;
use lambda_expr::{Want, read_lambda};
use lambda_values::Lambda;
use std::alloc::Global;
use std::fmt::InlineText;

/// The columns of a table and a lambda, or the message of the first fault.
fn read_both(alloc: Global, table: &[u8], text: &[u8]) -> anyhow::Result<(Columns, Lambda)> {
    let columns = read_columns(alloc, &mut Counted::new(table))?;
    let lambda = read_lambda(alloc, text, Want::Long)?;
    Ok((columns, lambda))
}

/// Whether the error of this table and this lambda is this message.
fn is_message(alloc: Global, table: &str, text: &str, message: &str) -> bool {
    match read_both(alloc, table.as_bytes(), text.as_bytes()) {
        Ok(_) => false,
        Err(error) => InlineText::<64>::of(error).as_str() == message,
    }
}

/// Whether each fault gives its message.
pub(crate) fn are_messages(alloc: Global) -> bool {
    let rows = "columns: bad number in row 1 column 1";
    is_message(alloc, "a\nx", "x -> x", rows)
        && is_message(alloc, "a\n1", "x -> ", "expression syntax at column 6")
        && is_message(alloc, "a\n1", "x -> y", "unknown name")
}
