//! Texts that no job can hold as an argument, and how long and how deep a text may be.
use lambda_expr::{ReadFault, Want, read_lambda, read_lambda_within};
use lambda_values::Lambda;
use std::alloc::{AllocError, Global};
use stream_tokens::{CutText, cut};

/// The lambda of a text that may have cells.
fn with_cells(alloc: Global, text: &str) -> Result<Lambda, ReadFault> {
    let tokens = cut(alloc, text.as_bytes())?;
    let text = CutText::of(text.as_bytes(), &tokens);
    read_lambda_within(alloc, &text, Want::Long, true)
}

/// Whether a text looks at one cell, of the column with this key.
fn has_cell(alloc: Global, text: &str, key: &str) -> bool {
    let Ok(lambda) = with_cells(alloc, text) else {
        return false;
    };
    match lambda.cells(alloc) {
        Ok(cells) => cells.len() == 1 && cells[0].as_slice() == key.as_bytes(),
        Err(AllocError) => false,
    }
}

/// Whether cells with decimal places and without are of the columns with these keys.
pub(crate) fn are_cells(alloc: Global) -> bool {
    has_cell(alloc, "x -> cell(\"a\")", "a")
        && has_cell(alloc, "x -> cell(\"a\", 0)", "a")
        && has_cell(alloc, "x -> cell(\"a\", 2) + x", "a\"\u{2}")
        && has_cell(alloc, "x -> 2 * cell ( \"b c\" ,18 )", "b c\"\u{12}")
}

fn refusal(alloc: Global, text: &[u8]) -> Option<ReadFault> {
    read_lambda(alloc, text, Want::Long).err()
}

#[test]
fn a_text_of_no_job_stops_at_the_first_token_that_no_lambda_goes_on_with(rt: HostRuntime) {
    let texts = "|   |x -> x ++ 1|x -> 007|x -> # 1|x -> x)|x -> (x))|x -> (x";
    for (text, column) in texts.split('|').zip([1, 4, 8, 6, 6, 7, 9, 8]) {
        let found = refusal(rt.alloc(), text.as_bytes());
        assert!(rt; found == Some(ReadFault::Syntax { column }), "{text}");
    }
    for (text, column) in [
        ("x -> cell(\"a\", 19)", 16),
        ("x -> cell(\"a\", -1)", 16),
        ("x -> cell(\"a\", +1)", 16),
        ("x -> cell(\"a\", )", 16),
        ("x -> cell(\"a\", 02)", 16),
        ("x -> cell(\"a\", 2L)", 16),
        ("x -> cell(\"a\", 100)", 16),
        ("x -> cell(\"a\", x)", 16),
        ("x -> cell(\"a\", 2", 17),
        ("x -> cell(\"a\", 2, 2)", 17),
        ("x -> cell(\"a\", 2 + 1)", 18),
        ("x -> cell(\"a\" 2)", 15),
        ("x -> cell(2, \"a\")", 11),
    ] {
        let found = with_cells(rt.alloc(), text).err();
        assert!(rt; found == Some(ReadFault::Syntax { column }), "{text}");
    }
    let found = refusal(rt.alloc(), b"x -> cell(\"a\", 2)");
    assert!(rt; found == Some(ReadFault::Syntax { column: 10 }));
}

/// `front`, and then `middle` some times, with `)` once for each if they are parentheses.
fn repeated(
    alloc: Global,
    front: &str,
    times: usize,
    middle: &str,
    inner: &str,
) -> Result<Vec<u8>, AllocError> {
    let mut text = Vec::from_slice(alloc, front.as_bytes())?;
    for _ in 0..times {
        text.extend_from_slice(middle.as_bytes())?;
    }
    text.extend_from_slice(inner.as_bytes())?;
    for _ in 0..times {
        if !inner.is_empty() {
            text.push(b')')?;
        }
    }
    Ok(text)
}

fn refusal_of(
    alloc: Global,
    front: &str,
    times: usize,
    middle: &str,
    inner: &str,
) -> Option<ReadFault> {
    match repeated(alloc, front, times, middle, inner) {
        Ok(text) => refusal(alloc, &text),
        Err(AllocError) => Some(ReadFault::NoMemory),
    }
}

#[test]
fn depth_ends_at_64_and_tokens_at_4096(rt: HostRuntime) {
    let too_deep = Some(ReadFault::TooDeep);
    for (front, times, middle, inner, fault) in [
        ("x -> ", 63, "(", "x", None),
        ("x -> ", 64, "(", "y", too_deep),
        (
            "x -> ",
            64,
            "(",
            "9223372036854775808",
            Some(ReadFault::LiteralTooLarge),
        ),
        (
            "x -> ",
            2046,
            "(",
            "- -",
            Some(ReadFault::Syntax { column: 2055 }),
        ),
        ("x -> x", 63, " + x", "", None),
        ("x -> x", 64, " + x", "", too_deep),
        ("", 4096, "(", "", Some(ReadFault::Syntax { column: 2 })),
        ("", 4097, "(", "", too_deep),
    ] {
        let found = refusal_of(rt.alloc(), front, times, middle, inner);
        assert!(rt; found == fault, "{times} {middle} {inner}");
    }
}
