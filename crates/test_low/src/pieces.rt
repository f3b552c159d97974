//! Files read in pieces on threads. The values were worked out by hand; a cut of any size gives them.
use crate::decimals::wrong_decimals;
use columns::{ColumnFault, Columns, TableForm, read_columns, read_columns_as, read_columns_by};
use counted_io::Counted;
use run_settings::Separator;
use std::alloc::{AllocError, Global};
use std::test::Fail;
use std::thread::Threads;

/// Sizes of pieces: a cut within each cell, near its end, and none at all.
const SIZES: [usize; 7] = [1, 2, 3, 5, 8, 13, 1000];

/// Whether a file gives these cells of column `a`, or this fault, in pieces of each size.
fn in_pieces<H: Threads + Sync>(
    rt: &H,
    alloc: Global,
    file: &str,
    cells: &[i64],
    fault: Option<ColumnFault>,
) -> bool {
    for size in SIZES {
        let found = read_columns_by(rt, alloc, &mut Counted::new(file.as_bytes()), 3, size);
        let is_right = match found {
            Ok(table) => fault.is_none() && table.get(b"a") == Some(cells),
            Err(found) => fault == Some(found),
        };
        if !is_right {
            return false;
        }
    }
    true
}

/// A form with this separator, these names, parted by blanks, and this number for a blank cell.
fn form_of(
    alloc: Global,
    separator: Separator,
    names: &str,
    blank: Option<i64>,
) -> Result<TableForm, AllocError> {
    let mut wanted = Vec::new(alloc);
    for name in names.split_whitespace() {
        wanted.push(Vec::from_slice(alloc, name.as_bytes())?)?;
    }
    Ok(TableForm {
        separator,
        is_all: names.is_empty(),
        names: wanted,
        blank,
    })
}

/// Whether a file in a form gives these cells of column `a`, or this fault, in pieces of each size.
fn in_form<H: Threads + Sync>(
    rt: &H,
    alloc: Global,
    file: &str,
    form: &TableForm,
    cells: &[i64],
    fault: Option<ColumnFault>,
) -> bool {
    for size in SIZES {
        let bytes = &mut Counted::new(file.as_bytes());
        let is_right = match read_columns_as(rt, alloc, bytes, 3, size, form) {
            Ok(table) => fault.is_none() && table.get(b"a").unwrap_or(&[]) == cells,
            Err(found) => fault == Some(found),
        };
        if !is_right {
            return false;
        }
    }
    true
}

#[test]
fn tables_are_read_as_they_are(rt: HostRuntime) -> Result<(), Fail> {
    let (comma, bar) = (Separator::Comma, Separator::Bar);
    let notes = "id;note;a\n1;\"pay; later\";4\n2;\"said \"\"no\"\"\ntwice\";-1\n3;;+10\n";
    let quoted = "a,t,b\n1,\"x,2\ry\"z,3\n\n4,u\"v,5\n";
    let blanks = "b|a\n1|\n2| \t\n3|\"\"\n4|7\n";
    // A last row without a line end; columns with equal names that aren't looked at; no column that is named.
    let last = "a\tt\n1\tx\n2\t\"y\nz\"";
    let equal = "t,a,t\nx,1,\"\n\n\"\n";
    let rows: [(&str, Separator, &str, Option<i64>, &[i64]); 6] = [
        (notes, Separator::Semicolon, "a", None, &[4, -1, 10]),
        (quoted, comma, "b a", None, &[1, 4]),
        (blanks, bar, "", Some(-5), &[-5, -5, -5, 7]),
        (last, Separator::Tab, "a", Some(0), &[1, 2]),
        (equal, comma, "a", None, &[1]),
        (notes, comma, "a", None, &[]),
    ];
    for (file, separator, names, blank, cells) in rows {
        let form = form_of(rt.alloc(), separator, names, blank)?;
        assert!(rt;
            in_form(&rt, rt.alloc(), file, &form, cells, None),
            "{file}"
        );
    }
    let first = ColumnFault::BadNumber { row: 1, column: 2 };
    let second = ColumnFault::BadNumber { row: 2, column: 2 };
    let short = ColumnFault::RowLength { row: 1 };
    let bad = [
        (notes, Separator::Semicolon, "a note", first),
        (blanks, bar, "a", first),
        ("a,t,b\n1,\"x", comma, "a", short),
        ("t,a\nx,1\n\"y\n\",zz\n", comma, "a", second),
        ("a,a,t\n1,2,x\n", comma, "a", ColumnFault::SameName),
    ];
    for (file, separator, names, fault) in bad {
        let form = form_of(rt.alloc(), separator, names, None)?;
        assert!(rt;
            in_form(&rt, rt.alloc(), file, &form, &[], Some(fault)),
            "{file}"
        );
    }
    let wrong = wrong_decimals(&rt, rt.alloc())?;
    assert!(rt; wrong.is_none(), "{wrong:?}");
    Ok(())
}

#[test]
fn pieces_of_any_size_give_the_columns_or_the_first_fault(rt: HostRuntime) {
    // Rows of two cells, quoted ones, quoted ones alone; all kinds of line ends and empty lines; blanks, signs and
    // zeros; numbers that are quoted in part; a header with a line feed; a quote that is left open; no row.
    let files =
        "b,a\n10,3\n20,0\n30,-5\n40,7\n50,12|\"b\",\"a\"\n\"10\",\"3\"\n\"20\",\"0\"\n|a\n\"3\"\n0\n\"-5\"\n7\n|\
a,b\r\n3,1\r\n0,2\r\n-5,3\r\n|b,a\r1,3\r2,0\r3,-5\r|\n\r\na\n\n3\n\r\n\r\n0\n\n-5\r\r7|\
\u{feff}a\n +3 \n\t-0\n-005\n7\t\n0012\n|\
b,a\n1,\"\"3\n2,\"\"0\n|\"c\nb\",a\n1,3\n2,0\n4,-5\n|b,a\n1,3\n2,\"0|a,b\n";
    let cells: [i64; 5] = [3, 0, -5, 7, 12];
    for (file, count) in files.split('|').zip([5, 2, 4, 3, 3, 4, 5, 2, 3, 2, 0]) {
        let cells = cells.get(..count).unwrap_or(&[]);
        assert!(rt; in_pieces(&rt, rt.alloc(), file, cells, None), "{file}");
    }
    // A line feed in quotes: the lines after it are no rows of their own.
    let bad_numbers = "b\n1\n\"2\n3\n|a\n1\n2-3\n|a\n1\n9223372036854775808\n|a,b\n1,2\nx,4\n5\n";
    let lengths = "a,b\n1,2\n\n\n3,4,5\n|a,b\n1,2\n3,\"4\n5,6\n\",7\n|a,b\n1,2\n3\ny,6\n";
    for (files, fault) in [
        (bad_numbers, ColumnFault::BadNumber { row: 2, column: 1 }),
        (lengths, ColumnFault::RowLength { row: 2 }),
        ("a,a\n1,2\n3,x\n", ColumnFault::SameName),
    ] {
        for file in files.split('|') {
            assert!(rt;
                in_pieces(&rt, rt.alloc(), file, &[], Some(fault)),
                "{file}"
            );
        }
    }
}

/// What most bytes of a random text are taken from: few of them make a fault.
const BYTES: &[u8; 16] = b"0123456789\n\n\n\n\r-";

/// What one in eight is taken from.
const MARKS: &[u8; 8] = b"\"\" \t+,\"\r";

/// What a random table with text is taken from.
const TABLE: &[u8; 16] = b"1,\n2,\"\n;,x\"\r \t-,";

/// A random table: a column of numbers and one of text, if no byte is against it.
fn random_table(alloc: Global, seed: u64) -> Result<Vec<u8>, AllocError> {
    let mut text = Vec::from_slice(alloc, b"a,t\n1,0123456789012345678901234567890123456789")?;
    let mut state = seed.wrapping_mul(0x9e37_79b9_7f4a_7c15);
    for byte in text.iter_mut().skip(6) {
        state = state
            .wrapping_mul(6_364_136_223_846_793_005)
            .wrapping_add(1_442_695_040_888_963_407);
        *byte = TABLE[(state >> 33) as usize % 16];
    }
    Ok(text)
}

/// A column of random text: a header and some rows, mostly of numbers.
fn random_text(alloc: Global, seed: u64) -> Result<Vec<u8>, AllocError> {
    let mut text = Vec::from_slice(alloc, b"a\n0123456789012345678901234567890123456789")?;
    let mut state = seed.wrapping_mul(0x9e37_79b9_7f4a_7c15);
    for byte in text.iter_mut().skip(2) {
        state = state
            .wrapping_mul(6_364_136_223_846_793_005)
            .wrapping_add(1_442_695_040_888_963_407);
        let pick = (state >> 33) as usize;
        *byte = if seed % 4 > 0 && pick % 8 == 0 {
            MARKS[pick / 8 % 8]
        } else {
            BYTES[pick / 8 % 16]
        };
    }
    Ok(text)
}

fn are_same(one: &Result<Columns, ColumnFault>, other: &Result<Columns, ColumnFault>) -> bool {
    match (one, other) {
        (Ok(one), Ok(other)) => one.get(b"a") == other.get(b"a"),
        (Err(one), Err(other)) => one == other,
        _ => false,
    }
}

/// Whether a text gives in pieces of this size what it gives on one thread.
fn agree<H: Threads + Sync>(rt: &H, alloc: Global, text: &[u8], size: usize) -> bool {
    let whole = read_columns(alloc, &mut Counted::new(text));
    let pieces = read_columns_by(rt, alloc, &mut Counted::new(text), 4, size);
    are_same(&whole, &pieces)
}

/// Whether a table in a form gives in pieces of this size what it gives in one piece.
fn agree_in<H: Threads + Sync>(
    rt: &H,
    alloc: Global,
    text: &[u8],
    form: &TableForm,
    size: usize,
) -> bool {
    let whole = read_columns_as(rt, alloc, &mut Counted::new(text), 1, 1000, form);
    let pieces = read_columns_as(rt, alloc, &mut Counted::new(text), 4, size, form);
    are_same(&whole, &pieces)
}

#[test]
fn random_texts_give_in_pieces_what_they_give_on_one_thread(rt: HostRuntime) -> Result<(), Fail> {
    for seed in 0..400u64 {
        let text = random_text(rt.alloc(), seed)?;
        let size = 1 + (seed % 23) as usize;
        assert!(rt; agree(&rt, rt.alloc(), &text, size), "text {seed}");
        let table = random_table(rt.alloc(), seed)?;
        let separator = if seed % 3 > 0 {
            Separator::Comma
        } else {
            Separator::Semicolon
        };
        let form = form_of(rt.alloc(), separator, "a", Some(0))?;
        assert!(rt;
            agree_in(&rt, rt.alloc(), &table, &form, size),
            "table {seed}"
        );
    }
    Ok(())
}
