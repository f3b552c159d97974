//! Columns that are looked at with decimal places. The values were worked out by hand.
use columns::{ColumnFault, TableForm, read_columns_as, read_decimal};
use counted_io::Counted;
use job_names::{key_of, places_of};
use run_settings::Separator;
use std::alloc::{AllocError, Global};
use std::thread::Threads;

/// Sizes of pieces: a cut within each cell, near its end, and none at all.
const SIZES: [usize; 5] = [1, 3, 5, 8, 1000];

/// The key of a column as a name, a slash and a number of places write it.
fn key(alloc: Global, text: &str) -> Result<Vec<u8>, AllocError> {
    let Some((name, places)) = text.split_once("/") else {
        return Vec::from_slice(alloc, text.as_bytes());
    };
    key_of(
        alloc,
        name.as_bytes(),
        places_of(places.as_bytes()).unwrap_or(0),
    )
}

/// A form with commas, these keys, parted by blanks, after a star if all columns are looked at.
fn form_of(alloc: Global, keys: &str, blank: Option<i64>) -> Result<TableForm, AllocError> {
    let mut names = Vec::new(alloc);
    for text in keys.split_whitespace() {
        if text != "*" {
            names.push(key(alloc, text)?)?;
        }
    }
    Ok(TableForm {
        separator: Separator::Comma,
        is_all: keys.starts_with("*"),
        names,
        blank,
    })
}

/// Whether a file gives these cells under a key, in pieces of each size, or this fault.
fn gives<H: Threads + Sync>(
    rt: &H,
    alloc: Global,
    file: &str,
    form: &TableForm,
    key: &[u8],
    cells: Result<&[i64], ColumnFault>,
) -> bool {
    for size in SIZES {
        let bytes = &mut Counted::new(file.as_bytes());
        let is_right = match read_columns_as(rt, alloc, bytes, 3, size, form) {
            Ok(table) => cells.is_ok_and(|cells| table.get(key) == Some(cells)),
            Err(found) => cells.is_err_and(|fault| fault == found),
        };
        if !is_right {
            return false;
        }
    }
    true
}

/// The first file whose columns of decimals aren't these integers.
fn wrong_columns<H: Threads + Sync>(
    rt: &H,
    alloc: Global,
) -> Result<Option<&'static str>, AllocError> {
    let plain = "t,a\nx,12.5\ny,4\n\"\n\",.5\r\nu,-.5\nv,+1.25\n\nw, -0.05\t\n";
    let quoted = "b,a\n1,\"12.5\"\n2,\" 7 \"\n\"3\",\"\"8.25\n-4,00000000000000000000001.50\n";
    let large = "a\n0.000000000000000001\n9.223372036854775807\n-9.223372036854775808";
    let blanks = "a,b\n,1\n2.5,2\n\" \",3\n";
    let thousandths = [12500, 4000, 500, -500, 1250, -50];
    let rows: [(&str, &str, Option<i64>, &str, &[i64]); 12] = [
        (plain, "a/2", None, "a/2", &[1250, 400, 50, -50, 125, -5]),
        (plain, "a/3 a/3", None, "a/3", &thousandths),
        (quoted, "* a/2", None, "a/2", &[1250, 700, 825, 150]),
        (quoted, "* a/2", None, "b", &[1, 2, 3, -4]),
        (large, "* a/18", None, "a/18", &[1, i64::MAX, i64::MIN]),
        (blanks, "a/1", Some(-3), "a/1", &[-30, 25, -30]),
        (blanks, "a/2 a/1 b", Some(0), "a/1", &[0, 25, 0]),
        (blanks, "a/2 a/1 b", Some(0), "a/2", &[0, 250, 0]),
        (blanks, "a/2 b/3 b", Some(0), "b", &[1, 2, 3]),
        (blanks, "a/2 b/3 b", Some(0), "b/3", &[1000, 2000, 3000]),
        ("a\n-7\n", "* a a/10", None, "a", &[-7]),
        ("a\n-7\n", "* a a/10", None, "a/10", &[-70_000_000_000]),
    ];
    for (file, keys, blank, name, cells) in rows {
        let form = form_of(alloc, keys, blank)?;
        let name = key(alloc, name)?;
        if !gives(rt, alloc, file, &form, &name, Ok(cells)) {
            return Ok(Some(file));
        }
    }
    Ok(None)
}

/// The first cell that is no decimal with two places, and isn't refused.
fn taken_cell<H: Threads + Sync>(
    rt: &H,
    alloc: Global,
) -> Result<Option<&'static str>, AllocError> {
    let bad = "5.|.|\"1,234.50\"|12.505|1.5e3||-|+|1.-5|--1|-+1|1 .5|. 5|1..5|1.2.3|x|\"\"\"1\"\"\"\
|92233720368547758.08|-92233720368547758.09|9223372036854775807|5.\"\"";
    let second = Err(ColumnFault::BadNumber { row: 2, column: 2 });
    let form = form_of(alloc, "a/2", None)?;
    for cell in bad.split('|') {
        let file = format!(in alloc; "b,a\nx,0.01\n,{cell}\n1,1.555\n")?;
        if !gives(rt, alloc, &file, &form, b"a", second) {
            return Ok(Some(cell));
        }
    }
    Ok(None)
}

/// The first file that isn't refused for this reason.
fn taken_file<H: Threads + Sync>(
    rt: &H,
    alloc: Global,
) -> Result<Option<&'static str>, AllocError> {
    let first = ColumnFault::BadNumber { row: 1, column: 1 };
    let rows = [
        ("a\n12.5\n", "a a/2", None, first),
        ("a\n10\n", "a a/18", None, first),
        ("a\n \n", "a/1", Some(i64::MAX), first),
        ("a\n1,2\n", "a/1", None, ColumnFault::RowLength { row: 1 }),
        ("a,a\n1,2\n", "a/1", None, ColumnFault::SameName),
    ];
    for (file, keys, blank, fault) in rows {
        let form = form_of(alloc, keys, blank)?;
        if !gives(rt, alloc, file, &form, b"a", Err(fault)) {
            return Ok(Some(file));
        }
    }
    Ok(None)
}

/// What of these tables and cells isn't read as it should be.
pub(crate) fn wrong_decimals<H: Threads + Sync>(
    rt: &H,
    alloc: Global,
) -> Result<Option<&'static str>, AllocError> {
    if let Some(file) = wrong_columns(rt, alloc)? {
        return Ok(Some(file));
    }
    if let Some(cell) = taken_cell(rt, alloc)? {
        return Ok(Some(cell));
    }
    if let Some(file) = taken_file(rt, alloc)? {
        return Ok(Some(file));
    }
    Ok(wrong_number())
}

/// The first cell whose number isn't this one.
fn wrong_number() -> Option<&'static str> {
    let rows = [
        ("12.5", 2, Some(1250)),
        ("4", 2, Some(400)),
        ("\t+007.0 ", 1, Some(70)),
        ("-.123456789012345678", 18, Some(-123_456_789_012_345_678)),
        ("-9223372036854775808", 0, Some(i64::MIN)),
        ("9223372036854775808", 0, None),
        ("1.0", 0, None),
        ("0.000", 2, None),
        ("0", 255, Some(0)),
    ];
    for (cell, places, number) in rows {
        if read_decimal(cell.as_bytes(), places) != number {
            return Some(cell);
        }
    }
    None
}
