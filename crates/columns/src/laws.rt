//! Laws of the definitions. The functions do nothing; their contracts are the laws.
ghost use Rattle.columns.specs.TableCuts.{AreAsBefore, AreWhatACutLeaves};

/// With a comma, all columns and no number for blanks, a file gives what it gives as a table of integers.
pub fn by_default_tables_are_as_before()
    ensures { AreAsBefore }
{}

/// The columns that are looked at are those of the table that a cut to them leaves, its decimals read as integers, if
/// each row is as long as the header; then a fault is the cut table's, but for the number of the column in which a bad
/// number is.
pub fn named_columns_are_what_a_cut_leaves()
    ensures { AreWhatACutLeaves }
{}
