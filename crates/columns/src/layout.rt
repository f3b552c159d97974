//! How a table is read, and how its columns are looked at.
ghost use Rattle.std.specs.Prelude.{◌≡◌, ◌<◌, ◌≤◌, ◌-◌, ◌^◌, [], IfOk, length, map, take};
ghost use Rattle.std.specs.List.{list_any};
ghost use Rattle.std.specs.Str.{bytes_eq};
ghost use Rattle.csv.specs.Records.{fields_of};
ghost use Rattle.job_names.specs.ColumnKeys.{key_of};
ghost use Rattle.columns.specs.Layouts.{IsLayout, begun_by, form_of, places_in};
ghost use Rattle.columns.specs.TableForms.{looks_of, looks_or, named_looks};
ghost use Rattle.columns.specs.TextRows.{look_count};

use csv::ByteRecord;
use run_settings::Separator;
use std::alloc::{AllocError, Global};

/// How a table is read.
#[derive(Debug, Drop)]
pub struct TableForm {
    /// What stands between the cells of a row.
    pub separator: Separator,
    /// Whether all columns are looked at, or the named ones alone. The cells of other columns may hold anything.
    pub is_all: bool,
    /// The keys of columns, as `job_names::key_of` makes them. A column is looked at with each number of decimal places
    /// with which a key names it, and is there under each of these keys; as integers if no key names it.
    pub names: Vec<Vec<u8>>,
    /// The number of a blank cell: of one without bytes, or of spaces and tabs alone. If none is given, it is refused.
    pub blank: Option<i64>,
}

impl TableForm {
    ghost use Rattle.columns.specs.Layouts.{form_of};
    ghost use Rattle.columns.specs.TableForms.{default_form};

    /// The form of a table of integers: a comma between cells, all columns, and no number for a blank cell.
    pub fn of_integers(alloc: Global) -> TableForm
        ensures { form_of result ≡ default_form }
    {
        TableForm {
            separator: Separator::Comma,
            is_all: true,
            names: Vec::new(alloc),
            blank: None,
        }
    }
}

/// How a column is looked at.
#[derive(Drop)]
pub(crate) enum Look {
    /// Not at all.
    Other,
    /// As one of integers.
    Integers,
    /// With each of these numbers of decimal places.
    Decimals(Vec<u8>),
}

impl Look {
    ghost use Rattle.columns.specs.Layouts.{places_in};

    /// The numbers of decimal places with which the column is looked at.
    pub(crate) fn places(&self) -> &[u8]
        ensures { result.now ≡ places_in self.now }
    {
        match self {
            Look::Other => &[],
            Look::Integers => &[0],
            Look::Decimals(places) => places.as_slice(),
        }
    }
}

/// What stands between the cells of a row, the number of a blank one, and how each column of the header is looked at.
#[derive(Drop)]
pub(crate) struct Layout {
    pub(crate) separator: u8,
    pub(crate) blank: Option<i64>,
    pub(crate) looks: Vec<Look>,
}

/// The layout of the rows under a header.
pub(crate) fn layout_of(
    alloc: Global,
    header: &ByteRecord,
    form: &TableForm,
) -> Result<Layout, AllocError>
    ensures { IfOk result (λ layout. IsLayout (form_of form.now) layout (fields_of header.now)) }
{
    let mut looks = Vec::with_capacity(alloc, header.len())?;
    for name in header.iter() {
        looks.push(look_of(alloc, form, name)?)?;
    }
    Ok(Layout {
        separator: form.separator.byte(),
        blank: form.blank,
        looks,
    })
}

/// How the column with this name is looked at.
fn look_of(alloc: Global, form: &TableForm, name: &[u8]) -> Result<Look, AllocError>
    ensures { IfOk result (λ look. places_in look ≡ looks_of (form_of form.now) name.now) }
{
    let places = named_places(alloc, &form.names, name)?;
    Ok(look_with(places, form.is_all))
}

/// The look with the numbers of places with which keys name a column.
#[tactic(auto, using(crate::proofs::KeyLemmas::looks_or_some, crate::proofs::KeyLemmas::one_zero))]
fn look_with(places: Vec<u8>, is_all: bool) -> Look
    ensures { places_in result ≡ looks_or places.items is_all }
{
    if places.is_empty() {
        return look_unnamed(is_all);
    }
    if places.len() == 1 && places[0] == 0 {
        return Look::Integers;
    }
    Look::Decimals(places)
}

/// The look at a column that no key names.
fn look_unnamed(is_all: bool) -> Look
    ensures { places_in result ≡ looks_or [] is_all }
{
    if is_all { Look::Integers } else { Look::Other }
}

/// The numbers of decimal places that a column may be looked at with.
const ALL_PLACES: [u8; 19] = [
    0, 1, 2, 3, 4, 5, 6, 7, 8, 9, 10, 11, 12, 13, 14, 15, 16, 17, 18,
];

/// The numbers of decimal places with which keys name the column.
fn named_places(alloc: Global, keys: &[Vec<u8>], name: &[u8]) -> Result<Vec<u8>, AllocError>
    ensures { IfOk result (λ places. places.items ≡ named_looks (map (λ key. key.items) keys.now) name.now) }
{
    let begun = begun_keys(alloc, keys, name)?;
    let mut named = Vec::new(alloc);
    for places in &ALL_PLACES {
        if is_named(&begun, name, *places) {
            named.push(*places)?;
        }
    }
    Ok(named)
}

/// The keys that begin with the name: few, however many there are.
fn begun_keys<'a>(
    alloc: Global,
    keys: &'a [Vec<u8>],
    name: &[u8],
) -> Result<Vec<&'a [u8]>, AllocError>
    ensures { IfOk result (λ begun. map (λ key. key.now) begun.items
        ≡ begun_by name.now (map (λ key. key.items) keys.now)) }
{
    let mut begun = Vec::new(alloc);
    for key in keys {
        if begins(key.as_slice(), name) {
            begun.push(key.as_slice())?;
        }
    }
    Ok(begun)
}

#[tactic(auto, using(crate::proofs::KeyLemmas::short_key))]
fn begins(key: &[u8], name: &[u8]) -> bool
    ensures { result ≡ bytes_eq name.now (take (length name.now) key.now) }
{
    if key.len() < name.len() {
        return false;
    }
    name == &key[..name.len()]
}

/// Whether a key names the column with this many decimal places.
fn is_named(keys: &[&[u8]], name: &[u8], places: u8) -> bool
    ensures { result ≡ list_any (λ key. bytes_eq (key_of name.now places) key.now) keys.now }
{
    keys.iter().any(|key| is_key(name, places, key))
}

/// Whether this is the column's key with this many decimal places.
fn is_key(name: &[u8], places: u8, key: &[u8]) -> bool
    ensures { result ≡ bytes_eq (key_of name.now places) key.now }
{
    if places == 0 {
        return name == key;
    }
    let count = name.len();
    if key.len() < 2 || key.len() - 2 != count {
        return false;
    }
    if key[count] != b'"' || key[count + 1] != places {
        return false;
    }
    name == &key[..count]
}

/// How many looks there are at the columns of a header, unless they are more than a `usize` holds.
pub(crate) fn look_count(looks: &[Look]) -> usize
    ensures least { result ≤ look_count (map places_in looks.now) }
    ensures exact { result < 2 ^ 64 - 1 → result ≡ look_count (map places_in looks.now) }
{
    let mut count = 0usize;
    for look in looks {
        count = count.saturating_add(look.places().len());
    }
    count
}
