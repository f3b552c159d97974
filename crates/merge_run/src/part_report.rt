//! The report of a part.

/// The report of a part of a table.
#[derive(Drop)]
pub struct PartReport {
    /// How many rows the part has, the header aside.
    pub rows: u64,
    /// The report as JSON.
    pub bytes: Vec<u8>,
}
