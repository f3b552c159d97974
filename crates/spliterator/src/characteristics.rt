//! The flags of characteristics, with the values of `java.util.Spliterator` (Java SE 17).

/// No value comes twice.
pub const DISTINCT: u32 = 0x1;
/// The values ascend.
pub const SORTED: u32 = 0x4;
/// The items have an encounter order.
pub const ORDERED: u32 = 0x10;
/// The size is exact.
pub const SIZED: u32 = 0x40;
/// No value is null.
pub const NONNULL: u32 = 0x100;
/// The source can't change.
pub const IMMUTABLE: u32 = 0x400;
/// The source may change while it is walked. No spliterator here has it.
pub const CONCURRENT: u32 = 0x1000;
/// The sizes of the two parts of a split are exact too.
pub const SUBSIZED: u32 = 0x4000;
