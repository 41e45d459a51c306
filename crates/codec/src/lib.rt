// Bytes, records and CRC32C: the numbers, records and check of XFS's group trees, as they stand in lent bytes, and the questions on lists of
// records.
#![tactic(auto)]

pub mod check;
pub mod copy;
pub mod crc;
pub mod endian;
pub mod free_extent;
pub mod list;
pub mod refcount;
pub mod refusal;
pub mod rmap;
