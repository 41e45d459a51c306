// Where the fields of a block's header stand, and how long the header is. Version 4 has the fields before BLKNO alone.

pub const MAGIC: usize = 0;

pub const LEVEL: usize = 4;

pub const NUMRECS: usize = 6;

pub const LEFT_SIBLING: usize = 8;

pub const RIGHT_SIBLING: usize = 12;

// The block's own address, in units of 512 bytes.
pub const BLKNO: usize = 16;

// The log sequence number of the last write.
pub const LSN: usize = 24;

pub const UUID: usize = 32;

// The group's number.
pub const OWNER: usize = 48;

pub const CRC: usize = 52;

pub const V4_HEADER_LEN: usize = 16;

pub const V5_HEADER_LEN: usize = 56;
