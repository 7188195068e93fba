// The limits in force that code tests, as specs/Limits.antt has them.

// The bytes of a sign text.
pub const BYTES: usize = 16384;

// The signs of a text or a list.
pub const SIGNS: usize = 1024;

// The largest number that a sign or a block carries.
pub const NUMBER: u32 = 999999;

// The written left repeats that are open around a sign.
pub const DEPTH: usize = 8;

// The loops of a score or a listing, numbered from 0.
pub const LOOPS: usize = 64;

// The blocks that a score plays.
pub const BLOCKS: usize = 65535;

// The instructions of a listing.
pub const INSTRUCTIONS: usize = 2048;

// The labels of a listing, numbered from 0.
pub const LABELS: usize = 1024;

// The largest T of a listing.
pub const TIMES: u16 = 1023;

// The largest performed beat of a saved position.
pub const BEAT: u64 = 1000000000000000000;
