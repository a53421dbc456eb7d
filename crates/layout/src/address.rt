// The limits of an address's fields.

// Addresses lie below this.
pub const ADDRESSES: u64 = 0x1_0000_0000_0000;

// Offsets lie below this.
pub const OFFSETS: u64 = 0x100_0000;

// The length of a segment, as an index.
pub const SEGMENT: usize = OFFSETS as usize;
