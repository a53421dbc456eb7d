// The five records, as a host in C has them.

// A buffer descriptor: the address of the first byte, passed on unchecked, and how many there are.
#[repr(C)]
#[derive(Clone, Copy)]
pub struct Buffer {
    pub pointer: u64,
    pub length: u64,
}

// An event: what kind it is, and its payload.
#[repr(C)]
#[derive(Clone, Copy)]
pub struct Event {
    pub kind: Buffer,
    pub data: Buffer,
}

// A place in a program's source.
#[repr(C)]
#[derive(Clone, Copy)]
pub struct Location {
    pub file: Buffer,
    pub line: u32,
    pub column: u32,
}

// A call to a function of another context.
#[repr(C)]
#[derive(Clone, Copy)]
pub struct CallRecord {
    pub context_id: Buffer,
    pub function: Buffer,
    pub params: Buffer,
}

// A returned value: discriminant 0 for a result, 1 for an error.
#[repr(C)]
#[derive(Clone, Copy)]
pub struct Returned {
    pub discriminant: u64,
    pub buffer: Buffer,
}

// Their bytes in memory, and those of the fields that are no record themselves.
pub const WORD: usize = 8;

pub const HALF: usize = 4;

pub const BUFFER: usize = 2 * WORD;

pub const EVENT: usize = 2 * BUFFER;

pub const LOCATION: usize = BUFFER + 2 * HALF;

pub const CALL_RECORD: usize = 3 * BUFFER;

pub const RETURNED: usize = WORD + BUFFER;
