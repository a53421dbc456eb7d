// The control block: a header of six u32, the shadow records, the frame table.

// Where the edition stands in the header. The word behind it is 0.
pub const EDITION_AT: usize = 16;

// The older edition, in which a program runs from its account's data.
pub const OLDER: usize = 1;

// The newer edition, in which the program is a segment of its own.
pub const NEWER: usize = 2;

// The header's length, and so where the shadow records start.
pub const SHADOW_AT: usize = 24;

// Where the stack's size stands in a shadow record.
pub const STACK_AT: usize = 2;

// Where the heap's size stands in a shadow record.
pub const HEAP_AT: usize = 4;

// Where the registers start in a shadow record.
pub const REGISTERS_AT: usize = 8;

// The length of the registers: 32 of 8 bytes.
pub const REGISTERS: usize = 256;

// The length of a shadow record.
pub const SHADOW: usize = REGISTERS_AT + REGISTERS;

// The most live invocations.
pub const INVOCATIONS: usize = 16;

// Where the first invocation's shadow record starts. Record 0 is no invocation's.
pub const FIRST_RECORD: usize = SHADOW_AT + SHADOW;

// Where the frame table starts: after a record for each invocation, and record 0.
pub const TABLE_AT: usize = SHADOW_AT + (INVOCATIONS + 1) * SHADOW;

// The length of a frame entry.
pub const FRAME_ENTRY: usize = 8;

// The most frames.
pub const FRAMES: usize = 1024;

// The use byte of a free frame.
pub const FREE: u8 = 0;

// The use byte of a copy.
pub const COPY: u8 = 1;

// The use byte of a stack frame, and the stack's code as a region.
pub const STACK: u8 = 2;

// The use byte of a heap frame, and the heap's code as a region.
pub const HEAP: u8 = 3;
