// Shadow records of 264 bytes, one for each invocation: its program, the sizes of its two regions and its 32 registers. Record 0
// is not an invocation's.
ghost use Rattle.std.specs.Prelude.{◌≡◌, ◌≤◌, length};
ghost use Rattle.layout.specs.Control.{table_at, live_limit, registers_size, heap_at};
ghost use Rattle.control.specs.Control.{record_at, invocation_of, put_invocation, clear_invocation, registers_of, set_pages, region_at, pages_of};

use layout::control::{HEAP_AT, REGISTERS, REGISTERS_AT, SHADOW, SHADOW_AT, STACK_AT};
use snapshot::accounts::Account;
use words::numbers::{u16_at, write};
use words::runs::{clear, copy};

// One of the two regions of anonymous pages.
#[derive(Clone, Copy, PartialEq, Eq, Debug)]
pub enum Region {
    Stack,
    Heap,
}

impl Region {
    // Where its size stands in a record.
    fn size_at(self) -> usize
        ensures { (result ≡ region_at self) × (result ≤ heap_at) }
    {
        match self {
            Region::Stack => STACK_AT,
            Region::Heap => HEAP_AT,
        }
    }
}

// What a shadow record says of its invocation, but for the registers.
#[derive(Clone, Copy, PartialEq, Eq, Debug)]
pub struct Invocation {
    pub program: Account,
    pub stack: u16,
    pub heap: u16,
}

impl Invocation {
    // The size of a region.
    pub fn pages(self, r: Region) -> u16
        ensures { result ≡ pages_of self r }
    {
        match r {
            Region::Stack => self.stack,
            Region::Heap => self.heap,
        }
    }
}

// Where record k starts.
fn record_at(k: usize) -> usize
    requires { k ≤ live_limit }
    ensures { result ≡ record_at k }
{
    SHADOW_AT + SHADOW * k
}

// Record k's program and sizes.
#[tactic(auto, unfolding(crate::specs::Control::invocation_of))]
pub fn invocation_at(c: &[u8], k: usize) -> Invocation
    requires { (k ≤ live_limit) × (table_at ≤ length c.now) }
    ensures { result ≡ invocation_of c.now k }
{
    let at = record_at(k);
    Invocation {
        program: Account(u16_at(c, at)),
        stack: u16_at(c, at + STACK_AT),
        heap: u16_at(c, at + HEAP_AT),
    }
}

// Copies record k's registers out.
pub fn read_registers(c: &[u8], k: usize, out: &mut [u8])
    requires { (k ≤ live_limit) × (table_at ≤ length c.now) × (length out.old ≡ registers_size) }
    ensures { out.new ≡ registers_of c.now k }
{
    copy(out, 0, c, record_at(k) + REGISTERS_AT, REGISTERS);
}

// Writes record k whole: the program, the sizes, two zero bytes, the registers. What stands before the registers goes as one number, which is one
// store.
pub fn put_invocation(c: &mut [u8], k: usize, i: Invocation, registers: &[u8])
    requires { (k ≤ live_limit) × (table_at ≤ length c.old) × (length registers.now ≡ registers_size) }
    ensures { c.new ≡ put_invocation c.old k i registers.now }
{
    let at = record_at(k);
    let fields = u64::from(i.program.0)
        + 65536 * u64::from(i.stack)
        + 4294967296 * u64::from(i.heap);
    write(c, at, 8, fields);
    copy(c, at + REGISTERS_AT, registers, 0, REGISTERS);
}

// Writes zeros over record k.
#[tactic(auto, unfolding(crate::specs::Control::clear_invocation))]
pub fn clear_invocation(c: &mut [u8], k: usize)
    requires { (k ≤ live_limit) × (table_at ≤ length c.old) }
    ensures { c.new ≡ clear_invocation c.old k }
{
    clear(c, record_at(k), SHADOW);
}

// Writes the size of a region in record k.
#[tactic(auto, unfolding(crate::specs::Control::set_pages))]
pub fn set_pages(c: &mut [u8], k: usize, r: Region, pages: u16)
    requires { (k ≤ live_limit) × (table_at ≤ length c.old) }
    ensures { c.new ≡ set_pages c.old k r pages }
{
    write(c, record_at(k) + r.size_at(), 2, u64::from(pages));
}
