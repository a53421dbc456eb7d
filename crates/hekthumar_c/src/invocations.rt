// Begin, call, return and resize.
ghost use Rattle.std.specs.Prelude.{◌≡◌};
ghost use Rattle.hekthumar.specs.Steps.{begin_with, call, return, resize, lent};

use hekthumar::invocations;

// Begins a program of an edition, 1 or 2, with one stack page: the whole control block is written, and frame 0 of the pool.
#[unsafe(no_mangle)]
pub extern "C" fn hekthumar_begin(
    snapshot: &[u8],
    control: &mut [u8],
    pool: &mut [u8],
    program: u16,
    edition: u32,
) -> u8
    ensures value { result ≡ (lent snapshot.now control.old pool.old (begin_with program edition 1)).answer.number }
    ensures control_after { control.new ≡ (lent snapshot.now control.old pool.old (begin_with program edition 1)).after.control }
    ensures pool_after { pool.new ≡ (lent snapshot.now control.old pool.old (begin_with program edition 1)).after.pool }
{
    invocations::hekthumar_begin(snapshot, control, pool, program, edition)
}

// Begins a program of an edition, 1 or 2, with so many stack pages, 0 or 1.
#[unsafe(no_mangle)]
pub extern "C" fn hekthumar_begin_pages(
    snapshot: &[u8],
    control: &mut [u8],
    pool: &mut [u8],
    program: u16,
    edition: u32,
    pages: usize,
) -> u8
    ensures value { result ≡ (lent snapshot.now control.old pool.old (begin_with program edition pages)).answer.number }
    ensures control_after { control.new ≡ (lent snapshot.now control.old pool.old (begin_with program edition pages)).after.control }
    ensures pool_after { pool.new ≡ (lent snapshot.now control.old pool.old (begin_with program edition pages)).after.pool }
{
    invocations::hekthumar_begin_pages(snapshot, control, pool, program, edition, pages)
}

// Calls a program with 256 bytes of registers.
#[unsafe(no_mangle)]
pub extern "C" fn hekthumar_call(
    snapshot: &[u8],
    control: &mut [u8],
    pool: &[u8],
    program: u16,
    registers: &[u8],
) -> u8
    ensures value { result ≡ (lent snapshot.now control.old pool.now (call (record { 0 = program }) registers.now)).answer.number }
    ensures control_after { control.new ≡ (lent snapshot.now control.old pool.now (call (record { 0 = program }) registers.now)).after.control }
    ensures pool_value { pool.now ≡ (lent snapshot.now control.old pool.now (call (record { 0 = program }) registers.now)).after.pool }
{
    invocations::hekthumar_call(snapshot, control, pool, program, registers)
}

// Returns from the current invocation, handing its registers back.
#[unsafe(no_mangle)]
pub extern "C" fn hekthumar_return(
    snapshot: &[u8],
    control: &mut [u8],
    pool: &[u8],
    registers: &mut [u8],
) -> u8
    ensures value { result ≡ (lent snapshot.now control.old pool.now (return registers.old)).answer.number }
    ensures registers_after { registers.new ≡ (lent snapshot.now control.old pool.now (return registers.old)).answer.bytes }
    ensures control_after { control.new ≡ (lent snapshot.now control.old pool.now (return registers.old)).after.control }
    ensures pool_value { pool.now ≡ (lent snapshot.now control.old pool.now (return registers.old)).after.pool }
{
    invocations::hekthumar_return(snapshot, control, pool, registers)
}

// Resizes a region of the current invocation: 2 is the stack, 3 the heap.
#[unsafe(no_mangle)]
pub extern "C" fn hekthumar_resize(
    snapshot: &[u8],
    control: &mut [u8],
    pool: &mut [u8],
    region: u8,
    pages: usize,
) -> u8
    ensures value { result ≡ (lent snapshot.now control.old pool.old (resize region pages)).answer.number }
    ensures control_after { control.new ≡ (lent snapshot.now control.old pool.old (resize region pages)).after.control }
    ensures pool_after { pool.new ≡ (lent snapshot.now control.old pool.old (resize region pages)).after.pool }
{
    invocations::hekthumar_resize(snapshot, control, pool, region, pages)
}
