// Begin, call, return and resize.
#![tactic(auto, unfolding(crate::specs::Steps::step_of, invoke::specs::Invoke::begin_number, invoke::specs::Invoke::call_number, invoke::specs::Invoke::return_number))]

ghost use Rattle.std.specs.Prelude.{◌≡◌};
ghost use Rattle.hekthumar.specs.Steps.{begin_with, call, return, resize, lent};

use invoke::begin::{Start, begin};
use invoke::calls::{call, return_from};
use refusal::number;
use regions::resize::resize;
use snapshot::accounts::Account;

// Begins a program of an edition, 1 or 2, with one stack page: the whole control block is written, and frame 0 of the pool.
pub fn hekthumar_begin(
    snapshot: &[u8],
    control: &mut [u8],
    pool: &mut [u8],
    program: u16,
    edition: u32,
) -> u8
    ensures value { result ≡ (lent snapshot.now control.old pool.old (begin_with program edition 1)).answer.number }
    ensures control_after { control.new ≡ (lent snapshot.now control.old pool.old (begin_with program edition 1)).after.control }
    ensures pool_after { pool.new ≡ (lent snapshot.now control.old pool.old (begin_with program edition 1)).after.pool }
{
    let start = Start {
        program: Account(program),
        edition,
        pages: 1,
    };
    number(begin(snapshot, control, pool, start))
}

// Begins a program of an edition, 1 or 2, with so many stack pages, 0 or 1.
pub fn hekthumar_begin_pages(
    snapshot: &[u8],
    control: &mut [u8],
    pool: &mut [u8],
    program: u16,
    edition: u32,
    pages: usize,
) -> u8
    ensures value { result ≡ (lent snapshot.now control.old pool.old (begin_with program edition pages)).answer.number }
    ensures control_after { control.new ≡ (lent snapshot.now control.old pool.old (begin_with program edition pages)).after.control }
    ensures pool_after { pool.new ≡ (lent snapshot.now control.old pool.old (begin_with program edition pages)).after.pool }
{
    let start = Start {
        program: Account(program),
        edition,
        pages,
    };
    number(begin(snapshot, control, pool, start))
}

// Calls a program with 256 bytes of registers.
pub fn hekthumar_call(
    snapshot: &[u8],
    control: &mut [u8],
    pool: &[u8],
    program: u16,
    registers: &[u8],
) -> u8
    ensures value { result ≡ (lent snapshot.now control.old pool.now (call (record { 0 = program }) registers.now)).answer.number }
    ensures control_after { control.new ≡ (lent snapshot.now control.old pool.now (call (record { 0 = program }) registers.now)).after.control }
    ensures pool_value { pool.now ≡ (lent snapshot.now control.old pool.now (call (record { 0 = program }) registers.now)).after.pool }
{
    number(call(snapshot, control, pool, Account(program), registers))
}

// Returns from the current invocation, handing its registers back.
pub fn hekthumar_return(
    snapshot: &[u8],
    control: &mut [u8],
    pool: &[u8],
    registers: &mut [u8],
) -> u8
    ensures value { result ≡ (lent snapshot.now control.old pool.now (return registers.old)).answer.number }
    ensures registers_after { registers.new ≡ (lent snapshot.now control.old pool.now (return registers.old)).answer.bytes }
    ensures control_after { control.new ≡ (lent snapshot.now control.old pool.now (return registers.old)).after.control }
    ensures pool_value { pool.now ≡ (lent snapshot.now control.old pool.now (return registers.old)).after.pool }
{
    number(return_from(snapshot, control, pool, registers))
}

// Resizes a region of the current invocation: 2 is the stack, 3 the heap.
pub fn hekthumar_resize(
    snapshot: &[u8],
    control: &mut [u8],
    pool: &mut [u8],
    region: u8,
    pages: usize,
) -> u8
    ensures value { result ≡ (lent snapshot.now control.old pool.old (resize region pages)).answer.number }
    ensures control_after { control.new ≡ (lent snapshot.now control.old pool.old (resize region pages)).after.control }
    ensures pool_after { pool.new ≡ (lent snapshot.now control.old pool.old (resize region pages)).after.pool }
{
    number(resize(snapshot, control, pool, region, pages))
}
