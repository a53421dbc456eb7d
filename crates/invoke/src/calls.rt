// Call and return.
ghost use Rattle.std.specs.Prelude.{◌≡◌, true, List, ℕ, ◌≤◌, length};
ghost use Rattle.layout.specs.Control.{frame_limit};
ghost use Rattle.control.specs.Control.{control_valid, frames};
ghost use Rattle.frames.specs.Table.{frame_entry_at, frame_entry_of, entry_end};
ghost use Rattle.invoke.specs.Invoke.{call_check, call_control, return_check, return_control, return_out, leaves, freed_below};

use super::program::program_check;
use control::buffers::buffers_valid;
use control::header::{frame_count, invocation_count, set_invocations};
use control::shadow::{
    Invocation, Region, clear_invocation, invocation_at, put_invocation, read_registers, set_pages,
};
use frame_search::finding::group_may_hold_regions;
use frame_search::search::GROUP;
use frames::table::{entry_at, free_frame_entry, usage_at};
use layout::control::{INVOCATIONS, REGISTERS, STACK};
use pages::Frame;
use refusal::Refusal;
use snapshot::accounts::Account;

// The tests of a call, in order.
#[tactic(auto, using(crate::proofs::Decided::call_tests))]
fn call_check(s: &[u8], c: &[u8], pool: &[u8], program: Account, size: usize) -> Result<(), Refusal>
    ensures { result ≡ call_check s.now c.now pool.now program size }
{
    if !buffers_valid(s, c, pool) {
        return Err(Refusal::Invalid);
    }
    if size != REGISTERS {
        return Err(Refusal::BadRequest);
    }
    if invocation_count(c) < INVOCATIONS {
        return program_check(s, program);
    }
    Err(Refusal::DepthLimit)
}

// Calls a program: the new record holds it, the caller's two sizes and the registers.
#[tactic(auto, using(crate::proofs::Outcomes::call_steps))]
pub fn call(
    s: &[u8],
    c: &mut [u8],
    pool: &[u8],
    program: Account,
    registers: &[u8],
) -> Result<(), Refusal>
    ensures value { result ≡ call_check s.now c.old pool.now program (length registers.now) }
    ensures c_after { c.new ≡ call_control s.now c.old pool.now program registers.now }
{
    call_check(s, c, pool, program, registers.len())?;
    let live = invocation_count(c);
    let caller = invocation_at(c, live);
    put_invocation(
        c,
        live + 1,
        Invocation {
            program,
            stack: caller.stack,
            heap: caller.heap,
        },
        registers,
    );
    set_invocations(c, live + 1);
    Ok(())
}

// The tests of a return, in order.
#[tactic(auto, using(crate::proofs::Decided::return_tests))]
fn return_check(s: &[u8], c: &[u8], pool: &[u8], size: usize) -> Result<(), Refusal>
    ensures { result ≡ return_check s.now c.now pool.now size }
{
    if !buffers_valid(s, c, pool) {
        return Err(Refusal::Invalid);
    }
    if size != REGISTERS {
        return Err(Refusal::BadRequest);
    }
    if 1 < invocation_count(c) {
        return Ok(());
    }
    Err(Refusal::DepthLimit)
}

// Whether entry i is a stack frame's, with a tag at or above the depth.
#[tactic(auto, unfolding(crate::specs::Invoke::leaves))]
fn leaves_at(c: &[u8], i: usize, depth: usize) -> bool
    requires { entry_end i ≤ length c.now }
    ensures { result ≡ leaves depth (frame_entry_of c.now i) }
{
    usage_at(c, i) == STACK && depth <= usize::from(entry_at(c, i).tag)
}

// Frees those of the entries from `from` on and below `to` that leave, one by one. Where those below `from` are done, all below `to` are.
fn free_within(c: &mut [u8], from: usize, to: usize, depth: usize)
    requires { (from ≤ to) × (to ≤ frame_limit) × (frame_entry_at to ≤ length c.old) }
    ensures { (c₀ : List ℕ) → c.old ≡ freed_below depth c₀ from → c.new ≡ freed_below depth c₀ to }
{
    for i in from..to {
        if leaves_at(c, i, depth) {
            free_frame_entry(c, Frame(i as u16));
        }
    }
}

// Frees every stack frame whose tag is at or above the depth, in one pass. A group without a stack or heap frame is passed over.
#[tactic(auto, using(control::proofs::Facts::control_facts))]
fn free_leaving(c: &mut [u8], depth: usize)
    requires { control_valid c.old ≡ true }
    ensures { c.new ≡ freed_below depth c.old (frames c.old) }
{
    let frames = frame_count(c);
    for group in 0..frames / GROUP {
        let i = GROUP * group;
        if group_may_hold_regions(c, i) {
            free_within(c, i, i + GROUP, depth);
        }
    }
    free_within(c, frames - frames % GROUP, frames, depth);
}

// Returns from the current invocation, handing its registers back, and its heap over to its caller.
#[tactic(auto, using(crate::proofs::Outcomes::return_steps))]
pub fn return_from(s: &[u8], c: &mut [u8], pool: &[u8], registers: &mut [u8]) -> Result<(), Refusal>
    ensures value { result ≡ return_check s.now c.old pool.now (length registers.old) }
    ensures c_after { c.new ≡ return_control s.now c.old pool.now registers.old }
    ensures registers_after { registers.new ≡ return_out s.now c.old pool.now registers.old }
{
    return_check(s, c, pool, registers.len())?;
    let live = invocation_count(c);
    let heap = invocation_at(c, live).heap;
    read_registers(c, live, registers);
    free_leaving(c, live - 1);
    set_pages(c, live - 1, Region::Heap, heap);
    clear_invocation(c, live);
    set_invocations(c, live - 1);
    Ok(())
}
