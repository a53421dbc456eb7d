// Runs the trials of docs/RULES.md, "Trials at the edges", that are not marked P, and prints what was asked and what was answered: the end of an
// account's data, the last block context, one stack page, one heap page, and two byte stores in account 5 with the change list that
// they give, byte by byte.
#![tactic(auto)]

mod dump;
mod edges;
mod fixture;
mod machine;
mod slots;
mod two_stores;

use fixture::{MOST_CONTEXTS, ONE_CONTEXT, write_snapshot};
use layout::control::{FRAME_ENTRY, TABLE_AT};
use layout::page::PAGE;
use layout::snapshot::CONTEXTS;
use machine::Machine;
use std::io;

// Lends every trial a control block and a pool of two frames, which hold other bytes than those that begin and resize write.
fn main(rt: HostRuntime) -> io::Result<()> {
    let mut one_context = [0u8; ONE_CONTEXT];
    write_snapshot(&mut one_context, 1);
    let mut most_contexts = [0u8; MOST_CONTEXTS];
    write_snapshot(&mut most_contexts, CONTEXTS as u16);
    let mut control = [7u8; TABLE_AT + 2 * FRAME_ENTRY];
    let mut pool = [9u8; 2 * PAGE];
    let mut machine = Machine {
        snapshot: &one_context,
        control: &mut control,
        pool: &mut pool,
    };
    edges::account_data(&rt, &mut machine)?;
    machine.snapshot = &most_contexts;
    edges::block_contexts(&rt, &mut machine)?;
    machine.snapshot = &one_context;
    edges::stack_page(&rt, &mut machine)?;
    edges::heap_page(&rt, &mut machine)?;
    two_stores::run(&rt, &mut machine)
}
