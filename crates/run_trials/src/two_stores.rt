// Two byte stores on one page of account 5: the change list without and with them, and the slots with the list applied.
use super::dump::Dump;
use super::fixture::SLOTS;
use super::machine::Machine;
use super::slots::{changed, fill};
use apply::apply;
use layout::list::{CHANGE, LIST_HEADER};
use layout::page::PAGE;
use refusal::number;
use snapshot::accounts::Account;
use std::io;

// The list with no store, then both stores, then the list that holds them. The second store goes to the copy that the first one made.
fn store_twice(rt: &impl Print, machine: &mut Machine, list: &mut [u8]) -> io::Result<()> {
    machine.begin(rt)?;
    machine.list_changes(rt, list)?;
    machine.store_byte(rt, 0x0300_0500_1004, 0x11)?;
    machine.store_byte(rt, 0x0300_0500_1008, 0x22)?;
    machine.list_changes(rt, list)
}

// Applies the list to the original slots, and prints what came of them.
fn apply_to_slots(rt: &impl Print, list: &[u8]) -> io::Result<()> {
    let mut bytes = [0u8; SLOTS];
    fill(&mut bytes);
    let n = number(apply(list, Account(5), &mut bytes));
    println!(rt; "  apply to account 5: {n}")?;
    println!(rt; "  the slots from 4096 on{}", Dump(&bytes[PAGE..PAGE + 16]))?;
    println!(rt;
        "  bytes that differ from the original: {}",
        changed(&bytes)
    )
}

// Account 5 as above, with no store: the list is the words 0, 16, 16, 16. With byte stores 0x11 at 0x1004 and 0x22 at 0x1008 it has their page.
// The list is lent eight bytes more than its total, which stay as they were.
pub fn run(rt: &impl Print, machine: &mut Machine) -> io::Result<()> {
    println!(rt; "account 5, two byte stores")?;
    let mut list = [238u8; LIST_HEADER + CHANGE + PAGE + 8];
    store_twice(rt, machine, &mut list)?;
    println!(rt; "  the change list, and eight bytes past it{}", Dump(&list))?;
    apply_to_slots(rt, &list)
}
