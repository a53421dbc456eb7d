// The trials on the last byte of a segment and the first one past it. A byte past the end is absent: 13.
use super::machine::Machine;
use layout::control::HEAP;
use std::io;

// Account data of 6,000 bytes: 8 at 5992 done; 8 at 6000 absent.
pub fn account_data(rt: &impl Print, machine: &mut Machine) -> io::Result<()> {
    println!(rt; "account 5, 6,000 bytes")?;
    machine.begin(rt)?;
    machine.load(rt, 0x0300_0500_1768, 8)?;
    machine.load(rt, 0x0300_0500_1770, 8)
}

// Block contexts, B=512: 0x1FF000 done; 0x200000 absent.
pub fn block_contexts(rt: &impl Print, machine: &mut Machine) -> io::Result<()> {
    println!(rt; "512 block contexts")?;
    machine.begin(rt)?;
    machine.load(rt, 0x0000_041f_f000, 8)?;
    machine.load(rt, 0x0000_0420_0000, 8)
}

// One stack page: 0xFFF000 done; 0xFFEFFF absent. Begin gives the page.
pub fn stack_page(rt: &impl Print, machine: &mut Machine) -> io::Result<()> {
    println!(rt; "one stack page")?;
    machine.begin(rt)?;
    machine.load(rt, 0x0500_00ff_f000, 8)?;
    machine.load(rt, 0x0500_00ff_efff, 1)
}

// One heap page: 0xFFF done; 0x1000 absent.
pub fn heap_page(rt: &impl Print, machine: &mut Machine) -> io::Result<()> {
    println!(rt; "one heap page")?;
    machine.begin(rt)?;
    machine.resize(rt, HEAP, 1)?;
    machine.load(rt, 0x0700_0000_0fff, 1)?;
    machine.load(rt, 0x0700_0000_1000, 1)
}
