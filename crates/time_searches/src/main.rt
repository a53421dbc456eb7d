// In 1,024 entries, ten thousand searches that end at entry 0 against as many that end at the last. What was measured goes to standard error;
// whether it is at most a tenth, to standard output.
#![tactic(auto)]

mod rounds;
mod searches;
mod table;

use layout::control::{COPY, STACK};
use rounds::compare;
use searches::Kind;
use std::io;
use table::{CONTROL, write_table};

// The search for a page of an account, and that for a page of a region, each over a table in which entry i holds page i.
fn main(rt: HostRuntime) -> io::Result<()> {
    let mut control = [0u8; CONTROL];
    write_table(&mut control, COPY);
    compare(&rt, &control, Kind::AccountPages, "an account's page")?;
    write_table(&mut control, STACK);
    compare(&rt, &control, Kind::StackPages, "a stack page")
}
