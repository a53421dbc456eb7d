// The buffers that a trial lends, and one call on them, asked and answered in a line.
use access::loads::load;
use access::stores::store;
use address::Address;
use changes::list::change_list;
use invoke::begin::{Start, begin};
use layout::control::NEWER;
use layout::list::LIST_HEADER;
use refusal::{DONE, number};
use regions::resize::resize;
use snapshot::accounts::Account;
use std::io;
use words::numbers::u32_at;

// The three buffers.
#[derive(Drop)]
pub struct Machine<'a> {
    pub snapshot: &'a [u8],
    pub control: &'a mut [u8],
    pub pool: &'a mut [u8],
}

impl Machine<'_> {
    // Begins the program, account 0, in the newer edition, with one stack page.
    pub fn begin(&mut self, rt: &impl Print) -> io::Result<()> {
        let start = Start {
            program: Account(0),
            edition: NEWER as u32,
            pages: 1,
        };
        let n = number(begin(self.snapshot, self.control, self.pool, start));
        println!(rt; "  begin 0: {n}")
    }

    // Resizes a region: 2 is the stack, 3 the heap.
    pub fn resize(&mut self, rt: &impl Print, region: u8, pages: usize) -> io::Result<()> {
        let n = number(resize(self.snapshot, self.control, self.pool, region, pages));
        println!(rt; "  resize region {region} to {pages}: {n}")
    }

    // Loads 1, 2, 4 or 8 bytes.
    pub fn load(&self, rt: &impl Print, address: u64, size: usize) -> io::Result<()> {
        let answer = load(
            self.snapshot,
            self.control,
            self.pool,
            Address(address),
            size,
        );
        let (n, distance, value) = match answer {
            Ok(value) => (DONE, 0, value),
            Err(refusal) => (refusal.number(), refusal.distance(), 0),
        };
        println!(rt;
            "  load {size} at {address:#014x}: {n}, distance {distance}, value {value:#04x}"
        )
    }

    // Stores one byte.
    pub fn store_byte(&mut self, rt: &impl Print, address: u64, byte: u64) -> io::Result<()> {
        let n = number(store(
            self.snapshot,
            self.control,
            self.pool,
            Address(address),
            1,
            byte,
        ));
        println!(rt; "  store {byte:#04x} at {address:#014x}: {n}")
    }

    // Writes the change list, and prints the four words of its header where there is room for them.
    pub fn list_changes(&self, rt: &impl Print, list: &mut [u8]) -> io::Result<()> {
        let n = number(change_list(self.snapshot, self.control, self.pool, list));
        println!(rt; "  change list: {n}")?;
        print!(rt; "  words")?;
        if LIST_HEADER <= list.len() {
            for at in [0, 4, 8, 12] {
                print!(rt; " {}", u32_at(list, at))?;
            }
        }
        println!(rt)
    }
}
