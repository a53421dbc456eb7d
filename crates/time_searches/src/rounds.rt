// Rounds of both searches in turns, and what is said of their medians.
ghost use Rattle.std.specs.Prelude.{◌≡◌, true};
ghost use Rattle.control.specs.Control.{control_valid};

use super::searches::{Kind, search};
use control::header::valid;
use layout::control::FRAMES;
use std::io;
use std::time::CpuClock;

// How many rounds are made.
const ROUNDS: usize = 41;

// The last entry.
const LAST: u16 = FRAMES as u16 - 1;

// A reading of the clock, microseconds of processor time; 0 where it could not be read.
fn reading(rt: &impl CpuClock) -> u64 {
    match rt.process_cpu_time() {
        Ok(t) => t
            .as_secs()
            .wrapping_mul(1000000)
            .wrapping_add(u64::from(t.subsec_micros())),
        Err(_) => 0,
    }
}

// How long the searches take that end at an entry.
fn time(rt: &impl CpuClock, c: &[u8], kind: Kind, entry: u16) -> u64
    requires { control_valid c.now ≡ true }
{
    let before = reading(rt);
    search(c, kind, entry);
    reading(rt).wrapping_sub(before)
}

// Says both medians, and whether the first is at most a tenth of the other. Nothing was timed where the other is 0.
fn report(rt: &(impl Print + Eprint), page: &str, first: u64, last: u64) -> io::Result<()> {
    eprintln!(rt;
        "10,000 searches for {page} in 1,024 entries: {first} us where they end at entry 0, {last} us where they end at the last"
    )?;
    if last == 0 {
        println!(rt; "{page}: not timed")
    } else if last / 10 < first {
        println!(rt; "{page}: more than a tenth")
    } else {
        println!(rt; "{page}: at most a tenth")
    }
}

// Makes the rounds.
fn rounds(rt: &(impl Print + Eprint + CpuClock), c: &[u8], kind: Kind, page: &str) -> io::Result<()>
    requires { control_valid c.now ≡ true }
{
    let mut first = [0u64; ROUNDS];
    let mut last = [0u64; ROUNDS];
    for (of_first, of_last) in first.iter_mut().zip(last.iter_mut()) {
        *of_first = time(rt, c, kind, 0);
        *of_last = time(rt, c, kind, LAST);
    }
    first.sort_unstable();
    last.sort_unstable();
    report(rt, page, first[ROUNDS / 2], last[ROUNDS / 2])
}

// Times the searches for such pages, once those for the first and the last have ended at the entries that hold them.
pub fn compare(
    rt: &(impl Print + Eprint + CpuClock),
    c: &[u8],
    kind: Kind,
    page: &str,
) -> io::Result<()> {
    if valid(c) && search(c, kind, 0) == Some(0) && search(c, kind, LAST) == Some(LAST) {
        return rounds(rt, c, kind, page);
    }
    println!(rt; "{page}: not found where it is")
}
