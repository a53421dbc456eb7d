// Begin: a control block for a program, written whole, and its stack.
ghost use Rattle.std.specs.Prelude.{◌≡◌, true, ◌≤◌, length};
ghost use Rattle.layout.specs.Control.{table_at, frame_limit};
ghost use Rattle.snapshot.specs.Header.{snapshot_valid};
ghost use Rattle.invoke.specs.Invoke.{frames_in, room_valid, start_check, begin_check, fresh, begin_control, begin_pool};

use super::program::program_check;
use control::header::is_edition;
use control::shadow::Region;
use layout::control::{EDITION_AT, FIRST_RECORD, FRAME_ENTRY, FRAMES, SHADOW_AT, TABLE_AT};
use layout::page::PAGE;
use refusal::Refusal;
use regions::resize::resize_to;
use snapshot::accounts::Account;
use snapshot::header::valid;
use words::numbers::write;
use words::runs::clear;

// What a begin is given: the account to run, the edition that it was built for, and how many pages its stack has.
#[derive(Clone, Copy)]
pub struct Start {
    pub program: Account,
    pub edition: u32,
    pub pages: usize,
}

// How many frames a control block of this length has room for.
fn frames_in(control: usize) -> usize
    ensures { result ≡ frames_in control }
{
    control.saturating_sub(TABLE_AT) / FRAME_ENTRY
}

// Whether the lengths of control block and pool are those of one frame count in range.
#[tactic(auto, unfolding(crate::specs::Invoke::room_valid))]
fn room_valid(control: usize, pool: usize) -> bool
    ensures { result ≡ room_valid control pool }
{
    let frames = frames_in(control);
    TABLE_AT <= control
        && frames <= FRAMES
        && control == TABLE_AT + FRAME_ENTRY * frames
        && pool == PAGE * frames
}

// The tests of what is asked, in order: the number of pages and the edition, the program, a frame for each page.
#[tactic(auto, using(crate::proofs::Decided::start_tests))]
fn start_check(s: &[u8], frames: usize, start: Start) -> Result<(), Refusal>
    requires { snapshot_valid s.now ≡ true }
    ensures { result ≡ start_check s.now frames start }
{
    if 1 < start.pages || !is_edition(start.edition as usize) {
        return Err(Refusal::BadRequest);
    }
    program_check(s, start.program)?;
    if frames < start.pages {
        return Err(Refusal::NoFrame);
    }
    Ok(())
}

// The tests of begin, in order.
#[tactic(auto, using(crate::proofs::Decided::begin_tests))]
fn begin_check(s: &[u8], control: usize, pool: usize, start: Start) -> Result<(), Refusal>
    ensures { result ≡ begin_check s.now control pool start }
{
    if !valid(s) || !room_valid(control, pool) {
        return Err(Refusal::Invalid);
    }
    start_check(s, frames_in(control), start)
}

// Writes the whole control block: header with one invocation and the edition, its record with the program and no pages, zeros elsewhere.
// A line for each field shows its offset, as a loop over an array of words would not.
fn write_fresh(c: &mut [u8], start: Start)
    requires { (table_at ≤ length c.old) × (frames_in (length c.old) ≤ frame_limit) }
    ensures { c.new ≡ fresh (length c.old) start }
{
    let frames = frames_in(c.len());
    clear(c, 0, c.len());
    write(c, 0, 4, frames as u64);
    write(c, 4, 4, 1);
    write(c, 8, 4, SHADOW_AT as u64);
    write(c, 12, 4, TABLE_AT as u64);
    write(c, EDITION_AT, 4, u64::from(start.edition));
    write(c, FIRST_RECORD, 2, u64::from(start.program.0));
}

// Begins a program: every byte of the control block is written, then its stack is resized, which takes frame 0 for one page. It is compiled
// into both begins of the interface: called, its answer would go through memory.
#[inline(always)]
#[tactic(auto, using(crate::proofs::Decided::control_bare, crate::proofs::Decided::pool_kept))]
pub fn begin(s: &[u8], c: &mut [u8], pool: &mut [u8], start: Start) -> Result<(), Refusal>
    ensures value { result ≡ begin_check s.now (length c.old) (length pool.old) start }
    ensures c_after { c.new ≡ begin_control s.now c.old pool.old start }
    ensures pool_after { pool.new ≡ begin_pool s.now c.old pool.old start }
{
    begin_check(s, c.len(), pool.len(), start)?;
    write_fresh(c, start);
    if start.pages == 0 {
        return Ok(());
    }
    resize_to(c, pool, Region::Stack, start.pages)
}
