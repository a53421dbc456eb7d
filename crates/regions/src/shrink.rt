// Shrinking a region: its outermost pages are freed. One pass over the frame table lists their frames, and stops once it has them all.
ghost use Rattle.std.specs.Prelude.{◌≡◌, true, ℕ, ◌+◌, ◌-◌, ◌≤◌, ◌<◌, length, get_or, nat_eq, false, IfSome, IfNone};
ghost use Rattle.layout.specs.Page.{page_limit};
ghost use Rattle.control.specs.Control.{control_valid, frames, current, pages_of};
ghost use Rattle.frames.specs.Table.{entry_end, claims};
ghost use Rattle.frames.specs.declared.claim.Claim.TheVariants.{Anonymous};
ghost use Rattle.regions.specs.Resize.{FramesOf, page_at, all_held, all_leave, shrunk, shrink_check, shrink_control};

use control::header::{frame_count, invocation_count};
use control::shadow::{Region, set_pages};
use frames::claim::usage_of;
use frames::table::{entry_at, frame_entry, free_frame_entry, usage_at};
use layout::page::REGION;
use pages::{Frame, Page};
use refusal::Refusal;

// No frame has this number: it stands in a table for a page whose frame is not found yet. A table of Option<u16> took two to seven
// times as long: it is twice as large, and filled entry by entry.
const NONE: u16 = 65535;

// For up to so many pages a short table serves. A table is filled before it is used, and one of a whole region has 8 KiB.
const FEW: usize = 64;

// The place of a page in its region, the nearest first. A number that is no page's has a place behind the region: the stack's difference wraps.
fn place_of(r: Region, page: Page) -> usize
    ensures itself { result < page_limit → page ≡ page_at r result }
    ensures alone { (j : ℕ) → j < page_limit → page.0 ≡ (page_at r j).0 → result ≡ j }
{
    let number = usize::from(page.0);
    match r {
        Region::Stack => (REGION - 1).wrapping_sub(number),
        Region::Heap => number,
    }
}

// Which of the n pages from `pages` on entry i claims. The place of a page before them wraps, too, so one test tells.
fn claimed(c: &[u8], i: usize, r: Region, pages: usize, n: usize) -> Option<usize>
    requires { (entry_end i ≤ length c.now) × (pages + n ≤ page_limit) }
    ensures some { IfSome result (λ x. (x < n) × ((k : ℕ) → k < n → claims c.now (Anonymous r (page_at r (pages + k))) i ≡ nat_eq k x)) }
    ensures none { IfNone result ((k : ℕ) → k < n → claims c.now (Anonymous r (page_at r (pages + k))) i ≡ false) }
{
    if usage_at(c, i) != usage_of(r) {
        return None;
    }
    let k = place_of(r, entry_at(c, i).page).wrapping_sub(pages);
    (k < n).then_some(k)
}

// Lists the frames of the pages from `pages` on, as many as the table has room for, if each has one, and says whether it has. The
// first entry that claims a page is its frame.
#[tactic(auto, using(control::proofs::Facts::control_facts, crate::proofs::Listed::last_found))]
fn list_frames(c: &[u8], table: &mut [u16], r: Region, pages: usize) -> bool
    requires c_value { (control_valid c.now ≡ true) × (0 < length table.old) × (pages + length table.old ≤ page_limit) }
    requires by_index { (j : ℕ) → j < length table.old → frames c.now ≤ get_or table.old j 0 }
    ensures value { result ≡ all_held c.now r pages (length table.old) }
    ensures frames_of { result ≡ true → FramesOf c.now r pages (length table.old) table.new }
    ensures within { result ≡ true → (j : ℕ) → j < length table.new → get_or table.new j 0 < frames c.now }
{
    let frames = frame_count(c);
    let n = table.len();
    let mut left = n;
    for i in 0..frames {
        if let Some(j) = claimed(c, i, r, pages, n) {
            if frames <= table[j] as usize {
                table[j] = i as u16;
                left -= 1;
                if left == 0 {
                    return true;
                }
            }
        }
    }
    false
}

// Whether the frames listed all have a tag at or above the depth.
#[tactic(auto, using(control::proofs::Facts::control_facts))]
fn all_leave(c: &[u8], table: &[u16]) -> bool
    requires { (control_valid c.now ≡ true) × ((j : ℕ) → j < length table.now → get_or table.now j 0 < frames c.now) }
    ensures { (r : Region) (k : ℕ) → FramesOf c.now r k (length table.now) table.now → result ≡ all_leave c.now r k (length table.now) }
{
    let depth = invocation_count(c) - 1;
    for &frame in table {
        if usize::from(frame_entry(c, Frame(frame)).tag) < depth {
            return false;
        }
    }
    true
}

// Frees the frames listed.
#[tactic(auto, using(control::proofs::Facts::control_facts))]
fn free_frames(c: &mut [u8], table: &[u16])
    requires { (control_valid c.old ≡ true) × ((j : ℕ) → j < length table.now → get_or table.now j 0 < frames c.old) }
    ensures { (r : Region) (k : ℕ) → FramesOf c.old r k (length table.now) table.now → c.new ≡ shrunk c.old r k (length table.now) }
{
    for &frame in table {
        free_frame_entry(c, Frame(frame));
    }
}

// Shrinks the region by as many pages as the table has room for, with none of their frames in it yet.
#[tactic(auto, using(control::proofs::Facts::control_facts, crate::proofs::Accepted::shrink_steps))]
fn shrink_by(c: &mut [u8], table: &mut [u16], r: Region, pages: usize) -> Result<(), Refusal>
    requires c_value { (control_valid c.old ≡ true) × (0 < length table.old) × (pages_of (current c.old) r ≤ page_limit) }
    requires by_index { (j : ℕ) → j < length table.old → frames c.old ≤ get_or table.old j 0 }
    requires size_value { length table.old ≡ pages_of (current c.old) r - pages }
    ensures value { result ≡ shrink_check c.old r pages }
    ensures c_after { c.new ≡ shrink_control c.old r pages }
{
    if !list_frames(c, table, r, pages) {
        return Err(Refusal::Invalid);
    }
    if !all_leave(c, table) {
        return Err(Refusal::NotPermitted);
    }
    let live = invocation_count(c);
    free_frames(c, table);
    set_pages(c, live, r, pages as u16);
    Ok(())
}

// Shrinks the region with a table for at most N pages.
#[tactic(auto, using(control::proofs::Facts::control_facts))]
fn shrink_at_most<const N: usize>(
    c: &mut [u8],
    r: Region,
    pages: usize,
    size: usize,
) -> Result<(), Refusal>
    requires c_value { (control_valid c.old ≡ true) × (size - pages ≤ N) × (N ≤ page_limit) }
    requires size_value { (size ≡ pages_of (current c.old) r) × (pages < size) × (size ≤ page_limit) }
    ensures value { result ≡ shrink_check c.old r pages }
    ensures c_after { c.new ≡ shrink_control c.old r pages }
{
    let mut table = [NONE; N];
    shrink_by(c, &mut table[..size - pages], r, pages)
}

// Shrinks the current invocation's region from its size to fewer pages, if each page that goes has a frame and may be freed.
pub fn shrink_to(c: &mut [u8], r: Region, pages: usize, size: usize) -> Result<(), Refusal>
    requires c_value { control_valid c.old ≡ true }
    requires size_value { (size ≡ pages_of (current c.old) r) × (pages < size) × (size ≤ page_limit) }
    ensures value { result ≡ shrink_check c.old r pages }
    ensures c_after { c.new ≡ shrink_control c.old r pages }
{
    if size - pages <= FEW {
        shrink_at_most::<{ FEW }>(c, r, pages, size)
    } else {
        shrink_at_most::<{ REGION }>(c, r, pages, size)
    }
}
