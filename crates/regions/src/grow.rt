// Growing a region: the lowest free frames, the nearest page first, in one pass over the frame table.
ghost use Rattle.std.specs.Prelude.{◌≡◌, true, ◌+◌, ◌-◌, ◌≤◌, ◌<◌, length};
ghost use Rattle.layout.specs.Page.{pool_length, page_size, page_limit};
ghost use Rattle.words.specs.Words.{splice, zeros};
ghost use Rattle.control.specs.Control.{control_valid, frames, current, pages_of};
ghost use Rattle.pages.specs.Pages.{frame_start};
ghost use Rattle.frames.specs.Table.{free_count, put_frame_entry, entry_end};
ghost use Rattle.regions.specs.Resize.{page_at, region_entry, grown, grow_to};

use control::header::{frame_count, invocation_count};
use control::shadow::{Region, set_pages};
use frame_search::finding::{has_free, next_free};
use frames::claim::{End, usage_of};
use frames::table::{FrameEntry, put_frame_entry};
use layout::page::{PAGE, REGION};
use pages::{Frame, Page, frame_start};
use refusal::Refusal;
use snapshot::accounts::Account;
use words::runs::clear;

// The k-th page of a region, the nearest first: the heap grows up from page 0, the stack down from page 4,095.
pub fn page_at(r: Region, k: usize) -> Page
    requires { k < page_limit }
    ensures { result ≡ page_at r k }
{
    match r {
        Region::Stack => Page((REGION - 1 - k) as u16),
        Region::Heap => Page(k as u16),
    }
}

// Takes a frame for a region's page: its entry, and zeros for its bytes.
fn take_page(c: &mut [u8], pool: &mut [u8], f: Frame, r: Region, page: Page, depth: u8)
    requires { (entry_end f.0 ≤ length c.old) × (frame_start f + page_size ≤ length pool.old) }
    ensures c_after { c.new ≡ put_frame_entry c.old f.0 (region_entry depth r page) }
    ensures pool_after { pool.new ≡ splice pool.old (frame_start f) (zeros page_size) }
{
    put_frame_entry(
        c,
        f,
        FrameEntry {
            usage: usage_of(r),
            tag: depth,
            account: Account(0),
            page,
            depth: 0,
        },
    );
    clear(pool, frame_start(f), PAGE);
}

// Takes frames for the pages from the size on, up to `pages`.
#[tactic(auto, using(control::proofs::Facts::control_facts))]
fn take_pages(c: &mut [u8], pool: &mut [u8], r: Region, size: usize, pages: usize)
    requires c_value { (control_valid c.old ≡ true) × (length pool.old ≡ pool_length (frames c.old)) }
    requires size_le_pages { (size ≤ pages) × (pages ≤ page_limit) × (pages - size ≤ free_count c.old) }
    ensures c_after { c.new ≡ (grown r size c.old pool.old (pages - size)).control }
    ensures pool_after { pool.new ≡ (grown r size c.old pool.old (pages - size)).pool }
{
    let frames = frame_count(c);
    let depth = (invocation_count(c) - 1) as u8;
    let mut at = 0;
    for k in size..pages {
        at = next_free(c, End::Lowest, at, frames);
        take_page(c, pool, Frame(at as u16), r, page_at(r, k), depth);
    }
}

// Grows the current invocation's region from its size to more pages, if that many frames are free.
#[tactic(auto, using(control::proofs::Facts::control_facts, crate::proofs::Accepted::grow_steps))]
pub fn grow_to(
    c: &mut [u8],
    pool: &mut [u8],
    r: Region,
    size: usize,
    pages: usize,
) -> Result<(), Refusal>
    requires c_value { (control_valid c.old ≡ true) × (length pool.old ≡ pool_length (frames c.old)) }
    requires size_value { (size ≡ pages_of (current c.old) r) × (size < pages) × (pages ≤ page_limit) }
    ensures value { result ≡ (grow_to c.old pool.old r pages).answer }
    ensures c_after { c.new ≡ (grow_to c.old pool.old r pages).after.control }
    ensures pool_after { pool.new ≡ (grow_to c.old pool.old r pages).after.pool }
{
    if !has_free(c, pages - size) {
        return Err(Refusal::NoFrame);
    }
    let live = invocation_count(c);
    take_pages(c, pool, r, size, pages);
    set_pages(c, live, r, pages as u16);
    Ok(())
}
