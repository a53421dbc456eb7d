// Resizing a region.
ghost use Rattle.std.specs.Prelude.{◌≡◌, true, ◌≤◌, length};
ghost use Rattle.layout.specs.Page.{pool_length, page_limit};
ghost use Rattle.control.specs.Control.{control_valid, frames, current, pages_of};
ghost use Rattle.regions.specs.Resize.{resize_to, resize_of};

use super::grow::grow_to;
use super::shrink::shrink_to;
use control::buffers::buffers_valid;
use control::header::invocation_count;
use control::shadow::{Region, invocation_at};
use layout::page::REGION;
use refusal::Refusal;

// Grows or shrinks the region of the current invocation; the same size changes nothing.
#[tactic(auto, using(control::proofs::Facts::control_facts, crate::proofs::Accepted::resize_steps))]
pub fn resize_to(c: &mut [u8], pool: &mut [u8], r: Region, pages: usize) -> Result<(), Refusal>
    requires c_value { (control_valid c.old ≡ true) × (length pool.old ≡ pool_length (frames c.old)) }
    requires r_bound { (pages_of (current c.old) r ≤ page_limit) × (pages ≤ page_limit) }
    ensures value { result ≡ (resize_to c.old pool.old r pages).answer }
    ensures c_after { c.new ≡ (resize_to c.old pool.old r pages).after.control }
    ensures pool_after { pool.new ≡ (resize_to c.old pool.old r pages).after.pool }
{
    let i = invocation_at(c, invocation_count(c));
    let size = usize::from(i.pages(r));
    if size < pages {
        return grow_to(c, pool, r, size, pages);
    }
    if pages < size {
        return shrink_to(c, r, pages, size);
    }
    Ok(())
}

// Resizes the stack or the heap of the current invocation to so many pages. The tests are in the order of "Rules: Begin, call, return, resize".
#[tactic(auto, using(crate::proofs::Accepted::resize_outcomes))]
pub fn resize(
    s: &[u8],
    c: &mut [u8],
    pool: &mut [u8],
    region: u8,
    pages: usize,
) -> Result<(), Refusal>
    ensures value { result ≡ (resize_of s.now c.old pool.old region pages).answer }
    ensures c_after { c.new ≡ (resize_of s.now c.old pool.old region pages).after.control }
    ensures pool_after { pool.new ≡ (resize_of s.now c.old pool.old region pages).after.pool }
{
    if !buffers_valid(s, c, pool) {
        return Err(Refusal::Invalid);
    }
    let region = Region::try_from(region)?;
    if REGION < pages {
        return Err(Refusal::TooManyPages);
    }
    resize_to(c, pool, region, pages)
}
