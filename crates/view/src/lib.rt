// The view of an account's page: the part of the snapshot or of the pool that holds its live bytes now.

#![tactic(auto)]

ghost use Rattle.std.specs.Prelude.{◌≡◌, true, ◌<◌};
ghost use Rattle.control.specs.Control.{control_valid};
ghost use Rattle.view.specs.View.{view_of_entry, view_of, view_number, view_start, view_bytes};

use control::buffers::buffers_valid;
use frame_search::finding::frame_of;
use frames::claim::Claim;
use pages::{Page, frame_start, live_bytes, page_start};
use refusal::{DONE, Refusal};
use snapshot::accounts::{Account, AccountEntry};
use snapshot::lookup::look_up;

// Where a page's live bytes lie: a start and a length in the snapshot or in the pool.
#[derive(Clone, Copy)]
pub enum View {
    InSnapshot(usize, usize),
    InPool(usize, usize),
}

// The view of a page, its account's entry being valid.
#[tactic(auto, using(crate::proofs::Absent::no_live))]
fn view_in(c: &[u8], a: Account, page: Page, e: AccountEntry) -> Result<View, Refusal>
    requires { (control_valid c.now ≡ true) × (e.start < 4294967296) }
    ensures { result ≡ view_of_entry c.now a page e }
{
    let live = live_bytes(e.data_length(), page);
    if live < 1 {
        return Err(Refusal::Absent(0));
    }
    match frame_of(c, Claim::Copy(a, page)) {
        Some(f) => Ok(View::InPool(frame_start(f), live)),
        None => Ok(View::InSnapshot(e.start + page_start(page), live)),
    }
}

// Where the page's live bytes lie now, or why there is no view.
pub fn find_view(s: &[u8], c: &[u8], pool: &[u8], a: Account, page: Page) -> Result<View, Refusal>
    ensures { result ≡ view_of s.now c.now pool.now a page }
{
    if !buffers_valid(s, c, pool) {
        return Err(Refusal::Invalid);
    }
    let e = look_up(s, a)?;
    view_in(c, a, page, e)
}

// The number of a view.
pub fn view_number(s: &[u8], c: &[u8], pool: &[u8], a: Account, page: Page) -> u8
    ensures { result ≡ view_number (view_of s.now c.now pool.now a page) }
{
    match find_view(s, c, pool, a, page) {
        Ok(_) => DONE,
        Err(refusal) => refusal.number(),
    }
}

// The page's live bytes, uncopied: a part of whichever of the two slices holds the page now. A refused view is empty.
pub fn page_view<'a>(s: &'a [u8], c: &[u8], pool: &'a [u8], a: Account, page: Page) -> &'a [u8]
    ensures ref_ptr_value { result.ref_ptr ≡ view_start s.entry.ref_ptr pool.entry.ref_ptr (view_of s.now c.now pool.now a page) }
    ensures result_value { result.now ≡ view_bytes s.now pool.now (view_of s.now c.now pool.now a page) }
{
    match find_view(s, c, pool, a, page) {
        Ok(View::InSnapshot(at, n)) => &s[at..at + n],
        Ok(View::InPool(at, n)) => &pool[at..at + n],
        Err(_) => &s[0..0],
    }
}
