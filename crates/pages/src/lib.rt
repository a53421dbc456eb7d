// Pages and frames by their numbers: the page of an offset, where a page and a frame start, which bytes of a page are live.

#![tactic(auto)]

ghost use Rattle.std.specs.Prelude.{◌≡◌, true, ◌^◌, ◌≤◌, ◌<◌};
ghost use Rattle.layout.specs.Address.{offsets};
ghost use Rattle.layout.specs.Page.{page_size};
ghost use Rattle.snapshot.specs.Header.{snapshot_valid};
ghost use Rattle.pages.specs.Pages.{page_of, page_start, frame_start, in_frame, live_of, page_there};

use layout::page::PAGE;
use snapshot::accounts::Account;
use snapshot::lookup::look_up;

// A page of an account's data or of a region, by its number: offset / 4,096.
#[derive(Clone, Copy, PartialEq, Eq, Debug)]
pub struct Page(pub u16);

// A frame of the pool, by its number.
#[derive(Clone, Copy, PartialEq, Eq, Debug)]
pub struct Frame(pub u16);

// The page of an offset.
pub fn page_of(offset: usize) -> Page
    requires { offset < offsets }
    ensures { result ≡ page_of offset }
{
    Page((offset / PAGE) as u16)
}

// Where a page starts in its data.
pub fn page_start(page: Page) -> usize
    ensures { result ≡ page_start page }
{
    PAGE * usize::from(page.0)
}

// Where a frame starts in the pool.
pub fn frame_start(f: Frame) -> usize
    ensures { (result ≡ frame_start f) × (result < 2 ^ 28) }
{
    PAGE * usize::from(f.0)
}

// Where an offset's byte stands in the pool, its page being in the frame.
pub fn in_frame(f: Frame, offset: usize) -> usize
    ensures { result ≡ in_frame f offset }
{
    frame_start(f) + offset % PAGE
}

// How many bytes of a page are live, the data being so long.
#[tactic(auto, unfolding(crate::specs::Pages::live_of))]
pub fn live_bytes(size: usize, page: Page) -> usize
    ensures { (result ≡ live_of size page) × (result ≤ page_size) }
{
    size.saturating_sub(page_start(page)).min(PAGE)
}

// Whether the page is one of an account that is there and valid, and has live bytes.
pub fn page_there(s: &[u8], a: Account, page: Page) -> bool
    requires { snapshot_valid s.now ≡ true }
    ensures { result ≡ page_there s.now a page }
{
    match look_up(s, a) {
        Ok(e) => 1 <= live_bytes(e.data_length(), page),
        Err(_) => false,
    }
}
