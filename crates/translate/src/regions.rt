// The segments of anonymous pages: stack and heap.
ghost use Rattle.std.specs.Prelude.{◌≡◌, ◌≤◌, ◌<◌};
ghost use Rattle.layout.specs.Address.{offsets};
ghost use Rattle.layout.specs.Page.{page_limit};
ghost use Rattle.control.specs.Control.{pages_of};
ghost use Rattle.translate.specs.Translate.{region_end};
ghost use Rattle.translate.specs.Columns.{of_region};

use super::sought::{Sought, Source};
use control::shadow::{Invocation, Region};
use layout::address::SEGMENT;
use layout::page::PAGE;

// Where the region's bytes that are present from the offset on end: the stack's pages are the topmost, the heap's the lowest.
fn region_end(r: Region, pages: usize, offset: usize) -> usize
    requires { (pages ≤ page_limit) × (offset < offsets) }
    ensures { result ≡ region_end r pages offset }
{
    match r {
        Region::Stack => {
            if SEGMENT - PAGE * pages <= offset {
                SEGMENT
            } else {
                0
            }
        }
        Region::Heap => PAGE * pages,
    }
}

// A page of the stack or of the heap, which stands in a frame alone.
pub fn of_region(i: Invocation, r: Region, permitted: bool, offset: usize) -> Sought
    requires { (pages_of i r ≤ page_limit) × (offset < offsets) }
    ensures { result ≡ of_region i r permitted offset }
{
    Sought {
        entry: true,
        permitted,
        end: region_end(r, usize::from(i.pages(r)), offset),
        source: Source::Region(r),
        at: 0,
    }
}
