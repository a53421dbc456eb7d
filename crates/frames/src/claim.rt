// What an entry of the table may claim, by which use byte, and from which end a free frame is taken.
ghost use Rattle.std.specs.Prelude.{◌≡◌};
ghost use Rattle.frames.specs.Table.{usage_of};

use control::shadow::Region;
use layout::control::{HEAP, STACK};
use pages::Page;
use snapshot::accounts::Account;

// What a frame is asked for: the copy of an account's page, or a page of a region.
#[derive(Clone, Copy)]
pub enum Claim {
    Copy(Account, Page),
    Anonymous(Region, Page),
}

// Which free frame is taken: the one nearest to this end of the table.
#[derive(Clone, Copy, Debug, PartialEq, Eq)]
pub enum End {
    Lowest,
    Highest,
}

// The use byte of a region's frames. Not a `From`: the region and the byte are both other crates' types.
pub fn usage_of(r: Region) -> u8
    ensures { result ≡ usage_of r }
{
    match r {
        Region::Stack => STACK,
        Region::Heap => HEAP,
    }
}
