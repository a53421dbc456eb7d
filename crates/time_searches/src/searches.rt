// Ten thousand searches, one after the other.
ghost use Rattle.std.specs.Prelude.{◌≡◌, true, Some};
ghost use Rattle.control.specs.Control.{control_valid};
ghost use Rattle.time_searches.specs.Searches.{claim_of, EndsAt};

use control::shadow::Region;
use frame_search::finding::frame_of;
use frames::claim::Claim;
use pages::Page;
use snapshot::accounts::Account;

// How many searches are timed together.
const SEARCHES: usize = 10000;

// Which pages the table holds.
#[derive(Clone, Copy)]
pub enum Kind {
    AccountPages,
    StackPages,
}

impl Kind {
    // The claim of a page.
    fn claim(self, page: u16) -> Claim
        ensures { result ≡ claim_of self page }
    {
        match self {
            Kind::AccountPages => Claim::Copy(Account(0), Page(page)),
            Kind::StackPages => Claim::Anonymous(Region::Stack, Page(page)),
        }
    }
}

// The entry at which the search for a page ends, where it finds one.
fn end_of(c: &[u8], kind: Kind, page: u16) -> Option<u16>
    requires { control_valid c.now ≡ true }
    ensures { EndsAt c.now kind page → result ≡ Some page }
{
    frame_of(c, kind.claim(page)).map(|frame| frame.0)
}

// Searches for a page, then for the page that has the number of the entry just found, and so on: in a table whose entry i holds page i every search
// ends at the same entry, and none can begin before the one before it has ended. Answers the last entry found, where every search finds one.
pub fn search(c: &[u8], kind: Kind, page: u16) -> Option<u16>
    requires { control_valid c.now ≡ true }
    ensures { EndsAt c.now kind page → result ≡ Some page }
{
    let mut at = page;
    for _ in 0..SEARCHES {
        at = end_of(c, kind, at)?;
    }
    Some(at)
}
