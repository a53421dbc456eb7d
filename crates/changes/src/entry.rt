// An entry of the change list: which page changed, how many of its bytes are live, and how deep it was first stored to.
ghost use Rattle.std.specs.Prelude.{◌≡◌, ◌+◌, ◌≤◌, ◌<◌, ◌^◌, length};
ghost use Rattle.layout.specs.List.{change_at, change_size};
ghost use Rattle.words.specs.Words.{splice};
ghost use Rattle.changes.specs.Keys.{key_of};
ghost use Rattle.changes.specs.Entry.{change_bytes, change_in};

use layout::list::change_at;
use pages::Page;
use snapshot::accounts::Account;
use words::numbers::{u16_at, u32_at, write};

// An entry.
#[derive(Clone, Copy)]
pub struct Change {
    pub account: Account,
    pub page: Page,
    pub live: usize,
    pub depth: u16,
    pub zero: u16,
}

impl Change {
    // Entry i of a list.
    pub fn read(l: &[u8], i: usize) -> Change
        requires { (i < 2 ^ 32) × (change_at i + change_size ≤ length l.now) }
        ensures { result ≡ change_in l.now i }
    {
        let at = change_at(i);
        Change {
            account: Account(u16_at(l, at)),
            page: Page(u16_at(l, at + 2)),
            live: u32_at(l, at + 4),
            depth: u16_at(l, at + 8),
            zero: u16_at(l, at + 10),
        }
    }

    // The account and the page as one number, in whose order they ascend.
    pub fn key(self) -> u64
        ensures { result ≡ key_of self.account.0 self.page.0 }
    {
        65536 * u64::from(self.account.0) + u64::from(self.page.0)
    }

    // Writes entry i of a list, in two stores.
    pub fn put(self, out: &mut [u8], i: usize)
        requires { (i < 2 ^ 32) × (change_at i + change_size ≤ length out.old) × (self.live < 2 ^ 32) }
        ensures { out.new ≡ splice out.old (change_at i) (change_bytes self) }
    {
        let start = change_at(i);
        let page = u64::from(self.account.0) + 65536 * u64::from(self.page.0);
        write(out, start, 8, page + 4294967296 * (self.live as u64));
        let depth = u64::from(self.depth) + 65536 * u64::from(self.zero);
        write(out, start + 8, 4, depth);
    }
}
