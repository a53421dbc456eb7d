// Frame entries: read, written and cleared.
ghost use Rattle.std.specs.Prelude.{◌≡◌, ◌+◌, ◌≤◌, length};
ghost use Rattle.frames.specs.Table.{frame_entry_at, frame_entry_of, put_frame_entry, free_frame_entry, entry_end};

use layout::control::{FRAME_ENTRY, TABLE_AT};
use pages::{Frame, Page};
use snapshot::accounts::Account;
use words::numbers::{u16_at, write};

// A frame entry. The depth is a copy's: that at the store that made it.
#[derive(Clone, Copy)]
pub struct FrameEntry {
    pub usage: u8,
    pub tag: u8,
    pub account: Account,
    pub page: Page,
    pub depth: u16,
}

// Where a frame's entry starts.
fn frame_entry_at(f: Frame) -> usize
    ensures { result ≡ frame_entry_at f.0 }
{
    TABLE_AT + FRAME_ENTRY * usize::from(f.0)
}

// The use byte of entry i. A loop over the table asks for it first: of most entries it says enough.
#[tactic(auto, using(crate::proofs::Fields::byte_is))]
pub fn usage_at(c: &[u8], i: usize) -> u8
    requires { entry_end i ≤ length c.now }
    ensures { result ≡ (frame_entry_of c.now i).usage }
{
    c[TABLE_AT + FRAME_ENTRY * i]
}

// Entry i of the table.
pub fn entry_at(c: &[u8], i: usize) -> FrameEntry
    requires { entry_end i ≤ length c.now }
    ensures { result ≡ frame_entry_of c.now i }
{
    let at = TABLE_AT + FRAME_ENTRY * i;
    FrameEntry {
        usage: usage_at(c, i),
        tag: c[at + 1],
        account: Account(u16_at(c, at + 2)),
        page: Page(u16_at(c, at + 4)),
        depth: u16_at(c, at + 6),
    }
}

// A frame's entry.
pub fn frame_entry(c: &[u8], f: Frame) -> FrameEntry
    requires { entry_end f.0 ≤ length c.now }
    ensures { result ≡ frame_entry_of c.now f.0 }
{
    entry_at(c, usize::from(f.0))
}

// Writes a frame's entry, in one store.
pub fn put_frame_entry(c: &mut [u8], f: Frame, e: FrameEntry)
    requires { entry_end f.0 ≤ length c.old }
    ensures { c.new ≡ put_frame_entry c.old f.0 e }
{
    let low = u64::from(e.usage) + 256 * u64::from(e.tag) + 65536 * u64::from(e.account.0);
    let high = u64::from(e.page.0) + 65536 * u64::from(e.depth);
    write(c, frame_entry_at(f), 8, low + 4294967296 * high);
}

// Frees a frame: its entry becomes zeros.
pub fn free_frame_entry(c: &mut [u8], f: Frame)
    requires { entry_end f.0 ≤ length c.old }
    ensures { c.new ≡ free_frame_entry c.old f.0 }
{
    write(c, frame_entry_at(f), 8, 0);
}
