// A control block with as many frames as there can be, of which frame i holds page i.
ghost use Rattle.std.specs.Prelude.{◌≡◌, length};
ghost use Rattle.layout.specs.Control.{control_length, frame_limit};

use frames::table::{FrameEntry, put_frame_entry};
use layout::control::{EDITION_AT, FRAME_ENTRY, FRAMES, NEWER, SHADOW_AT, TABLE_AT};
use pages::{Frame, Page};
use snapshot::accounts::Account;
use words::numbers::write;

// Its length.
pub const CONTROL: usize = TABLE_AT + FRAMES * FRAME_ENTRY;

// Entry i: page i, with this use.
fn entry(i: u16, usage: u8) -> FrameEntry {
    FrameEntry {
        usage,
        tag: 0,
        account: Account(0),
        page: Page(i),
        depth: 0,
    }
}

// Writes the header, with one invocation.
fn write_header(c: &mut [u8])
    requires { length c.old ≡ control_length frame_limit }
    ensures { length c.new ≡ length c.old }
{
    write(c, 0, 4, FRAMES as u64);
    write(c, 4, 4, 1);
    write(c, 8, 4, SHADOW_AT as u64);
    write(c, 12, 4, TABLE_AT as u64);
    write(c, EDITION_AT, 4, NEWER as u64);
}

// Writes header and entries.
pub fn write_table(c: &mut [u8], usage: u8)
    requires { length c.old ≡ control_length frame_limit }
{
    write_header(c);
    for i in 0..FRAMES as u16 {
        put_frame_entry(c, Frame(i), entry(i, usage));
    }
}
