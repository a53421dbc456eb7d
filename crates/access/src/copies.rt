// The copy of a page in a frame.
ghost use Rattle.std.specs.Prelude.{◌≡◌};
ghost use Rattle.translate.specs.Fits.{CopyFits};
ghost use Rattle.access.specs.Stores.{taken_control, taken_pool};

use control::header::invocation_count;
use frames::table::{FrameEntry, put_frame_entry};
use layout::control::COPY;
use layout::page::PAGE;
use pages::{frame_start, live_bytes, page_start};
use snapshot::accounts::whole_account_entry;
use translate::place::NewCopy;
use words::runs::{clear, copy};

// Makes a frame the copy of an account's page: its entry, the page's original bytes, then zeros to the frame's end.
pub fn take_copy(s: &[u8], c: &mut [u8], pool: &mut [u8], t: NewCopy)
    requires { CopyFits s.now c.old pool.old t }
    ensures c_after { c.new ≡ taken_control c.old t }
    ensures pool_after { pool.new ≡ taken_pool s.now pool.old t }
{
    let account = t.account;
    let page = t.page;
    let depth = (invocation_count(c) - 1) as u16;
    put_frame_entry(
        c,
        t.frame,
        FrameEntry {
            usage: COPY,
            tag: 0,
            account,
            page,
            depth,
        },
    );
    let e = whole_account_entry(s, account);
    let live = live_bytes(e.data_length(), page);
    let at = frame_start(t.frame);
    copy(pool, at, s, e.start + page_start(page), live);
    clear(pool, at + live, PAGE - live);
}
