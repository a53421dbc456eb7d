// The change list: header, entries in ascending order, pages.
ghost use Rattle.std.specs.Prelude.{◌≡◌, true, ℕ, ◌+◌, ◌*◌, ◌/◌, ◌≤◌, ◌<◌, length, get_or};
ghost use Rattle.layout.specs.Page.{page_size};
ghost use Rattle.layout.specs.Control.{frame_limit};
ghost use Rattle.layout.specs.List.{pages_at, list_total, list_header, change_at};
ghost use Rattle.words.specs.Words.{splice};
ghost use Rattle.control.specs.Control.{buffers_valid};
ghost use Rattle.changes.specs.List.{list_header_bytes, joined, list_check, change_list_out};
ghost use Rattle.changes.specs.Copies.{key_twice, ChangeFits, code_entry, code_page, Tried};

use super::copies::{Copied, DEPTHS, PAGE_CODES, Unlisted, gather};
use super::entry::Change;
use control::buffers::buffers_valid;
use layout::control::FRAMES;
use layout::list::{LIST_HEADER, list_total, pages_at};
use layout::page::PAGE;
use pages::{frame_start, live_bytes};
use refusal::Refusal;
use snapshot::accounts::whole_account_entry;
use sort::sort;
use words::numbers::write;
use words::runs::{clear, copy};

// Up to so many copies are listed without the arrays for every frame, which take longer to fill than a page to list.
const FEW: usize = 64;

// The room that the sort of so many numbers takes, and of a number for each frame.
const HALF_OF_FEW: usize = FEW / 2;

const HALF_OF_ALL: usize = FRAMES / 2;

// Whether two of the copies, which are in order, are of one page.
fn claimed_twice(order: &[u64]) -> bool
    ensures { result ≡ key_twice order.now }
{
    order
        .windows(2)
        .any(|pair| pair[0] / PAGE_CODES == pair[1] / PAGE_CODES)
}

// Writes the header of a list of n pages, a line for each word.
fn write_header(out: &mut [u8], n: usize)
    requires { (n ≤ frame_limit) × (list_header ≤ length out.old) }
    ensures { out.new ≡ splice out.old 0 (list_header_bytes n) }
{
    write(out, 0, 4, n as u64);
    write(out, 4, 4, LIST_HEADER as u64);
    write(out, 8, 4, pages_at(n) as u64);
    write(out, 12, 4, list_total(n) as u64);
}

// Writes entry j of a list of n pages, and its page: the frame's live bytes, then zeros.
fn write_change(s: &[u8], pool: &[u8], code: u64, out: &mut [u8], j: usize, n: usize)
    requires change_fits { ChangeFits s.now pool.now code }
    requires j_lt_n { (j < n) × (n ≤ frame_limit) × (list_total n ≤ length out.old) }
    ensures { out.new ≡ splice (splice out.old (change_at j) (code_entry s.now code)) (pages_at n + page_size * j) (code_page s.now pool.now code) }
{
    let copied = Copied::from_code(code);
    let entry = whole_account_entry(s, copied.account);
    let live = live_bytes(entry.data_length(), copied.page);
    let change = Change {
        account: copied.account,
        page: copied.page,
        live,
        depth: copied.depth,
        zero: 0,
    };
    change.put(out, j);
    let at = pages_at(n) + PAGE * j;
    copy(out, at, pool, frame_start(copied.frame), live);
    clear(out, at + live, PAGE - live);
}

// Writes every entry and its page.
fn write_changes(s: &[u8], pool: &[u8], order: &[u64], out: &mut [u8])
    requires few { (length order.now ≤ frame_limit) × (list_total (length order.now) ≤ length out.old) }
    requires by_index { (j : ℕ) → j < length order.now → ChangeFits s.now pool.now (get_or order.now j 0) }
    ensures { out.new ≡ splice (splice out.old list_header (joined (code_entry s.now) order.now)) (pages_at (length order.now)) (joined (code_page s.now pool.now) order.now) }
{
    for (j, code) in order.iter().enumerate() {
        write_change(s, pool, *code, out, j, order.len());
    }
}

// Writes the change list of at most N copies, and tells whether it did. Where there are more, it writes nothing and tells nothing.
fn list_up_to<const N: usize, const HALF: usize>(
    s: &[u8],
    c: &[u8],
    pool: &[u8],
    out: &mut [u8],
) -> Option<Result<(), Refusal>>
    requires { (buffers_valid s.now c.now pool.now ≡ true) × (N ≤ frame_limit) × (N / 2 ≤ HALF) × (HALF ≤ frame_limit) }
    ensures { Tried s.now c.now pool.now N out.old result out.new }
{
    let mut codes = [0u64; N];
    let n = match gather(s, c, &mut codes) {
        Ok(n) => n,
        Err(Unlisted::NotThere) => return Some(Err(Refusal::Invalid)),
        Err(Unlisted::Full) => return None,
    };
    let order = &mut codes[..n];
    sort(order, &mut [0u64; HALF]);
    if claimed_twice(order) {
        return Some(Err(Refusal::Invalid));
    }
    if out.len() < list_total(n) {
        return Some(Err(Refusal::ShortOutput));
    }
    write_header(out, n);
    write_changes(s, pool, order, out);
    Some(Ok(()))
}

// Writes the change list into the lent buffer, from its start; bytes past the list's total stay.
pub fn change_list(s: &[u8], c: &[u8], pool: &[u8], out: &mut [u8]) -> Result<(), Refusal>
    ensures value { result ≡ list_check s.now c.now pool.now (length out.old) }
    ensures out_after { out.new ≡ change_list_out s.now c.now pool.now out.old }
{
    if !buffers_valid(s, c, pool) {
        return Err(Refusal::Invalid);
    }
    if let Some(answer) = list_up_to::<FEW, HALF_OF_FEW>(s, c, pool, out) {
        return answer;
    }
    // there are never more copies than frames
    list_up_to::<FRAMES, HALF_OF_ALL>(s, c, pool, out).unwrap_or(Err(Refusal::Invalid))
}
