// Which frame holds a page, which frame is free, and whether enough are.
ghost use Rattle.std.specs.Prelude.{◌≡◌, ◌+◌, ◌-◌, ◌≤◌, true, false, length, nat_eq, nat_le};
ghost use Rattle.layout.specs.Control.{control_length, frame_limit};
ghost use Rattle.choice.specs.Search.{seek, lowest};
ghost use Rattle.control.specs.Control.{control_valid};
ghost use Rattle.control.specs.declared.shadow.Region.{Region};
ghost use Rattle.frames.specs.Table.{frame_entry_at, frame_entry_of, usage_of, claims, is_copy, is_free, found_in, frame_of, free_frame, free_count};
ghost use Rattle.frames.specs.declared.claim.Claim.TheVariants.{Copy, Anonymous};
ghost use Rattle.frame_search.specs.Match.{group_size, NoneOf, from_end, entry_from};

use super::counting::{wanted_after, wanted_by_groups};
use super::keyed::lowest_keyed;
use super::search::{GROUP, entry_bits, first_few, nearest_match};
use control::header::frame_count;
use control::shadow::Region;
use frames::claim::{Claim, End, usage_of};
use frames::table::usage_at;
use layout::control::{COPY, FREE};
use pages::{Frame, Page};
use snapshot::accounts::Account;

// An index below the bound as the frame that was found, the bound as none.
#[tactic(auto, unfolding(frames::specs::Table::found_in))]
fn as_found(i: usize, frames: usize) -> Option<Frame>
    requires { frames ≤ frame_limit }
    ensures { result ≡ found_in frames i }
{
    if i < frames {
        Some(Frame(i as u16))
    } else {
        None
    }
}

// The bits of an entry's use byte.
const USAGE_BITS: u64 = 255;

// Those of the use byte and the page.
const PAGE_BITS: u64 = 255 + 4294967296 * 65535;

// The lowest entry that is a copy of the account's page, the frame count where none is.
pub fn lowest_copy(c: &[u8], frames: usize, a: Account, p: Page) -> usize
    requires { (frames ≤ frame_limit) × (control_length frames ≤ length c.now) }
    ensures { result ≡ lowest (claims c.now (Copy a p)) frames }
{
    lowest_keyed(c, frames, u32::from(a.0) + 65536 * u32::from(p.0))
}

// The lowest entry that holds the region's page, the frame count where none does.
pub fn lowest_page(c: &[u8], frames: usize, r: Region, p: Page) -> usize
    requires { (frames ≤ frame_limit) × (control_length frames ≤ length c.now) }
    ensures { result ≡ lowest (claims c.now (Anonymous r p)) frames }
{
    let wanted = u64::from(usage_of(r)) + 4294967296 * u64::from(p.0);
    nearest_match(c, End::Lowest, 0, frames, PAGE_BITS, wanted)
}

// The frame of a page: the lowest entry that claims it. The search stops there.
#[tactic(auto, using(control::proofs::Facts::control_facts), unfolding(frames::specs::Table::frame_of))]
pub fn frame_of(c: &[u8], q: Claim) -> Option<Frame>
    requires { control_valid c.now ≡ true }
    ensures { result ≡ frame_of c.now q }
{
    let frames = frame_count(c);
    match q {
        Claim::Copy(a, p) => as_found(lowest_copy(c, frames, a, p), frames),
        Claim::Anonymous(r, p) => as_found(lowest_page(c, frames, r, p), frames),
    }
}

// How far from that end of the table the nearest free entry is, of those `from` entries away and more; the frame count where none is free.
pub fn next_free(c: &[u8], end: End, from: usize, frames: usize) -> usize
    requires { (frames ≤ frame_limit) × (from ≤ frames) × (control_length frames ≤ length c.now) }
    ensures { result ≡ seek (from_end end (is_free c.now) frames) from (frames - from) }
{
    nearest_match(c, end, from, frames, USAGE_BITS, u64::from(FREE))
}

// The lowest copy from `from` on; the frame count where none is. Copies mostly stand one behind the other, so the first entry is looked at before
// the search is called.
pub fn next_copy(c: &[u8], from: usize, frames: usize) -> usize
    requires { (frames ≤ frame_limit) × (from ≤ frames) × (control_length frames ≤ length c.now) }
    ensures { result ≡ seek (is_copy c.now) from (frames - from) }
{
    if from < frames && usage_at(c, from) == COPY {
        return from;
    }
    nearest_match(c, End::Lowest, from, frames, USAGE_BITS, u64::from(COPY))
}

// Whether one of the entries of a group, from i on, may be a region's. Stack and heap have the second bit of the use byte, free and copy do not;
// an or keeps it, so that a loop of nothing else is compiled to vector instructions.
pub fn group_may_hold_regions(c: &[u8], i: usize) -> bool
    requires { (i + group_size ≤ frame_limit) × (frame_entry_at (i + group_size) ≤ length c.now) }
    ensures { result ≡ false → (q : Region) → NoneOf (λ j. nat_eq (frame_entry_of c.now j).usage (usage_of q)) i group_size }
{
    2 <= (0..GROUP).fold(0, |any, k| any | entry_bits(c, i + k)) % 4
}

// The entry that is so far from that end of the table; the frame count where that is how far.
fn entry_from(end: End, k: usize, frames: usize) -> usize
    ensures { result ≡ entry_from end k frames }
{
    match end {
        End::Lowest => k,
        End::Highest if k < frames => frames - (k + 1),
        End::Highest => frames,
    }
}

// The free frame that is handed out next: the lowest or the highest.
#[tactic(auto, using(control::proofs::Facts::control_facts))]
pub fn free_frame(c: &[u8], end: End) -> Option<Frame>
    requires { control_valid c.now ≡ true }
    ensures { result ≡ free_frame end c.now }
{
    let frames = frame_count(c);
    let k = next_free(c, end, 0, frames);
    as_found(entry_from(end, k, frames), frames)
}

// Whether at least n frames are free. The count stops once they are found.
#[tactic(auto, using(control::proofs::Facts::control_facts))]
pub fn has_free(c: &[u8], n: usize) -> bool
    requires { control_valid c.now ≡ true }
    ensures { result ≡ nat_le n (free_count c.now) }
{
    let frames = frame_count(c);
    let few = first_few(0, frames);
    let left = wanted_after(c, 0, few, n);
    wanted_by_groups(c, few, frames, left) == 0
}
