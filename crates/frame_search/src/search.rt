// The one search of the frame table: the lowest or the highest entry whose bits under a mask are those wanted. An entry is read as one number. From the
// top it goes by how many are above it, so that the search is the one from the bottom with the entries in the other order.
ghost use Rattle.std.specs.Prelude.{◌≡◌, ◌+◌, ◌-◌, ◌<◌, ◌≤◌, false, length};
ghost use Rattle.layout.specs.Control.{control_length, frame_limit};
ghost use Rattle.choice.specs.Search.{seek};
ghost use Rattle.words.specs.Words.{word_at};
ghost use Rattle.frames.specs.Table.{frame_entry_at, entry_end};
ghost use Rattle.frame_search.specs.Match.{group_size, matches, NoneOf, from_end, group_end};

use frames::claim::End;
use layout::control::{FRAME_ENTRY, TABLE_AT};
use words::numbers::u64_at;

// How many entries are asked at once.
pub const GROUP: usize = 16;

// How many are looked at one by one before the groups: most searches end there.
const FIRST: usize = 8;

// Entry i as one number.
pub fn entry_bits(c: &[u8], i: usize) -> u64
    requires { (i < frame_limit) × (entry_end i ≤ length c.now) }
    ensures { result ≡ word_at 8 c.now (frame_entry_at i) }
{
    u64_at(c, TABLE_AT + FRAME_ENTRY * i)
}

// Whether the bits of entry i under the mask are those wanted.
#[tactic(auto, unfolding(crate::specs::Match::matches))]
fn is_match(c: &[u8], i: usize, mask: u64, wanted: u64) -> bool
    requires { (i < frame_limit) × (entry_end i ≤ length c.now) }
    ensures { result ≡ matches c.now mask wanted i }
{
    entry_bits(c, i) & mask == wanted
}

// Whether one of the entries of a group, from i on, matches. All are asked and none ends the loop, so that it is compiled to vector instructions.
fn group_matches(c: &[u8], i: usize, mask: u64, wanted: u64) -> bool
    requires { (i + group_size ≤ frame_limit) × (frame_entry_at (i + group_size) ≤ length c.now) }
    ensures { result ≡ false → NoneOf (matches c.now mask wanted) i group_size }
{
    (0..GROUP).fold(false, |any, k| any | is_match(c, i + k, mask, wanted))
}

// The lowest entry from `from` on and below `to` that matches, looked at one by one; `to` where none does.
pub fn one_by_one(c: &[u8], from: usize, to: usize, mask: u64, wanted: u64) -> usize
    requires { (from ≤ to) × (to ≤ frame_limit) × (frame_entry_at to ≤ length c.now) }
    ensures { result ≡ seek (matches c.now mask wanted) from (to - from) }
{
    (from..to)
        .find(|&i| is_match(c, i, mask, wanted))
        .unwrap_or(to)
}

// The same from either end of the table: how far from it the nearest entry is that matches, of those `from` entries away and more and fewer than
// `to`; `to` where none matches.
fn one_by_one_from(
    c: &[u8],
    end: End,
    frames: usize,
    from: usize,
    to: usize,
    mask: u64,
    wanted: u64,
) -> usize
    requires { (from ≤ to) × (to ≤ frames) × (frames ≤ frame_limit) × (control_length frames ≤ length c.now) }
    ensures { result ≡ seek (from_end end (matches c.now mask wanted) frames) from (to - from) }
{
    match end {
        End::Lowest => one_by_one(c, from, to, mask, wanted),
        End::Highest => (from..to)
            .find(|&k| is_match(c, frames - (k + 1), mask, wanted))
            .unwrap_or(to),
    }
}

// The lowest entry of the group whose nearest entry is so far from that end.
fn group_start(end: End, k: usize, frames: usize) -> usize
    requires { (k + group_size ≤ frames) × (frames ≤ frame_limit) }
    ensures { result + group_size ≡ group_end end k frames }
{
    match end {
        End::Lowest => k,
        End::Highest => frames - (k + GROUP),
    }
}

// How far from that end the nearest entry is that matches, of those `from` entries away and more, by groups: those in which none does are passed over.
// One function for both ends, so that it is called and not compiled into the one that asks for the highest.
pub fn by_groups(c: &[u8], end: End, from: usize, frames: usize, mask: u64, wanted: u64) -> usize
    requires { (from ≤ frames) × (frames ≤ frame_limit) × (control_length frames ≤ length c.now) }
    ensures { result ≡ seek (from_end end (matches c.now mask wanted) frames) from (frames - from) }
{
    let groups = (frames - from) / GROUP;
    let passed = (0..groups)
        .find(|&g| group_matches(c, group_start(end, from + GROUP * g, frames), mask, wanted))
        .unwrap_or(groups);
    one_by_one_from(c, end, frames, from + GROUP * passed, frames, mask, wanted)
}

// Where the entries end that are looked at one by one.
pub fn first_few(from: usize, frames: usize) -> usize
    requires { from ≤ frames }
    ensures { (from ≤ result) × (result ≤ frames) }
{
    from + FIRST.min(frames - from)
}

// How far from that end the nearest entry is that matches, of those `from` entries away and more; the frame count where none matches.
pub fn nearest_match(
    c: &[u8],
    end: End,
    from: usize,
    frames: usize,
    mask: u64,
    wanted: u64,
) -> usize
    requires { (from ≤ frames) × (frames ≤ frame_limit) × (control_length frames ≤ length c.now) }
    ensures { result ≡ seek (from_end end (matches c.now mask wanted) frames) from (frames - from) }
{
    let few = first_few(from, frames);
    let found = one_by_one_from(c, end, frames, from, few, mask, wanted);
    if found < few {
        return found;
    }
    by_groups(c, end, few, frames, mask, wanted)
}
