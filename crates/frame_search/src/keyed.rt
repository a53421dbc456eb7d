// The search for a copy: by its key, the account and the page as one number of four bytes, of which a vector holds twice as many as of whole
// entries. The use byte is asked where the key is there.
ghost use Rattle.std.specs.Prelude.{◌≡◌, ◌+◌, ◌-◌, ◌/◌, ◌%◌, ◌<◌, ◌≤◌, false, length};
ghost use Rattle.layout.specs.Control.{control_length, frame_limit};
ghost use Rattle.choice.specs.Search.{seek, lowest};
ghost use Rattle.words.specs.Words.{word_at};
ghost use Rattle.frames.specs.Table.{frame_entry_at, entry_end};
ghost use Rattle.frame_search.specs.Match.{group_size, first_keyed, NoneOf, copy_of};

use super::search::{GROUP, by_groups, entry_bits, one_by_one};
use frames::claim::End;
use layout::control::{COPY, FRAME_ENTRY, TABLE_AT};
use words::numbers::u32_at;

// The bits of an entry's use byte, account and page.
const COPY_BITS: u64 = 255 + 65536 * 4294967295;

// How many entries are looked at one by one before the groups: most searches end there.
const FIRST: usize = 16;

// The key of entry i. It is taken out of the whole entry, so that a group is read by vectors.
fn key_at(c: &[u8], i: usize) -> u32
    requires { (i < frame_limit) × (entry_end i ≤ length c.now) }
    ensures { result ≡ word_at 8 c.now (frame_entry_at i) / 65536 % 4294967296 }
{
    (entry_bits(c, i) / 65536 % 4294967296) as u32
}

// Whether one of the entries of a group, from i on, has the key. All are compared and none ends the loop, so that it is compiled to vector
// instructions.
fn group_has_key(c: &[u8], i: usize, key: u32) -> bool
    requires { (i + group_size ≤ frame_limit) × (frame_entry_at (i + group_size) ≤ length c.now) }
    ensures { result ≡ false → NoneOf (copy_of c.now key) i group_size }
{
    (0..GROUP).fold(false, |any, k| any | (key_at(c, i + k) == key))
}

// Whether entry i is a copy with the key.
fn is_copy_of(c: &[u8], i: usize, key: u32) -> bool
    requires { (i < frame_limit) × (entry_end i ≤ length c.now) }
    ensures { result ≡ copy_of c.now key i }
{
    let at = TABLE_AT + FRAME_ENTRY * i;
    u32_at(c, at + 2) as u32 == key && c[at] == COPY
}

// The lowest copy with the key from `from` on, by groups. Where a group has the key without such a copy, the rest is searched by whole entries:
// the key of an entry that is free is that of account 0's page 0, and groups of such would each be looked at twice.
fn by_key(c: &[u8], from: usize, frames: usize, key: u32) -> usize
    requires { (from ≤ frames) × (frames ≤ frame_limit) × (control_length frames ≤ length c.now) }
    ensures { result ≡ seek (copy_of c.now key) from (frames - from) }
{
    let wanted = u64::from(COPY) + 65536 * u64::from(key);
    let groups = (frames - from) / GROUP;
    for g in 0..groups {
        let i = from + GROUP * g;
        if group_has_key(c, i, key) {
            return match (0..GROUP).find(|&k| is_copy_of(c, i + k, key)) {
                Some(k) => i + k,
                None => by_groups(c, End::Lowest, i + GROUP, frames, COPY_BITS, wanted),
            };
        }
    }
    one_by_one(c, from + GROUP * groups, frames, COPY_BITS, wanted)
}

// The lowest copy with the key among the first entries; their number where none is. Of a constant number the compiler makes no loop.
fn first_keyed(c: &[u8], key: u32) -> usize
    requires { frame_entry_at first_keyed ≤ length c.now }
    ensures { result ≡ seek (copy_of c.now key) 0 first_keyed }
{
    (0..FIRST).find(|&i| is_copy_of(c, i, key)).unwrap_or(FIRST)
}

// The lowest copy with the key; the frame count where none is.
pub fn lowest_keyed(c: &[u8], frames: usize, key: u32) -> usize
    requires { (frames ≤ frame_limit) × (control_length frames ≤ length c.now) }
    ensures { result ≡ lowest (copy_of c.now key) frames }
{
    if frames < FIRST {
        return by_key(c, 0, frames, key);
    }
    let found = first_keyed(c, key);
    if found < FIRST {
        return found;
    }
    by_key(c, FIRST, frames, key)
}
