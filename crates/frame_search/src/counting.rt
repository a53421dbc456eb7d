// How many of some frames that are wanted are still wanted once part of the table was looked at: free ones are counted until they are enough.
ghost use Rattle.std.specs.Prelude.{◌≡◌, ◌+◌, ◌-◌, ◌≤◌, length};
ghost use Rattle.layout.specs.Control.{control_length, frame_limit};
ghost use Rattle.choice.specs.Search.{count};
ghost use Rattle.frames.specs.Table.{frame_entry_at, is_free};
ghost use Rattle.frame_search.specs.Match.{group_size};

use super::search::GROUP;
use frames::table::usage_at;
use layout::control::FREE;

// How many of n are wanted after the entries from `from` on and below `to`, looked at one by one.
pub fn wanted_after(c: &[u8], from: usize, to: usize, n: usize) -> usize
    requires { (from ≤ to) × (to ≤ frame_limit) × (frame_entry_at to ≤ length c.now) }
    ensures { result ≡ n - (count (is_free c.now) to - count (is_free c.now) from) }
{
    let mut left = n;
    for i in from..to {
        if left == 0 {
            return left;
        }
        if usage_at(c, i) == FREE {
            left -= 1;
        }
    }
    left
}

// How many entries of a group, from i on, are free. None ends the loop, so that it is compiled without a branch.
fn free_in_group(c: &[u8], i: usize) -> usize
    requires { frame_entry_at (i + group_size) ≤ length c.now }
    ensures { count (is_free c.now) (i + group_size) ≡ count (is_free c.now) i + result }
{
    let mut n = 0;
    for k in 0..GROUP {
        n += usize::from(usage_at(c, i + k) == FREE);
    }
    n
}

// How many of n are wanted after the entries from `from` on, by groups.
pub fn wanted_by_groups(c: &[u8], from: usize, frames: usize, n: usize) -> usize
    requires { (from ≤ frames) × (frames ≤ frame_limit) × (control_length frames ≤ length c.now) }
    ensures { result ≡ n - (count (is_free c.now) frames - count (is_free c.now) from) }
{
    let mut left = n;
    let groups = (frames - from) / GROUP;
    for g in 0..groups {
        let found = free_in_group(c, from + GROUP * g);
        if left <= found {
            return 0;
        }
        left -= found;
    }
    wanted_after(c, from + GROUP * groups, frames, left)
}
