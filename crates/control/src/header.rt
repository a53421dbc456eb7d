// The header of six u32: frame count, live invocations, where the shadow records and the frame table start, edition, 0.
ghost use Rattle.std.specs.Prelude.{◌≡◌, nat_eq, ◌≤◌, ◌<◌, length};
ghost use Rattle.layout.specs.Control.{table_at, reserved_at};
ghost use Rattle.words.specs.Words.{word_at};
ghost use Rattle.choice.specs.Choice.{both};
ghost use Rattle.control.specs.Control.{frames, invocations, edition, edition_known, control_valid, set_invocations};

use layout::control::{
    EDITION_AT, FRAME_ENTRY, FRAMES, INVOCATIONS, NEWER, OLDER, SHADOW_AT, TABLE_AT,
};
use words::numbers::{u32_at, u64_at, write};

// How many frames the pool has.
pub fn frame_count(c: &[u8]) -> usize
    requires { table_at ≤ length c.now }
    ensures { (result ≡ frames c.now) × (result < 4294967296) }
{
    u32_at(c, 0)
}

// How many invocations are live.
pub fn invocation_count(c: &[u8]) -> usize
    requires { table_at ≤ length c.now }
    ensures { (result ≡ invocations c.now) × (result < 4294967296) }
{
    u32_at(c, 4)
}

// The edition of the program that runs.
pub fn edition_of(c: &[u8]) -> usize
    requires { table_at ≤ length c.now }
    ensures { result ≡ edition c.now }
{
    u32_at(c, EDITION_AT)
}

// Whether there is such an edition.
#[tactic(auto, unfolding(crate::specs::Control::edition_known))]
pub fn is_edition(e: usize) -> bool
    ensures { result ≡ edition_known e }
{
    e == OLDER || e == NEWER
}

// Writes how many invocations are live.
#[tactic(auto, unfolding(crate::specs::Control::set_invocations))]
pub fn set_invocations(c: &mut [u8], d: usize)
    requires { table_at ≤ length c.old }
    ensures { c.new ≡ set_invocations c.old d }
{
    write(c, 4, 4, d as u64);
}

// Whether there is such an edition, and 0 behind it: the two words as one number, so that one load and one test decide.
fn edition_valid(c: &[u8]) -> bool
    requires { table_at ≤ length c.now }
    ensures { result ≡ both (edition_known (edition c.now)) (nat_eq (word_at 4 c.now reserved_at) 0) }
{
    is_edition(u64_at(c, EDITION_AT) as usize)
}

// Whether the header keeps its rules and the length is the one that the frame count gives. The limit is asked of the length: a compiler that knows
// the limit of the frame count reads it in two halves. The two offsets are one number, so that one load and one test decide.
#[tactic(auto, unfolding(crate::specs::Control::control_valid))]
pub fn valid(c: &[u8]) -> bool
    ensures { result ≡ control_valid c.now }
{
    if c.len() < TABLE_AT {
        return false;
    }
    let table = c.len() - TABLE_AT;
    table <= FRAME_ENTRY * FRAMES
        && table == FRAME_ENTRY * u32_at(c, 0)
        && matches!(u32_at(c, 4), 1..=INVOCATIONS)
        && u32_at(c, 8) + 4294967296 * u32_at(c, 12) == SHADOW_AT + 4294967296 * TABLE_AT
        && edition_valid(c)
}
