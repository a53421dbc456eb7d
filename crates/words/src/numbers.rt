// Numbers of 1 to 8 bytes, the lowest byte first.
ghost use Rattle.std.specs.Prelude.{◌≡◌, true, ◌+◌, ◌≤◌, ◌<◌, length};
ghost use Rattle.words.specs.Words.{is_size, word_at, word_bytes, splice, bytes_at};

use crate::runs;

// The N bytes at `at`. An array that is made of an exact range is one load.
#[tactic(auto, using(crate::proofs::Library::part_run))]
fn part<const N: usize>(s: &[u8], at: usize) -> [u8; N]
    requires { at + N ≤ length s.now }
    ensures { result ≡ bytes_at N s.now at }
{
    s[at..at + N].try_into().unwrap()
}

// The u16 at `at`.
#[tactic(auto, using(crate::proofs::Library::word_16))]
pub fn u16_at(s: &[u8], at: usize) -> u16
    requires { at + 2 ≤ length s.now }
    ensures { result ≡ word_at 2 s.now at }
{
    u16::from_le_bytes(part(s, at))
}

// The u32 at `at`, as an index.
#[tactic(auto, using(crate::proofs::Library::word_32))]
pub fn u32_at(s: &[u8], at: usize) -> usize
    requires { at + 4 ≤ length s.now }
    ensures { (result ≡ word_at 4 s.now at) × (result < 4294967296) }
{
    u32::from_le_bytes(part(s, at)) as usize
}

// The u64 at `at`.
#[tactic(auto, using(crate::proofs::Library::word_64))]
pub fn u64_at(s: &[u8], at: usize) -> u64
    requires { at + 8 ≤ length s.now }
    ensures { result ≡ word_at 8 s.now at }
{
    u64::from_le_bytes(part(s, at))
}

// The number of n bytes at `at`, n being 1, 2, 4 or 8. Each size is one load.
#[tactic(auto, using(crate::proofs::Word::word_one))]
pub fn read(s: &[u8], at: usize, n: usize) -> u64
    requires { (is_size n ≡ true) × (at + n ≤ length s.now) }
    ensures { result ≡ word_at n s.now at }
{
    match n {
        8 => u64_at(s, at),
        4 => u32_at(s, at) as u64,
        2 => u64::from(u16_at(s, at)),
        _ => u64::from(s[at]),
    }
}

// Writes the N lowest bytes of v at `at`, in one store.
#[tactic(auto, using(crate::proofs::Library::first_bytes))]
fn put_low<const N: usize>(s: &mut [u8], at: usize, v: u64)
    requires { (N ≤ 8) × (at + N ≤ length s.old) }
    ensures { s.new ≡ splice s.old at (word_bytes N v) }
{
    let bytes = v.to_le_bytes();
    runs::put(s, at, &bytes, N);
}

// Writes the n lowest bytes of v at `at`, n being 1, 2, 4 or 8. Each size is one store.
pub fn write(s: &mut [u8], at: usize, n: usize, v: u64)
    requires { (is_size n ≡ true) × (at + n ≤ length s.old) }
    ensures { s.new ≡ splice s.old at (word_bytes n v) }
{
    match n {
        8 => put_low::<8>(s, at, v),
        4 => put_low::<4>(s, at, v),
        2 => put_low::<2>(s, at, v),
        _ => put_low::<1>(s, at, v),
    }
}
