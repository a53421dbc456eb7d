// Runs of bytes: copied and cleared.
ghost use Rattle.std.specs.Prelude.{◌≡◌, ◌+◌, ◌≤◌, length, take};
ghost use Rattle.layout.specs.Page.{page_size};
ghost use Rattle.words.specs.Words.{splice, bytes_at, zeros};

use layout::page::PAGE;

// Puts the first n of the bytes in at `to`. From a local array, with a constant n, this is one store.
#[tactic(auto, using(crate::proofs::Library::part_put))]
pub fn put(dst: &mut [u8], to: usize, bytes: &[u8], n: usize)
    requires { (n ≤ length bytes.now) × (to + n ≤ length dst.old) }
    ensures { dst.new ≡ splice dst.old to (take n bytes.now) }
{
    dst[to..to + n].copy_from_slice(&bytes[..n]);
}

// Copies n bytes of src from `from` on into dst at `to`. By way of an array, this compiles to one memmove; from slice to slice it does
// not, since the two might overlap for all that the compiler knows.
#[tactic(auto, using(crate::proofs::Library::run_front))]
pub fn copy(dst: &mut [u8], to: usize, src: &[u8], from: usize, n: usize)
    requires { (n ≤ page_size) × (to + n ≤ length dst.old) × (from + n ≤ length src.now) }
    ensures { dst.new ≡ splice dst.old to (bytes_at n src.now from) }
{
    let mut page = [0u8; PAGE];
    page[..n].copy_from_slice(&src[from..from + n]);
    put(dst, to, &page, n);
}

// Writes n zero bytes at `at`. The loop compiles to one memset.
#[tactic(auto, using(crate::proofs::Library::zeros_put))]
pub fn clear(dst: &mut [u8], at: usize, n: usize)
    requires { at + n ≤ length dst.old }
    ensures { dst.new ≡ splice dst.old at (zeros n) }
{
    for b in dst[at..at + n].iter_mut() {
        *b = 0;
    }
}
