// The kinds of access, and what a kind asks of a length and an offset.
ghost use Rattle.std.specs.Prelude.{◌≡◌, true};
ghost use Rattle.words.specs.Words.{is_size};
ghost use Rattle.segments.specs.Kinds.{is_store, request_valid, aligned, within};

use layout::page::PAGE;

// A load.
pub const LOAD: u8 = 0;

// A store.
pub const STORE: u8 = 1;

// A fetch.
pub const FETCH: u8 = 2;

// A span load.
pub const LOAD_SPAN: u8 = 3;

// A span store.
pub const STORE_SPAN: u8 = 4;

// Whether the kind stores.
pub fn is_store(kind: u8) -> bool
    ensures { result ≡ is_store kind }
{
    kind == STORE || kind == STORE_SPAN
}

// Whether the length is one of a load, a store or a fetch.
fn is_size(n: usize) -> bool
    ensures { result ≡ is_size n }
{
    matches!(n, 1 | 2 | 4 | 8)
}

// Whether the kind is known and the length is one that it takes.
#[tactic(auto, unfolding(crate::specs::Kinds::request_valid))]
pub fn request_valid(kind: u8, n: usize) -> bool
    ensures { result ≡ request_valid kind n }
{
    if kind < LOAD_SPAN {
        is_size(n)
    } else {
        kind <= STORE_SPAN && matches!(n, 1..=PAGE)
    }
}

// Whether the offset is divisible by the length; a span is never misaligned. A length of 1, 2, 4 or 8 divides where the bits below it are 0.
#[tactic(auto, using(crate::proofs::Requests::request_size, crate::proofs::Requests::low_bits, words::proofs::Sizes::size_short), unfolding(crate::specs::Kinds::aligned))]
pub fn aligned(kind: u8, offset: usize, n: usize) -> bool
    requires { request_valid kind n ≡ true }
    ensures { result ≡ aligned kind offset n }
{
    LOAD_SPAN <= kind || offset & (n - 1) == 0
}

// Whether n bytes from the offset on stay in one page.
#[tactic(auto, unfolding(crate::specs::Kinds::within))]
pub fn within(offset: usize, n: usize) -> bool
    ensures { result ≡ within offset n }
{
    n <= PAGE - offset % PAGE
}
