// Loads, fetches and span loads.
ghost use Rattle.std.specs.Prelude.{◌≡◌, true, ◌<◌, ◌≤◌, length};
ghost use Rattle.layout.specs.Page.{page_size};
ghost use Rattle.words.specs.Words.{is_size};
ghost use Rattle.translate.specs.Fits.{Fits};
ghost use Rattle.segments.specs.Kinds.{kind_load_span};
ghost use Rattle.translate.specs.Translate.{translate_of};
ghost use Rattle.access.specs.Loads.{value_at, answered, load_of, fetch_of, span_at, load_span_of, load_span_out};

use address::Address;
use refusal::Refusal;
use segments::kinds::{FETCH, LOAD, LOAD_SPAN};
use translate::place::Place;
use translate::translation::translate;
use words::numbers::read;
use words::runs::{clear, copy};

// The number of n bytes at a place, n being 1, 2, 4 or 8.
fn value_at(s: &[u8], c: &[u8], pool: &[u8], place: Place, n: usize) -> u64
    requires { (is_size n ≡ true) × Fits s.now c.now pool.now n place }
    ensures { result ≡ value_at s.now c.now pool.now n place }
{
    match place {
        Place::InSnapshot(at) => read(s, at, n),
        Place::InControl(at) => read(c, at, n),
        Place::Zeros => 0,
        Place::InPool(at) => read(pool, at, n),
        Place::Take(_) => 0,
    }
}

// The number of n bytes that an access of a kind without a span gives. It is compiled into both functions below.
#[inline(always)]
fn value_by(kind: u8, s: &[u8], c: &[u8], pool: &[u8], a: Address, n: usize) -> Result<u64, Refusal>
    requires { kind < kind_load_span }
    ensures { result ≡ answered s.now c.now pool.now n (translate_of s.now c.now pool.now kind a.0 n) }
{
    let answer = translate(s, c, pool, kind, a, n);
    let Ok(place) = answer else {
        return answer.map(|_| 0);
    };
    Ok(value_at(s, c, pool, place, n))
}

// Loads n bytes, 1, 2, 4 or 8, as a little-endian number.
#[tactic(auto, unfolding(crate::specs::Loads::load_of))]
pub fn load(s: &[u8], c: &[u8], pool: &[u8], a: Address, n: usize) -> Result<u64, Refusal>
    ensures { result ≡ load_of s.now c.now pool.now a.0 n }
{
    value_by(LOAD, s, c, pool, a, n)
}

// Fetches n bytes, 1, 2, 4 or 8, of the current program.
#[tactic(auto, unfolding(crate::specs::Loads::fetch_of))]
pub fn fetch(s: &[u8], c: &[u8], pool: &[u8], a: Address, n: usize) -> Result<u64, Refusal>
    ensures { result ≡ fetch_of s.now c.now pool.now a.0 n }
{
    value_by(FETCH, s, c, pool, a, n)
}

// Fills the lent buffer from a place.
fn span_at(s: &[u8], c: &[u8], pool: &[u8], place: Place, out: &mut [u8])
    requires { (length out.old ≤ page_size) × Fits s.now c.now pool.now (length out.old) place }
    ensures { out.new ≡ span_at s.now c.now pool.now out.old place }
{
    let n = out.len();
    match place {
        Place::InSnapshot(at) => copy(out, 0, s, at, n),
        Place::InControl(at) => copy(out, 0, c, at, n),
        Place::Zeros => clear(out, 0, n),
        Place::InPool(at) => copy(out, 0, pool, at, n),
        Place::Take(_) => {}
    }
}

// Loads as many bytes as the lent buffer has, 1 to 4,096. A refused span load leaves it as it was.
pub fn load_span(s: &[u8], c: &[u8], pool: &[u8], a: Address, out: &mut [u8]) -> Result<(), Refusal>
    ensures value { result ≡ load_span_of s.now c.now pool.now a.0 out.old }
    ensures out_after { out.new ≡ load_span_out s.now c.now pool.now a.0 out.old }
{
    let answer = translate(s, c, pool, LOAD_SPAN, a, out.len());
    let Ok(place) = answer else {
        return answer.map(|_| ());
    };
    span_at(s, c, pool, place, out);
    Ok(())
}
