// Stores and span stores.
ghost use Rattle.std.specs.Prelude.{◌≡◌, length};
ghost use Rattle.words.specs.Words.{word_bytes};
ghost use Rattle.segments.specs.Kinds.{kind_store, kind_store_span};
ghost use Rattle.access.specs.Stores.{Writable, place_in_pool, prepared_control, prepared_pool, store_of, store_control, store_pool};

use super::copies::take_copy;
use address::Address;
use refusal::Refusal;
use segments::kinds::{STORE, STORE_SPAN};
use translate::place::{NewCopy, Place};
use translate::translation::translate;
use words::numbers::write;
use words::runs::copy;

// Makes the page of a store's place writable, and gives the place in the pool: a page with a frame is ready, one without gets a copy. The
// three numbers of a copy are read one by one, as translation wrote them: read at once they wait for the three stores.
fn make_writable(s: &[u8], c: &mut [u8], pool: &mut [u8], place: Place) -> usize
    requires { Writable s.now c.old pool.old place }
    ensures value { result ≡ place_in_pool place }
    ensures c_after { c.new ≡ prepared_control c.old place }
    ensures pool_after { pool.new ≡ prepared_pool s.now pool.old place }
{
    match place {
        Place::InPool(at) => at,
        Place::Take(t) => {
            let frame = t.frame;
            let account = t.account;
            let page = t.page;
            let new = NewCopy {
                at: t.at,
                frame,
                account,
                page,
            };
            take_copy(s, c, pool, new);
            t.at
        }
        Place::InSnapshot(_) => 0,
        Place::InControl(_) => 0,
        Place::Zeros => 0,
    }
}

// Stores the n lowest bytes of a value, n being 1, 2, 4 or 8.
pub fn store(
    s: &[u8],
    c: &mut [u8],
    pool: &mut [u8],
    a: Address,
    n: usize,
    v: u64,
) -> Result<(), Refusal>
    ensures value { result ≡ store_of s.now c.old pool.old kind_store a.0 n }
    ensures c_after { c.new ≡ store_control s.now c.old pool.old kind_store a.0 n }
    ensures pool_after { pool.new ≡ store_pool s.now c.old pool.old kind_store a.0 (word_bytes n v) }
{
    let answer = translate(s, c, pool, STORE, a, n);
    let Ok(place) = answer else {
        return answer.map(|_| ());
    };
    let at = make_writable(s, c, pool, place);
    write(pool, at, n, v);
    Ok(())
}

// Stores the whole of a lent buffer, 1 to 4,096 bytes.
pub fn store_span(
    s: &[u8],
    c: &mut [u8],
    pool: &mut [u8],
    a: Address,
    bytes: &[u8],
) -> Result<(), Refusal>
    ensures value { result ≡ store_of s.now c.old pool.old kind_store_span a.0 (length bytes.now) }
    ensures c_after { c.new ≡ store_control s.now c.old pool.old kind_store_span a.0 (length bytes.now) }
    ensures pool_after { pool.new ≡ store_pool s.now c.old pool.old kind_store_span a.0 bytes.now }
{
    let spanned = translate(s, c, pool, STORE_SPAN, a, bytes.len());
    let Ok(place) = spanned else {
        return spanned.map(|_| ());
    };
    let at = make_writable(s, c, pool, place);
    copy(pool, at, bytes, 0, bytes.len());
    Ok(())
}

// Stores a record's bytes, as `store_span` does. That has one caller and is compiled into it; this one is called by the writes of records,
// so that the archive has it once and not in each. Two bodies, so that a slip in one of them can be planted alone (must-fail/).
#[inline(never)]
pub fn store_record(
    s: &[u8],
    c: &mut [u8],
    pool: &mut [u8],
    a: Address,
    bytes: &[u8],
) -> Result<(), Refusal>
    ensures value { result ≡ store_of s.now c.old pool.old kind_store_span a.0 (length bytes.now) }
    ensures c_after { c.new ≡ store_control s.now c.old pool.old kind_store_span a.0 (length bytes.now) }
    ensures pool_after { pool.new ≡ store_pool s.now c.old pool.old kind_store_span a.0 bytes.now }
{
    let recorded = translate(s, c, pool, STORE_SPAN, a, bytes.len());
    let Ok(place) = recorded else {
        return recorded.map(|_| ());
    };
    let start = make_writable(s, c, pool, place);
    copy(pool, start, bytes, 0, bytes.len());
    Ok(())
}
