// Translation and the five accesses.
#![tactic(auto, using(access::proofs::Near::load_near, access::proofs::Near::fetch_near, access::proofs::Near::store_near, access::proofs::Near::span_near, crate::proofs::Named::store_answered, crate::proofs::Named::span_answered, crate::proofs::Named::place_number, crate::proofs::Named::place_distance), unfolding(crate::specs::Steps::step_of))]

ghost use Rattle.std.specs.Prelude.{◌≡◌};
ghost use Rattle.translate.specs.Translate.{translate_of};
ghost use Rattle.hekthumar.specs.Steps.{translation, load, fetch, store, load_span, store_span, lent};
ghost use Rattle.hekthumar.specs.Answers.{place_of, place_answer, distance_in, step_value, step_outcome};

use super::outcomes::{OutcomeAnswer, outcome_answer};
use super::values::{ValueAnswer, value_answer};
use access::loads::{fetch, load, load_span};
use access::stores::{store, store_span};
use address::Address;
use refusal::{DONE, Refusal};
use translate::place::Place;
use translate::translation::translate;

// Translation's answer: a field that the case does not name is 0. Where a byte is not present, `at` is the distance to it.
#[repr(C)]
#[derive(Clone, Copy)]
pub struct PlaceAnswer {
    pub at: u64,
    pub frame: u16,
    pub account: u16,
    pub page: u16,
    pub place: u8,
    pub number: u8,
}

// An answer with a place from the start of a buffer: 1 snapshot, 2 control block, 3 zeros, 4 pool.
fn at_place(place: u8, at: usize) -> PlaceAnswer
    ensures { result ≡ record { at = at; frame = 0; account = 0; page = 0; place = place; number = 0 } }
{
    PlaceAnswer {
        at: at as u64,
        frame: 0,
        account: 0,
        page: 0,
        place,
        number: DONE,
    }
}

// The place of an allowed access.
impl From<Place> for PlaceAnswer {
    ghost from_gives = { λ place answer. answer ≡ place_of place };

    fn from(place: Place) -> PlaceAnswer {
        match place {
            Place::InSnapshot(at) => at_place(1, at),
            Place::InControl(at) => at_place(2, at),
            Place::Zeros => at_place(3, 0),
            Place::InPool(at) => at_place(4, at),
            Place::Take(n) => {
                let f = n.frame;
                let a = n.account;
                let q = n.page;
                PlaceAnswer {
                    at: n.at as u64,
                    frame: f.0,
                    account: a.0,
                    page: q.0,
                    place: 5,
                    number: DONE,
                }
            }
        }
    }
}

// A place, or the refusal's distance and number.
impl From<Result<Place, Refusal>> for PlaceAnswer {
    ghost from_gives = { λ translation answer. answer ≡ place_answer translation };

    fn from(translation: Result<Place, Refusal>) -> PlaceAnswer {
        match translation {
            Ok(place) => PlaceAnswer::from(place),
            Err(refusal) => PlaceAnswer {
                at: refusal.distance() as u64,
                frame: 0,
                account: 0,
                page: 0,
                place: 0,
                number: refusal.number(),
            },
        }
    }
}

// From an address to a place or a refusal.
pub fn hekthumar_translate(
    snapshot: &[u8],
    control: &[u8],
    pool: &[u8],
    kind: u8,
    address: u64,
    length: usize,
) -> PlaceAnswer
    ensures value { result ≡ place_answer (translate_of snapshot.now control.now pool.now kind address length) }
    ensures number_value { result.number ≡ (lent snapshot.now control.now pool.now (translation kind address length)).answer.number }
    ensures result_value { distance_in result ≡ (lent snapshot.now control.now pool.now (translation kind address length)).answer.distance }
    ensures control_value { control.now ≡ (lent snapshot.now control.now pool.now (translation kind address length)).after.control }
    ensures pool_value { pool.now ≡ (lent snapshot.now control.now pool.now (translation kind address length)).after.pool }
{
    PlaceAnswer::from(translate(snapshot, control, pool, kind, Address(address), length))
}

// Loads 1, 2, 4 or 8 bytes.
pub fn hekthumar_load(
    snapshot: &[u8],
    control: &[u8],
    pool: &[u8],
    address: u64,
    size: usize,
) -> ValueAnswer
    ensures value { result ≡ step_value (lent snapshot.now control.now pool.now (load address size)) }
    ensures control_value { control.now ≡ (lent snapshot.now control.now pool.now (load address size)).after.control }
    ensures pool_value { pool.now ≡ (lent snapshot.now control.now pool.now (load address size)).after.pool }
{
    value_answer(load(snapshot, control, pool, Address(address), size))
}

// Fetches 1, 2, 4 or 8 bytes of the current program.
pub fn hekthumar_fetch(
    snapshot: &[u8],
    control: &[u8],
    pool: &[u8],
    address: u64,
    size: usize,
) -> ValueAnswer
    ensures value { result ≡ step_value (lent snapshot.now control.now pool.now (fetch address size)) }
    ensures control_value { control.now ≡ (lent snapshot.now control.now pool.now (fetch address size)).after.control }
    ensures pool_value { pool.now ≡ (lent snapshot.now control.now pool.now (fetch address size)).after.pool }
{
    value_answer(fetch(snapshot, control, pool, Address(address), size))
}

// Stores the lowest bytes of a value.
pub fn hekthumar_store(
    snapshot: &[u8],
    control: &mut [u8],
    pool: &mut [u8],
    address: u64,
    size: usize,
    value: u64,
) -> OutcomeAnswer
    ensures value { result ≡ step_outcome (lent snapshot.now control.old pool.old (store address size value)) }
    ensures control_after { control.new ≡ (lent snapshot.now control.old pool.old (store address size value)).after.control }
    ensures pool_after { pool.new ≡ (lent snapshot.now control.old pool.old (store address size value)).after.pool }
{
    outcome_answer(store(snapshot, control, pool, Address(address), size, value))
}

// Fills the lent buffer.
pub fn hekthumar_load_span(
    snapshot: &[u8],
    control: &[u8],
    pool: &[u8],
    address: u64,
    out: &mut [u8],
) -> OutcomeAnswer
    ensures value { result ≡ step_outcome (lent snapshot.now control.now pool.now (load_span address out.old)) }
    ensures out_after { out.new ≡ (lent snapshot.now control.now pool.now (load_span address out.old)).answer.bytes }
    ensures control_value { control.now ≡ (lent snapshot.now control.now pool.now (load_span address out.old)).after.control }
    ensures pool_value { pool.now ≡ (lent snapshot.now control.now pool.now (load_span address out.old)).after.pool }
{
    outcome_answer(load_span(snapshot, control, pool, Address(address), out))
}

// Stores the whole of the lent buffer.
pub fn hekthumar_store_span(
    snapshot: &[u8],
    control: &mut [u8],
    pool: &mut [u8],
    address: u64,
    bytes: &[u8],
) -> OutcomeAnswer
    ensures value { result ≡ step_outcome (lent snapshot.now control.old pool.old (store_span address bytes.now)) }
    ensures control_after { control.new ≡ (lent snapshot.now control.old pool.old (store_span address bytes.now)).after.control }
    ensures pool_after { pool.new ≡ (lent snapshot.now control.old pool.old (store_span address bytes.now)).after.pool }
{
    outcome_answer(store_span(snapshot, control, pool, Address(address), bytes))
}
