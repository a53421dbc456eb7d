// Translation and the five accesses.
ghost use Rattle.std.specs.Prelude.{◌≡◌};
ghost use Rattle.translate.specs.Translate.{translate_of};
ghost use Rattle.hekthumar.specs.Steps.{translation, load, fetch, store, load_span, store_span, lent};
ghost use Rattle.hekthumar.specs.Answers.{place_answer, distance_in, step_value, step_outcome};

use hekthumar::accesses;
use hekthumar::accesses::PlaceAnswer;
use hekthumar::outcomes::OutcomeAnswer;
use hekthumar::values::ValueAnswer;

// From an address to a place or a refusal.
#[unsafe(no_mangle)]
pub extern "C" fn hekthumar_translate(
    snapshot: &[u8],
    control: &[u8],
    pool: &[u8],
    kind: u8,
    address: u64,
    length: usize,
) -> PlaceAnswer
    ensures value { result ≡ place_answer (translate_of snapshot.now control.now pool.now kind address length) }
    ensures number_value { result.number ≡ (lent snapshot.now control.now pool.now (translation kind address length)).answer.number }
    ensures result_value { distance_in result ≡ (lent snapshot.now control.now pool.now (translation kind address length)).answer.distance }
    ensures control_value { control.now ≡ (lent snapshot.now control.now pool.now (translation kind address length)).after.control }
    ensures pool_value { pool.now ≡ (lent snapshot.now control.now pool.now (translation kind address length)).after.pool }
{
    accesses::hekthumar_translate(snapshot, control, pool, kind, address, length)
}

// Loads 1, 2, 4 or 8 bytes.
#[unsafe(no_mangle)]
pub extern "C" fn hekthumar_load(
    snapshot: &[u8],
    control: &[u8],
    pool: &[u8],
    address: u64,
    size: usize,
) -> ValueAnswer
    ensures value { result ≡ step_value (lent snapshot.now control.now pool.now (load address size)) }
    ensures control_value { control.now ≡ (lent snapshot.now control.now pool.now (load address size)).after.control }
    ensures pool_value { pool.now ≡ (lent snapshot.now control.now pool.now (load address size)).after.pool }
{
    accesses::hekthumar_load(snapshot, control, pool, address, size)
}

// Fetches 1, 2, 4 or 8 bytes of the current program.
#[unsafe(no_mangle)]
pub extern "C" fn hekthumar_fetch(
    snapshot: &[u8],
    control: &[u8],
    pool: &[u8],
    address: u64,
    size: usize,
) -> ValueAnswer
    ensures value { result ≡ step_value (lent snapshot.now control.now pool.now (fetch address size)) }
    ensures control_value { control.now ≡ (lent snapshot.now control.now pool.now (fetch address size)).after.control }
    ensures pool_value { pool.now ≡ (lent snapshot.now control.now pool.now (fetch address size)).after.pool }
{
    accesses::hekthumar_fetch(snapshot, control, pool, address, size)
}

// Stores the lowest bytes of a value.
#[unsafe(no_mangle)]
pub extern "C" fn hekthumar_store(
    snapshot: &[u8],
    control: &mut [u8],
    pool: &mut [u8],
    address: u64,
    size: usize,
    value: u64,
) -> OutcomeAnswer
    ensures value { result ≡ step_outcome (lent snapshot.now control.old pool.old (store address size value)) }
    ensures control_after { control.new ≡ (lent snapshot.now control.old pool.old (store address size value)).after.control }
    ensures pool_after { pool.new ≡ (lent snapshot.now control.old pool.old (store address size value)).after.pool }
{
    accesses::hekthumar_store(snapshot, control, pool, address, size, value)
}

// Fills the lent buffer.
#[unsafe(no_mangle)]
pub extern "C" fn hekthumar_load_span(
    snapshot: &[u8],
    control: &[u8],
    pool: &[u8],
    address: u64,
    out: &mut [u8],
) -> OutcomeAnswer
    ensures value { result ≡ step_outcome (lent snapshot.now control.now pool.now (load_span address out.old)) }
    ensures out_after { out.new ≡ (lent snapshot.now control.now pool.now (load_span address out.old)).answer.bytes }
    ensures control_value { control.now ≡ (lent snapshot.now control.now pool.now (load_span address out.old)).after.control }
    ensures pool_value { pool.now ≡ (lent snapshot.now control.now pool.now (load_span address out.old)).after.pool }
{
    accesses::hekthumar_load_span(snapshot, control, pool, address, out)
}

// Stores the whole of the lent buffer.
#[unsafe(no_mangle)]
pub extern "C" fn hekthumar_store_span(
    snapshot: &[u8],
    control: &mut [u8],
    pool: &mut [u8],
    address: u64,
    bytes: &[u8],
) -> OutcomeAnswer
    ensures value { result ≡ step_outcome (lent snapshot.now control.old pool.old (store_span address bytes.now)) }
    ensures control_after { control.new ≡ (lent snapshot.now control.old pool.old (store_span address bytes.now)).after.control }
    ensures pool_after { pool.new ≡ (lent snapshot.now control.old pool.old (store_span address bytes.now)).after.pool }
{
    accesses::hekthumar_store_span(snapshot, control, pool, address, bytes)
}
