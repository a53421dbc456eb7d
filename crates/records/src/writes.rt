// A write is one span store of the record's bytes.
ghost use Rattle.std.specs.Prelude.{◌≡◌, false};
ghost use Rattle.segments.specs.Kinds.{kind_store_span};
ghost use Rattle.access.specs.Stores.{store_outcome};
ghost use Rattle.translate.specs.Place.{outcome_of};
ghost use Rattle.records.specs.Layout.{record_length};
ghost use Rattle.records.specs.Calls.{refused_outcome, judged, write_outcome, write_control, write_pool};

use super::record::Record;
use access::stores::store_record;
use address::Address;
use refusal::Refusal;
use segments::kinds::STORE_SPAN;
use translate::translation::translate;

// Why a write of a record that is not valid is refused: by the span store's refusal, else as a bad record.
fn refused_write<R: Record<N>, const N: usize>(
    s: &[u8],
    c: &[u8],
    pool: &[u8],
    a: Address,
) -> Refusal
    ensures { refused_outcome result ≡ judged false (store_outcome s.now c.now pool.now kind_store_span a.0 (record_length R.layout.widths)) }
{
    match translate(s, c, pool, STORE_SPAN, a, N) {
        Ok(_) => Refusal::BadRecord,
        Err(refusal) => refusal,
    }
}

// Writes a record.
#[tactic(auto, using(access::proofs::Outcomes::store_of_outcome, crate::proofs::Encoding::record_size), unfolding(crate::specs::Calls::judged, crate::specs::Calls::write_outcome, crate::specs::Calls::write_control, crate::specs::Calls::write_pool))]
pub fn write<R: Record<N>, const N: usize>(
    s: &[u8],
    c: &mut [u8],
    pool: &mut [u8],
    a: Address,
    record: R,
) -> Result<(), Refusal>
    ensures value { outcome_of result ≡ write_outcome s.now c.old pool.old R.layout a.0 (R.fields «record») }
    ensures c_after { c.new ≡ write_control s.now c.old pool.old R.layout a.0 (R.fields «record») }
    ensures pool_after { pool.new ≡ write_pool s.now c.old pool.old R.layout a.0 (R.fields «record») }
{
    if !record.is_valid() {
        return Err(refused_write::<R, N>(s, c, pool, a));
    }
    store_record(s, c, pool, a, &record.to_bytes())
}
