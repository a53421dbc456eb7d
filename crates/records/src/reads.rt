// A read fills zeros by one span load, so that a refused one gives a record of zeros.
ghost use Rattle.std.specs.Prelude.{◌≡◌};
ghost use Rattle.records.specs.Answers.{record_read, buffer_read, event_read, location_read, call_record_read, returned_read};

use super::record::Record;
use super::types::{Buffer, CallRecord, Event, Location, Returned};
use access::loads::load_span;
use address::Address;
use refusal::{DONE, Refusal};

// What a read gives: the record, how many bytes the access went where one is not present, and its number. No Result: a refused read has a
// record too, of zeros (Rules: "Records in program memory").
#[derive(Clone, Copy)]
pub struct RecordRead<R> {
    pub record: R,
    pub distance: u16,
    pub number: u8,
}

// Reads a record. Zeros are one, and a refused span load leaves them: 14 comes after every refusal of the access.
pub fn read<R: Record<N>, const N: usize>(
    s: &[u8],
    c: &[u8],
    pool: &[u8],
    a: Address,
) -> RecordRead<R>
    ensures { result ≡ record_read R.layout R.of_fields s.now c.now pool.now a.0 }
{
    let mut bytes = [0u8; N];
    let answer = load_span(s, c, pool, a, &mut bytes);
    let record = R::read_at(&bytes, 0);
    if !record.is_valid() {
        return RecordRead {
            record: R::read_at(&[0u8; N], 0),
            distance: 0,
            number: Refusal::BadRecord.number(),
        };
    }
    match answer {
        Ok(()) => RecordRead {
            record,
            distance: 0,
            number: DONE,
        },
        Err(refusal) => RecordRead {
            record,
            distance: refusal.distance() as u16,
            number: refusal.number(),
        },
    }
}

// Reads a buffer descriptor.
pub fn read_buffer(s: &[u8], c: &[u8], pool: &[u8], a: Address) -> RecordRead<Buffer>
    ensures { result ≡ buffer_read s.now c.now pool.now a.0 }
{
    read::<Buffer, _>(s, c, pool, a)
}

// Reads an event.
pub fn read_event(s: &[u8], c: &[u8], pool: &[u8], a: Address) -> RecordRead<Event>
    ensures { result ≡ event_read s.now c.now pool.now a.0 }
{
    read::<Event, _>(s, c, pool, a)
}

// Reads a location.
pub fn read_location(s: &[u8], c: &[u8], pool: &[u8], a: Address) -> RecordRead<Location>
    ensures { result ≡ location_read s.now c.now pool.now a.0 }
{
    read::<Location, _>(s, c, pool, a)
}

// Reads a call record.
pub fn read_call_record(s: &[u8], c: &[u8], pool: &[u8], a: Address) -> RecordRead<CallRecord>
    ensures { result ≡ call_record_read s.now c.now pool.now a.0 }
{
    read::<CallRecord, _>(s, c, pool, a)
}

// Reads a returned value.
pub fn read_returned(s: &[u8], c: &[u8], pool: &[u8], a: Address) -> RecordRead<Returned>
    ensures { result ≡ returned_read s.now c.now pool.now a.0 }
{
    read::<Returned, _>(s, c, pool, a)
}
