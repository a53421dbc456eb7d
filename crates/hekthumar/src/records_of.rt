// Records in program memory: five reads and five writes.
#![tactic(auto, using(records::proofs::Judged::write_near), unfolding(crate::specs::Steps::step_of))]

ghost use Rattle.std.specs.Prelude.{◌≡◌};
ghost use Rattle.records.specs.Layout.{buffer_layout, event_layout, location_layout, call_record_layout, returned_layout};
ghost use Rattle.records.specs.Records.{buffer_fields, event_fields, location_fields, call_record_fields, returned_fields};
ghost use Rattle.hekthumar.specs.Steps.{read_record, write_record, lent};
ghost use Rattle.hekthumar.specs.Answers.{step_buffer, step_event, step_location, step_call_record, step_returned, step_outcome};

use super::outcomes::{OutcomeAnswer, outcome_answer};
use super::record_reads::{BufferRead, CallRecordRead, EventRead, LocationRead, ReturnedRead};
use address::Address;
use records::reads::{read_buffer, read_call_record, read_event, read_location, read_returned};
use records::types::{Buffer, CallRecord, Event, Location, Returned};
use records::writes::write;

// Reads a buffer descriptor.
pub fn hekthumar_read_buffer(
    snapshot: &[u8],
    control: &[u8],
    pool: &[u8],
    address: u64,
) -> BufferRead
    ensures value { result ≡ step_buffer (lent snapshot.now control.now pool.now (read_record buffer_layout address)) }
    ensures control_value { control.now ≡ (lent snapshot.now control.now pool.now (read_record buffer_layout address)).after.control }
    ensures pool_value { pool.now ≡ (lent snapshot.now control.now pool.now (read_record buffer_layout address)).after.pool }
{
    BufferRead::from(read_buffer(snapshot, control, pool, Address(address)))
}

// Reads an event.
pub fn hekthumar_read_event(snapshot: &[u8], control: &[u8], pool: &[u8], address: u64) -> EventRead
    ensures value { result ≡ step_event (lent snapshot.now control.now pool.now (read_record event_layout address)) }
    ensures control_value { control.now ≡ (lent snapshot.now control.now pool.now (read_record event_layout address)).after.control }
    ensures pool_value { pool.now ≡ (lent snapshot.now control.now pool.now (read_record event_layout address)).after.pool }
{
    EventRead::from(read_event(snapshot, control, pool, Address(address)))
}

// Reads a location.
pub fn hekthumar_read_location(
    snapshot: &[u8],
    control: &[u8],
    pool: &[u8],
    address: u64,
) -> LocationRead
    ensures value { result ≡ step_location (lent snapshot.now control.now pool.now (read_record location_layout address)) }
    ensures control_value { control.now ≡ (lent snapshot.now control.now pool.now (read_record location_layout address)).after.control }
    ensures pool_value { pool.now ≡ (lent snapshot.now control.now pool.now (read_record location_layout address)).after.pool }
{
    LocationRead::from(read_location(snapshot, control, pool, Address(address)))
}

// Reads a call record.
pub fn hekthumar_read_call_record(
    snapshot: &[u8],
    control: &[u8],
    pool: &[u8],
    address: u64,
) -> CallRecordRead
    ensures value { result ≡ step_call_record (lent snapshot.now control.now pool.now (read_record call_record_layout address)) }
    ensures control_value { control.now ≡ (lent snapshot.now control.now pool.now (read_record call_record_layout address)).after.control }
    ensures pool_value { pool.now ≡ (lent snapshot.now control.now pool.now (read_record call_record_layout address)).after.pool }
{
    CallRecordRead::from(read_call_record(snapshot, control, pool, Address(address)))
}

// Reads a returned value.
pub fn hekthumar_read_returned(
    snapshot: &[u8],
    control: &[u8],
    pool: &[u8],
    address: u64,
) -> ReturnedRead
    ensures value { result ≡ step_returned (lent snapshot.now control.now pool.now (read_record returned_layout address)) }
    ensures control_value { control.now ≡ (lent snapshot.now control.now pool.now (read_record returned_layout address)).after.control }
    ensures pool_value { pool.now ≡ (lent snapshot.now control.now pool.now (read_record returned_layout address)).after.pool }
{
    ReturnedRead::from(read_returned(snapshot, control, pool, Address(address)))
}

// Writes a buffer descriptor.
pub fn hekthumar_write_buffer(
    snapshot: &[u8],
    control: &mut [u8],
    pool: &mut [u8],
    address: u64,
    record: Buffer,
) -> OutcomeAnswer
    ensures value { result ≡ step_outcome (lent snapshot.now control.old pool.old (write_record buffer_layout address (buffer_fields «record»))) }
    ensures control_after { control.new ≡ (lent snapshot.now control.old pool.old (write_record buffer_layout address (buffer_fields «record»))).after.control }
    ensures pool_after { pool.new ≡ (lent snapshot.now control.old pool.old (write_record buffer_layout address (buffer_fields «record»))).after.pool }
{
    outcome_answer(write::<Buffer, _>(snapshot, control, pool, Address(address), record))
}

// Writes an event.
pub fn hekthumar_write_event(
    snapshot: &[u8],
    control: &mut [u8],
    pool: &mut [u8],
    address: u64,
    record: Event,
) -> OutcomeAnswer
    ensures value { result ≡ step_outcome (lent snapshot.now control.old pool.old (write_record event_layout address (event_fields «record»))) }
    ensures control_after { control.new ≡ (lent snapshot.now control.old pool.old (write_record event_layout address (event_fields «record»))).after.control }
    ensures pool_after { pool.new ≡ (lent snapshot.now control.old pool.old (write_record event_layout address (event_fields «record»))).after.pool }
{
    outcome_answer(write::<Event, _>(snapshot, control, pool, Address(address), record))
}

// Writes a location.
pub fn hekthumar_write_location(
    snapshot: &[u8],
    control: &mut [u8],
    pool: &mut [u8],
    address: u64,
    record: Location,
) -> OutcomeAnswer
    ensures value { result ≡ step_outcome (lent snapshot.now control.old pool.old (write_record location_layout address (location_fields «record»))) }
    ensures control_after { control.new ≡ (lent snapshot.now control.old pool.old (write_record location_layout address (location_fields «record»))).after.control }
    ensures pool_after { pool.new ≡ (lent snapshot.now control.old pool.old (write_record location_layout address (location_fields «record»))).after.pool }
{
    outcome_answer(write::<Location, _>(snapshot, control, pool, Address(address), record))
}

// Writes a call record.
pub fn hekthumar_write_call_record(
    snapshot: &[u8],
    control: &mut [u8],
    pool: &mut [u8],
    address: u64,
    record: CallRecord,
) -> OutcomeAnswer
    ensures value { result ≡ step_outcome (lent snapshot.now control.old pool.old (write_record call_record_layout address (call_record_fields «record»))) }
    ensures control_after { control.new ≡ (lent snapshot.now control.old pool.old (write_record call_record_layout address (call_record_fields «record»))).after.control }
    ensures pool_after { pool.new ≡ (lent snapshot.now control.old pool.old (write_record call_record_layout address (call_record_fields «record»))).after.pool }
{
    outcome_answer(write::<CallRecord, _>(snapshot, control, pool, Address(address), record))
}

// Writes a returned value.
pub fn hekthumar_write_returned(
    snapshot: &[u8],
    control: &mut [u8],
    pool: &mut [u8],
    address: u64,
    record: Returned,
) -> OutcomeAnswer
    ensures value { result ≡ step_outcome (lent snapshot.now control.old pool.old (write_record returned_layout address (returned_fields «record»))) }
    ensures control_after { control.new ≡ (lent snapshot.now control.old pool.old (write_record returned_layout address (returned_fields «record»))).after.control }
    ensures pool_after { pool.new ≡ (lent snapshot.now control.old pool.old (write_record returned_layout address (returned_fields «record»))).after.pool }
{
    outcome_answer(write::<Returned, _>(snapshot, control, pool, Address(address), record))
}
