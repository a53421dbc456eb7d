// The fields of the five records in their bytes.
#![tactic(auto, using(crate::proofs::Encoding::put_fields), unfolding(crate::specs::Layout::decoded, crate::specs::Layout::encoded, crate::specs::Layout::valid_fields))]

ghost use Rattle.std.specs.Prelude.{refl};
ghost use Rattle.std.proofs.Common.{lit≤};
ghost use Rattle.records.specs.Layout.{buffer_layout, event_layout, location_layout, call_record_layout, returned_layout};
ghost use Rattle.records.specs.Laws.{buffer_size, buffer_kept, event_size, event_kept, location_size, location_kept, call_record_size, call_record_kept, returned_size, returned_kept};
ghost use Rattle.records.specs.Records.{buffer_fields, buffer_of, event_fields, event_of, location_fields, location_of, call_record_fields, call_record_of, returned_fields, returned_of};

use super::record::Record;
use super::types::{
    BUFFER, Buffer, CALL_RECORD, CallRecord, EVENT, Event, HALF, LOCATION, Location, RETURNED,
    Returned, WORD,
};
use words::numbers::{u32_at, u64_at, write};

impl Record<{ BUFFER }> for Buffer {
    ghost layout = { buffer_layout };

    ghost fields = { buffer_fields };

    ghost of_fields = { buffer_of };

    fn read_at(bytes: &[u8], at: usize) -> Buffer {
        Buffer {
            pointer: u64_at(bytes, at),
            length: u64_at(bytes, at + WORD),
        }
    }

    fn write_at(self, bytes: &mut [u8], at: usize) {
        write(bytes, at, WORD, self.pointer);
        write(bytes, at + WORD, WORD, self.length);
    }

    fn is_valid(self) -> bool {
        true
    }

    ghost size = { buffer_size };

    ghost short = { lit≤ tt };

    ghost kept = { buffer_kept };

    ghost back = { λ x. refl };
}

impl Record<{ EVENT }> for Event {
    ghost layout = { event_layout };

    ghost fields = { event_fields };

    ghost of_fields = { event_of };

    fn read_at(bytes: &[u8], at: usize) -> Event {
        Event {
            kind: Buffer::read_at(bytes, at),
            data: Buffer::read_at(bytes, at + BUFFER),
        }
    }

    fn write_at(self, bytes: &mut [u8], at: usize) {
        self.kind.write_at(bytes, at);
        self.data.write_at(bytes, at + BUFFER);
    }

    fn is_valid(self) -> bool {
        true
    }

    ghost size = { event_size };

    ghost short = { lit≤ tt };

    ghost kept = { event_kept };

    ghost back = { λ x. refl };
}

impl Record<{ LOCATION }> for Location {
    ghost layout = { location_layout };

    ghost fields = { location_fields };

    ghost of_fields = { location_of };

    fn read_at(bytes: &[u8], at: usize) -> Location {
        Location {
            file: Buffer::read_at(bytes, at),
            line: u32_at(bytes, at + BUFFER) as u32,
            column: u32_at(bytes, at + BUFFER + HALF) as u32,
        }
    }

    fn write_at(self, bytes: &mut [u8], at: usize) {
        self.file.write_at(bytes, at);
        write(bytes, at + BUFFER, HALF, u64::from(self.line));
        write(bytes, at + BUFFER + HALF, HALF, u64::from(self.column));
    }

    fn is_valid(self) -> bool {
        true
    }

    ghost size = { location_size };

    ghost short = { lit≤ tt };

    ghost kept = { location_kept };

    ghost back = { λ x. refl };
}

impl Record<{ CALL_RECORD }> for CallRecord {
    ghost layout = { call_record_layout };

    ghost fields = { call_record_fields };

    ghost of_fields = { call_record_of };

    fn read_at(bytes: &[u8], at: usize) -> CallRecord {
        CallRecord {
            context_id: Buffer::read_at(bytes, at),
            function: Buffer::read_at(bytes, at + BUFFER),
            params: Buffer::read_at(bytes, at + 2 * BUFFER),
        }
    }

    fn write_at(self, bytes: &mut [u8], at: usize) {
        self.context_id.write_at(bytes, at);
        self.function.write_at(bytes, at + BUFFER);
        self.params.write_at(bytes, at + 2 * BUFFER);
    }

    fn is_valid(self) -> bool {
        true
    }

    ghost size = { call_record_size };

    ghost short = { lit≤ tt };

    ghost kept = { call_record_kept };

    ghost back = { λ x. refl };
}

impl Record<{ RETURNED }> for Returned {
    ghost layout = { returned_layout };

    ghost fields = { returned_fields };

    ghost of_fields = { returned_of };

    fn read_at(bytes: &[u8], at: usize) -> Returned {
        Returned {
            discriminant: u64_at(bytes, at),
            buffer: Buffer::read_at(bytes, at + WORD),
        }
    }

    fn write_at(self, bytes: &mut [u8], at: usize) {
        write(bytes, at, WORD, self.discriminant);
        self.buffer.write_at(bytes, at + WORD);
    }

    // 0 for a result, 1 for an error, any other is none.
    fn is_valid(self) -> bool {
        self.discriminant <= 1
    }

    ghost size = { returned_size };

    ghost short = { lit≤ tt };

    ghost kept = { returned_kept };

    ghost back = { λ x. refl };
}
