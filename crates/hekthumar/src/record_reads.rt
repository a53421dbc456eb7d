// What the five reads of records answer, as a host in C has it. One struct with a type parameter would serve all five, but does not cross the
// C interface.
ghost use Rattle.std.specs.Prelude.{◌≡◌};

use records::reads::RecordRead;
use records::types::{Buffer, CallRecord, Event, Location, Returned};

// A buffer descriptor, how many bytes the access went where one is not present, and its number.
#[repr(C)]
#[derive(Clone, Copy)]
pub struct BufferRead {
    pub record: Buffer,
    pub distance: u16,
    pub number: u8,
}

impl From<RecordRead<Buffer>> for BufferRead {
    ghost from_gives = { λ read answer. answer ≡ record { «record» = read.«record»; distance = read.distance; number = read.number } };

    fn from(read: RecordRead<Buffer>) -> BufferRead {
        BufferRead {
            record: read.record,
            distance: read.distance,
            number: read.number,
        }
    }
}

// The same of an event.
#[repr(C)]
#[derive(Clone, Copy)]
pub struct EventRead {
    pub record: Event,
    pub distance: u16,
    pub number: u8,
}

impl From<RecordRead<Event>> for EventRead {
    ghost from_gives = { λ read answer. answer ≡ record { «record» = read.«record»; distance = read.distance; number = read.number } };

    fn from(read: RecordRead<Event>) -> EventRead {
        EventRead {
            record: read.record,
            distance: read.distance,
            number: read.number,
        }
    }
}

// The same of a location.
#[repr(C)]
#[derive(Clone, Copy)]
pub struct LocationRead {
    pub record: Location,
    pub distance: u16,
    pub number: u8,
}

impl From<RecordRead<Location>> for LocationRead {
    ghost from_gives = { λ read answer. answer ≡ record { «record» = read.«record»; distance = read.distance; number = read.number } };

    fn from(read: RecordRead<Location>) -> LocationRead {
        LocationRead {
            record: read.record,
            distance: read.distance,
            number: read.number,
        }
    }
}

// The same of a call record.
#[repr(C)]
#[derive(Clone, Copy)]
pub struct CallRecordRead {
    pub record: CallRecord,
    pub distance: u16,
    pub number: u8,
}

impl From<RecordRead<CallRecord>> for CallRecordRead {
    ghost from_gives = { λ read answer. answer ≡ record { «record» = read.«record»; distance = read.distance; number = read.number } };

    fn from(read: RecordRead<CallRecord>) -> CallRecordRead {
        CallRecordRead {
            record: read.record,
            distance: read.distance,
            number: read.number,
        }
    }
}

// The same of a returned value.
#[repr(C)]
#[derive(Clone, Copy)]
pub struct ReturnedRead {
    pub record: Returned,
    pub distance: u16,
    pub number: u8,
}

impl From<RecordRead<Returned>> for ReturnedRead {
    ghost from_gives = { λ read answer. answer ≡ record { «record» = read.«record»; distance = read.distance; number = read.number } };

    fn from(read: RecordRead<Returned>) -> ReturnedRead {
        ReturnedRead {
            record: read.record,
            distance: read.distance,
            number: read.number,
        }
    }
}
