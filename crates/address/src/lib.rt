// The 48-bit address: type, index and offset, as a small value that can be asked for its fields.

#![tactic(auto)]

ghost use Rattle.std.specs.Prelude.{◌≡◌};
ghost use Rattle.address.specs.Address.{type_of, index_of, offset_of, with_offset, join_of, split_of};

use layout::address::{ADDRESSES, OFFSETS};
use refusal::Refusal;

// An address: of the 48 bits, 47..40 are the segment's type, 39..24 its index, 23..0 the offset in it.
#[derive(Clone, Copy, Debug, PartialEq, Eq)]
pub struct Address(pub u64);

// The fields of an address.
#[derive(Clone, Copy, Debug, PartialEq, Eq)]
pub struct Fields {
    pub segment_type: u8,
    pub index: u16,
    pub offset: u32,
}

impl Address {
    // Bits 47..40.
    pub fn segment_type(self) -> u8
        ensures { result ≡ type_of self.0 }
    {
        (self.0 / 0x100_0000_0000 % 256) as u8
    }

    // Bits 39..24.
    pub fn index(self) -> u16
        ensures { result ≡ index_of self.0 }
    {
        (self.0 / OFFSETS % 65536) as u16
    }

    // Bits 23..0.
    pub fn offset(self) -> u32
        ensures { result ≡ offset_of self.0 }
    {
        (self.0 % OFFSETS) as u32
    }

    // The same address at another offset, of which the low 24 bits count; every other bit stays.
    pub fn with_offset(self, offset: u32) -> Address
        ensures { result.0 ≡ with_offset self.0 offset }
    {
        Address(self.0 - self.0 % OFFSETS + u64::from(offset) % OFFSETS)
    }
}

// The address with these fields; an offset of 2^24 or more is refused.
#[tactic(auto, using(crate::proofs::Laws::join_accepted, crate::proofs::Laws::join_refused))]
pub fn join(segment_type: u8, index: u16, offset: u32) -> Result<Address, Refusal>
    ensures { result ≡ join_of segment_type index offset }
{
    let at = u64::from(offset);
    if at < OFFSETS {
        let high = u64::from(segment_type) * 65536 + u64::from(index);
        return Ok(Address(high * OFFSETS + at));
    }
    Err(Refusal::BadAddress)
}

// The fields of an address; set upper bits are refused.
#[tactic(auto, using(crate::proofs::Laws::split_accepted, crate::proofs::Laws::split_refused))]
pub fn split(address: u64) -> Result<Fields, Refusal>
    ensures { result ≡ split_of address }
{
    if address < ADDRESSES {
        let a = Address(address);
        return Ok(Fields {
            segment_type: a.segment_type(),
            index: a.index(),
            offset: a.offset(),
        });
    }
    Err(Refusal::BadAddress)
}
