// Addresses: join and split.
ghost use Rattle.std.specs.Prelude.{◌≡◌};
ghost use Rattle.address.specs.Address.{join_of, split_of};
ghost use Rattle.hekthumar.specs.Answers.{address_answer, fields_answer};

use address::{Address, Fields};
use refusal::{DONE, Refusal};

// An address, or 0 and the number of the refusal.
#[repr(C)]
#[derive(Clone, Copy)]
pub struct AddressAnswer {
    pub address: u64,
    pub number: u8,
}

// The fields of an address, or zeros and the number of the refusal.
#[repr(C)]
#[derive(Clone, Copy)]
pub struct FieldsAnswer {
    pub offset: u32,
    pub index: u16,
    pub segment: u8,
    pub number: u8,
}

impl From<Result<Address, Refusal>> for AddressAnswer {
    ghost from_gives = { λ joined answer. answer ≡ address_answer joined };

    fn from(joined: Result<Address, Refusal>) -> AddressAnswer {
        match joined {
            Ok(address) => AddressAnswer {
                address: address.0,
                number: DONE,
            },
            Err(refused) => AddressAnswer {
                address: 0,
                number: refused.number(),
            },
        }
    }
}

impl From<Result<Fields, Refusal>> for FieldsAnswer {
    ghost from_gives = { λ split answer. answer ≡ fields_answer split };

    fn from(split: Result<Fields, Refusal>) -> FieldsAnswer {
        match split {
            Ok(fields) => FieldsAnswer {
                offset: fields.offset,
                index: fields.index,
                segment: fields.segment_type,
                number: DONE,
            },
            Err(refusal) => FieldsAnswer {
                offset: 0,
                index: 0,
                segment: 0,
                number: refusal.number(),
            },
        }
    }
}

// Joins a type, an index and an offset.
pub fn hekthumar_join(segment: u8, index: u16, offset: u32) -> AddressAnswer
    ensures { result ≡ address_answer (join_of segment index offset) }
{
    AddressAnswer::from(address::join(segment, index, offset))
}

// Splits an address into its fields.
pub fn hekthumar_split(address: u64) -> FieldsAnswer
    ensures { result ≡ fields_answer (split_of address) }
{
    FieldsAnswer::from(address::split(address))
}
