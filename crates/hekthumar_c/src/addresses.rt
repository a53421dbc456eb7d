// Addresses: join and split.
ghost use Rattle.std.specs.Prelude.{◌≡◌};
ghost use Rattle.address.specs.Address.{join_of, split_of};
ghost use Rattle.hekthumar.specs.Answers.{address_answer, fields_answer};

use hekthumar::addresses;
use hekthumar::addresses::{AddressAnswer, FieldsAnswer};

// Joins a type, an index and an offset.
#[unsafe(no_mangle)]
pub extern "C" fn hekthumar_join(segment: u8, index: u16, offset: u32) -> AddressAnswer
    ensures { result ≡ address_answer (join_of segment index offset) }
{
    addresses::hekthumar_join(segment, index, offset)
}

// Splits an address into its fields.
#[unsafe(no_mangle)]
pub extern "C" fn hekthumar_split(address: u64) -> FieldsAnswer
    ensures { result ≡ fields_answer (split_of address) }
{
    addresses::hekthumar_split(address)
}
