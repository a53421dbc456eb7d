// Account entries of 80 bytes: their fields, validity, existence, data length, metadata and leave to write.
ghost use Rattle.std.specs.Prelude.{◌≡◌, ◌+◌, ◌*◌, ◌≤◌, length};
ghost use Rattle.layout.specs.Snapshot.{entry_size};
ghost use Rattle.snapshot.specs.Accounts.{entry_at, entry_of, exists, writable, data_length, body_valid, valid_within, metadata_at};

use layout::snapshot::{ACCOUNT_DATA, ACCOUNT_ENTRY, METADATA_AT, SNAPSHOT_HEADER};
use words::numbers::{u16_at, u32_at};

// An account of the snapshot, by its number.
#[derive(Clone, Copy, PartialEq, Eq, Debug)]
pub struct Account(pub u16);

// The fields of an account entry before its metadata.
#[derive(Clone, Copy, PartialEq, Eq, Debug)]
pub struct AccountEntry {
    pub flags: u16,
    pub owner: Account,
    pub length: usize,
    pub start: usize,
    pub zero: usize,
}

impl AccountEntry {
    // Whether the account exists: bit 0 of the flags.
    pub fn exists(self) -> bool
        ensures { result ≡ exists self }
    {
        self.flags % 2 == 1
    }

    // Whether the account may be written: it exists and bit 1 of the flags is set.
    pub fn writable(self) -> bool
        ensures { result ≡ writable self }
    {
        self.exists() && self.flags / 2 % 2 == 1
    }

    // The length of the account's data: 0 where it does not exist.
    pub fn data_length(self) -> usize
        ensures { result ≡ data_length self }
    {
        if self.exists() { self.length } else { 0 }
    }

    // Whether the fields of an account that exists keep their rules.
    #[tactic(auto, unfolding(crate::specs::Accounts::body_valid))]
    fn body_valid(self, data_at: usize, total: usize) -> bool
        ensures { result ≡ body_valid data_at total self }
    {
        self.zero == 0
            && self.length <= ACCOUNT_DATA
            && data_at <= self.start
            && self.start <= total
            && self.length <= total - self.start
    }

    // Whether the entry is valid in a snapshot whose data lies between `data_at` and `total`.
    #[tactic(auto, unfolding(crate::specs::Accounts::valid_within))]
    pub fn valid(self, data_at: usize, total: usize) -> bool
        ensures { result ≡ valid_within data_at total self }
    {
        self.flags <= 3 && (!self.exists() || self.body_valid(data_at, total))
    }
}

// Where an account's entry starts.
fn entry_at(a: Account) -> usize
    ensures { result ≡ entry_at a }
{
    SNAPSHOT_HEADER + ACCOUNT_ENTRY * usize::from(a.0)
}

// Where an account's metadata starts.
pub fn metadata_at(a: Account) -> usize
    ensures { result ≡ metadata_at a }
{
    entry_at(a) + METADATA_AT
}

// An account's entry. The slice holds it whole.
#[tactic(auto, unfolding(crate::specs::Accounts::entry_of))]
pub fn whole_account_entry(s: &[u8], a: Account) -> AccountEntry
    requires { entry_at a + entry_size ≤ length s.now }
    ensures { result ≡ entry_of s.now a }
{
    let at = entry_at(a);
    AccountEntry {
        flags: u16_at(s, at),
        owner: Account(u16_at(s, at + 2)),
        length: u32_at(s, at + 4),
        start: u32_at(s, at + 8),
        zero: u32_at(s, at + 12),
    }
}
