// The snapshot: a header of eight u32, account entries, block contexts, the transaction, the accounts' data.
use super::address::SEGMENT;

// The header's length, and so where the account entries start.
pub const SNAPSHOT_HEADER: usize = 32;

// Where the metadata starts in an account entry.
pub const METADATA_AT: usize = 16;

// The length of an account's metadata.
pub const METADATA: usize = 64;

// The length of an account entry.
pub const ACCOUNT_ENTRY: usize = METADATA_AT + METADATA;

// The length of a block context.
pub const CONTEXT: usize = 120;

// The most accounts.
pub const ACCOUNTS: usize = 64;

// The most block contexts.
pub const CONTEXTS: usize = 512;

// The longest transaction.
pub const TRANSACTION: usize = 65536;

// The longest account data.
pub const ACCOUNT_DATA: usize = SEGMENT;

// The longest snapshot.
pub const SNAPSHOT: usize = 0x8000_0000;
