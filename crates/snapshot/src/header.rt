// The header of eight u32, and the rules that make a snapshot valid.
ghost use Rattle.std.specs.Prelude.{◌≡◌, ◌≤◌, length};
ghost use Rattle.layout.specs.Snapshot.{header_size, account_limit, context_limit, transaction_limit};
ghost use Rattle.snapshot.specs.Header.{header_of, counts_valid, offsets_valid, snapshot_valid};

use layout::snapshot::{
    ACCOUNT_ENTRY, ACCOUNTS, CONTEXT, CONTEXTS, SNAPSHOT, SNAPSHOT_HEADER, TRANSACTION,
};
use words::numbers::u32_at;

// The eight words of the header.
#[derive(Clone, Copy, PartialEq, Eq, Debug)]
pub struct Header {
    pub accounts: usize,
    pub contexts: usize,
    pub transaction: usize,
    pub accounts_at: usize,
    pub contexts_at: usize,
    pub transaction_at: usize,
    pub data_at: usize,
    pub total: usize,
}

// The header. The slice is long enough to hold it.
#[tactic(auto, unfolding(crate::specs::Header::header_of))]
pub fn whole_header(s: &[u8]) -> Header
    requires { header_size ≤ length s.now }
    ensures { result ≡ header_of s.now }
{
    Header {
        accounts: u32_at(s, 0),
        contexts: u32_at(s, 4),
        transaction: u32_at(s, 8),
        accounts_at: u32_at(s, 12),
        contexts_at: u32_at(s, 16),
        transaction_at: u32_at(s, 20),
        data_at: u32_at(s, 24),
        total: u32_at(s, 28),
    }
}

// Whether the counts are within their limits.
#[tactic(auto, unfolding(crate::specs::Header::counts_valid))]
fn counts_valid(h: Header) -> bool
    ensures { result ≡ counts_valid h }
{
    h.accounts <= ACCOUNTS && h.contexts <= CONTEXTS && h.transaction <= TRANSACTION
}

// Whether each offset is the one that the counts give. The counts are within their limits, so no sum wraps.
#[tactic(auto, unfolding(crate::specs::Header::offsets_valid))]
fn offsets_valid(h: Header) -> bool
    requires { (h.accounts ≤ account_limit) × (h.contexts ≤ context_limit) × (h.transaction ≤ transaction_limit) }
    ensures { result ≡ offsets_valid h }
{
    let contexts_at = SNAPSHOT_HEADER + ACCOUNT_ENTRY * h.accounts;
    let transaction_at = contexts_at + CONTEXT * h.contexts;
    h.accounts_at == SNAPSHOT_HEADER
        && h.contexts_at == contexts_at
        && h.transaction_at == transaction_at
        && h.data_at == transaction_at + h.transaction
}

// Whether the snapshot is valid: its header keeps every rule, and the total is the slice's length.
#[tactic(auto, using(crate::proofs::Facts::counts_limited), unfolding(crate::specs::Header::snapshot_valid, crate::specs::Header::total_valid))]
pub fn valid(s: &[u8]) -> bool
    ensures { result ≡ snapshot_valid s.now }
{
    if s.len() < SNAPSHOT_HEADER {
        return false;
    }
    let h = whole_header(s);
    counts_valid(h)
        && offsets_valid(h)
        && h.total == s.len()
        && h.data_at <= h.total
        && h.total <= SNAPSHOT
}
