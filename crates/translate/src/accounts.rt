// The segments of accounts: the program's original data, an account's metadata, an account's data.
ghost use Rattle.std.specs.Prelude.{◌≡◌, ◌+◌, ◌≤◌, ◌<◌, length};
ghost use Rattle.layout.specs.Address.{offsets};
ghost use Rattle.layout.specs.Snapshot.{entry_size};
ghost use Rattle.snapshot.specs.Accounts.{entry_at, entry_of};
ghost use Rattle.translate.specs.Translate.{owned_by, runs, metadata_buffer};
ghost use Rattle.translate.specs.Columns.{of_program, of_metadata, of_data};

use super::request::Request;
use super::sought::{Buffer, Sought, Source, no_entry};
use layout::control::OLDER;
use layout::snapshot::METADATA;
use segments::rules::{FetchRule, StoreRule, permitted};
use snapshot::accounts::{Account, AccountEntry, metadata_at, whole_account_entry};
use snapshot::header::Header;

// Whether the account may be written and is the program's.
fn owned_by(e: AccountEntry, program: Account) -> bool
    ensures { result ≡ owned_by e program }
{
    e.writable() && e.owner == program
}

// The original data of the current program's account.
#[tactic(auto, using(crate::proofs::Read::start_fits))]
pub fn of_program(s: &[u8], h: Header, program: Account, permitted: bool, offset: usize) -> Sought
    requires { (h.total ≡ length s.now) × (entry_at program + entry_size ≤ length s.now) × (offset < offsets) }
    ensures { result ≡ of_program h (entry_of s.now program) permitted offset }
{
    let e = whole_account_entry(s, program);
    if !e.valid(h.data_at, s.len()) {
        return no_entry();
    }
    Sought {
        entry: true,
        permitted,
        end: e.data_length(),
        source: Source::Plain(Buffer::Snapshot),
        at: e.start + offset,
    }
}

// Where an account's metadata stands: nowhere where the account does not exist.
fn metadata_buffer(e: AccountEntry) -> Buffer
    ensures { result ≡ metadata_buffer e }
{
    if e.exists() {
        Buffer::Snapshot
    } else {
        Buffer::Zeros
    }
}

// An account's metadata.
pub fn of_metadata(s: &[u8], h: Header, a: Account, permitted: bool, offset: usize) -> Sought
    requires { (h.total ≡ length s.now) × (entry_at a + entry_size ≤ length s.now) × (offset < offsets) }
    ensures { result ≡ of_metadata h (entry_of s.now a) a permitted offset }
{
    let e = whole_account_entry(s, a);
    if !e.valid(h.data_at, s.len()) {
        return no_entry();
    }
    Sought {
        entry: true,
        permitted,
        end: METADATA,
        source: Source::Plain(metadata_buffer(e)),
        at: metadata_at(a) + offset,
    }
}

// Whether the account is the one that the older edition runs.
fn runs(edition: usize, a: Account, program: Account) -> bool
    ensures { result ≡ runs edition a program }
{
    edition == OLDER && a == program
}

// An account's data, as the snapshot has it; the rules ask whether the account runs and for its owner.
#[tactic(auto, using(crate::proofs::Read::start_fits))]
pub fn of_data(
    s: &[u8],
    h: Header,
    a: Account,
    program: Account,
    edition: usize,
    fetch: FetchRule,
    store: StoreRule,
    q: Request,
) -> Sought
    requires { (h.total ≡ length s.now) × (entry_at a + entry_size ≤ length s.now) × (q.offset < offsets) }
    ensures { result ≡ of_data h (entry_of s.now a) a program edition fetch store q }
{
    let e = whole_account_entry(s, a);
    if !e.valid(h.data_at, s.len()) {
        return no_entry();
    }
    Sought {
        entry: true,
        permitted: permitted(
            q.kind,
            fetch,
            store,
            runs(edition, a, program),
            owned_by(e, program),
        ),
        end: e.data_length(),
        source: Source::Copy,
        at: e.start + q.offset,
    }
}
