// What a row of the table asks of the buffers, column by column.
ghost use Rattle.std.specs.Prelude.{◌≡◌, false};
ghost use Rattle.segments.specs.Rules.{permitted};
ghost use Rattle.translate.specs.Translate.{Ready, Named, no_entry, sought_of};

use super::accounts::{of_data, of_metadata, of_program};
use super::regions::of_region;
use super::request::Request;
use super::vm::{of_context, of_shadow, of_transaction};
use control::header::{edition_of, invocation_count};
use control::shadow::{Region, invocation_at};
use segments::rules::{FetchRule, Presence, StoreRule, permitted};
use snapshot::accounts::Account;
use snapshot::header::whole_header;

// A buffer that bytes stand in whatever the frames hold, or none: they read as zeros.
#[derive(Clone, Copy, PartialEq, Eq, Debug)]
pub enum Buffer {
    Snapshot,
    Control,
    Zeros,
}

// Where the bytes of a row stand: in one buffer, in the snapshot unless their page has a copy, or in a region's frames.
#[derive(Clone, Copy, PartialEq, Eq, Debug)]
pub enum Source {
    Plain(Buffer),
    Copy,
    Region(Region),
}

// What is sought: whether the entry of the account concerned is valid, whether the row permits the kind of access, the offset at which the
// bytes that are present from the access's own on end, where they stand, and where the first does in its buffer, frames aside. Plain
// numbers: a place made here and handed on would go through memory.
#[derive(Clone, Copy, PartialEq, Eq, Debug)]
pub struct Sought {
    pub entry: bool,
    pub permitted: bool,
    pub end: usize,
    pub source: Source,
    pub at: usize,
}

// What is sought where the entry is not valid: nothing more is asked.
#[tactic(auto, unfolding(crate::specs::Translate::no_entry))]
pub fn no_entry() -> Sought
    ensures { result ≡ no_entry }
{
    Sought {
        entry: false,
        permitted: false,
        end: 0,
        source: Source::Plain(Buffer::Zeros),
        at: 0,
    }
}

// What the row with this presence and these rules asks. Permission is asked in each arm, where the row is a constant to the compiler.
pub fn sought_of(
    s: &[u8],
    c: &[u8],
    p: Presence,
    fetch: FetchRule,
    store: StoreRule,
    q: Request,
) -> Sought
    requires ready { Ready s.now c.now q }
    requires named { Named s.now p q }
    ensures { result ≡ sought_of s.now c.now p fetch store q }
{
    let h = whole_header(s);
    let i = invocation_at(c, invocation_count(c));
    let a = Account(q.index);
    let plain = ||
        ensures { result ≡ permitted q.kind fetch store false false }
    { permitted(q.kind, fetch, store, false, false) };
    match p {
        Presence::Data => of_data(s, h, a, i.program, edition_of(c), fetch, store, q),
        Presence::Program => of_program(s, h, i.program, plain(), q.offset),
        Presence::Transaction => of_transaction(h, plain(), q.offset),
        Presence::Shadow => of_shadow(plain(), q.offset),
        Presence::Context => of_context(h, plain(), q.offset),
        Presence::Metadata => of_metadata(s, h, a, plain(), q.offset),
        Presence::Stack => of_region(i, Region::Stack, plain(), q.offset),
        Presence::Heap => of_region(i, Region::Heap, plain(), q.offset),
    }
}
