// The segments of type 0 that belong to no account: transaction, shadow stack, block context. Nothing is asked of an entry or an owner.
ghost use Rattle.std.specs.Prelude.{◌≡◌, ◌<◌};
ghost use Rattle.layout.specs.Address.{offsets};
ghost use Rattle.translate.specs.Translate.{context_end};
ghost use Rattle.translate.specs.Columns.{of_transaction, of_shadow, of_context};

use super::sought::{Buffer, Sought, Source};
use layout::control::{SHADOW_AT, TABLE_AT};
use layout::page::PAGE;
use layout::snapshot::CONTEXT;
use snapshot::header::Header;

// The transaction's bytes.
pub fn of_transaction(h: Header, permitted: bool, offset: usize) -> Sought
    requires { (h.transaction_at < 4294967296) × (offset < offsets) }
    ensures { result ≡ of_transaction h permitted offset }
{
    Sought {
        entry: true,
        permitted,
        end: h.transaction,
        source: Source::Plain(Buffer::Snapshot),
        at: h.transaction_at + offset,
    }
}

// The shadow records, as they lie in the control block.
pub fn of_shadow(permitted: bool, offset: usize) -> Sought
    requires { offset < offsets }
    ensures { result ≡ of_shadow permitted offset }
{
    Sought {
        entry: true,
        permitted,
        end: TABLE_AT - SHADOW_AT,
        source: Source::Plain(Buffer::Control),
        at: SHADOW_AT + offset,
    }
}

// Where the block context of an offset ends: each has a page of its own.
fn context_end(contexts: usize, offset: usize) -> usize
    requires { offset < offsets }
    ensures { result ≡ context_end contexts offset }
{
    if offset / PAGE < contexts {
        PAGE * (offset / PAGE) + CONTEXT
    } else {
        0
    }
}

// The block contexts, one to a page.
pub fn of_context(h: Header, permitted: bool, offset: usize) -> Sought
    requires { (h.contexts_at < 4294967296) × (offset < offsets) }
    ensures { result ≡ of_context h permitted offset }
{
    Sought {
        entry: true,
        permitted,
        end: context_end(h.contexts, offset),
        source: Source::Plain(Buffer::Snapshot),
        at: h.contexts_at + CONTEXT * (offset / PAGE) + offset % PAGE,
    }
}
