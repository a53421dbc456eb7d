// The segment's row is found, its tests are made, and the place of its first byte is named.
ghost use Rattle.std.specs.Prelude.{◌≡◌};
ghost use Rattle.translate.specs.Translate.{Ready, Named, in_row, translate_of};

use super::answer::answer;
use super::checks::first_checks;
use super::place::Place;
use super::request::Request;
use super::sought::sought_of;
use address::Address;
use control::buffers::control_ready;
use control::header::edition_of;
use refusal::Refusal;
use segments::rules::{Row, segment_of};
use snapshot::header::{valid, whole_header};

// An access in the segment of a row: what the row asks is sought, and answered.
fn in_row(s: &[u8], c: &[u8], row: Row, q: Request) -> Result<Place, Refusal>
    requires ready { Ready s.now c.now q }
    requires named { Named s.now row.presence q }
    ensures { result ≡ in_row s.now c.now row.presence row.fetch row.store q }
{
    let presence = row.presence;
    let fetch = row.fetch;
    let store = row.store;
    let x = sought_of(s, c, presence, fetch, store, q);
    answer(c, q, x)
}

// From an address to a place, or to the first refusal in order. `kind` is that of the access and n its length.
pub fn translate(
    s: &[u8],
    c: &[u8],
    pool: &[u8],
    kind: u8,
    a: Address,
    n: usize,
) -> Result<Place, Refusal>
    ensures { result ≡ translate_of s.now c.now pool.now kind a.0 n }
{
    if !valid(s) {
        return Err(Refusal::Invalid);
    }
    let h = whole_header(s);
    first_checks(control_ready(c, pool, h.accounts), kind, a, n)?;
    let index = a.index();
    let found = segment_of(edition_of(c), a.segment_type(), index, h.accounts);
    let Some(row) = found else {
        return Err(Refusal::NoSegment);
    };
    in_row(
        s,
        c,
        row,
        Request {
            kind,
            index,
            offset: a.offset() as usize,
            length: n,
        },
    )
}
