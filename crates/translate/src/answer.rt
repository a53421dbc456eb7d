// What was sought, answered: the row's tests, then the place of the first byte. The three kinds of rows are told apart before the tests, which
// all make by one function: told apart after them, every number that was sought went through memory.
ghost use Rattle.std.specs.Prelude.{◌≡◌, true, ◌<◌, Ok};
ghost use Rattle.layout.specs.Address.{offsets};
ghost use Rattle.control.specs.Control.{control_valid};
ghost use Rattle.segments.specs.Kinds.{request_valid};
ghost use Rattle.translate.specs.Translate.{indexed, buffer_place, data_place, region_place, tested, answer_of};

use super::checks::row_checks;
use super::framed::{data_place, region_place};
use super::place::Place;
use super::request::Request;
use super::sought::{Buffer, Sought, Source};
use control::shadow::Region;
use refusal::Refusal;
use snapshot::accounts::Account;

// The place in a buffer.
fn buffer_place(b: Buffer, at: usize) -> Place
    ensures { result ≡ buffer_place b at }
{
    match b {
        Buffer::Snapshot => Place::InSnapshot(at),
        Buffer::Control => Place::InControl(at),
        Buffer::Zeros => Place::Zeros,
    }
}

// A row whose bytes stand in one buffer.
fn in_buffer(b: Buffer, q: Request, x: Sought) -> Result<Place, Refusal>
    requires { (request_valid q.kind q.length ≡ true) × (q.offset < offsets) }
    ensures { result ≡ tested q x (Ok (buffer_place b x.at)) }
{
    row_checks(x.entry, x.permitted, q, x.end)?;
    Ok(buffer_place(b, x.at))
}

// Account data.
fn in_data(c: &[u8], q: Request, x: Sought) -> Result<Place, Refusal>
    requires { (control_valid c.now ≡ true) × (request_valid q.kind q.length ≡ true) × (q.offset < offsets) }
    ensures { result ≡ tested q x (data_place c.now q.kind (indexed q) q.offset x.at) }
{
    row_checks(x.entry, x.permitted, q, x.end)?;
    data_place(c, q.kind, Account(q.index), q.offset, x.at)
}

// Stack or heap.
fn in_region(c: &[u8], region: Region, q: Request, x: Sought) -> Result<Place, Refusal>
    requires { (control_valid c.now ≡ true) × (request_valid q.kind q.length ≡ true) × (q.offset < offsets) }
    ensures { result ≡ tested q x (region_place c.now region q.kind q.offset) }
{
    row_checks(x.entry, x.permitted, q, x.end)?;
    region_place(c, region, q.kind, q.offset)
}

// By where the bytes stand.
pub fn answer(c: &[u8], q: Request, x: Sought) -> Result<Place, Refusal>
    requires { (control_valid c.now ≡ true) × (request_valid q.kind q.length ≡ true) × (q.offset < offsets) }
    ensures { result ≡ answer_of c.now q x }
{
    let source = x.source;
    match source {
        Source::Plain(b) => in_buffer(b, q, x),
        Source::Copy => in_data(c, q, x),
        Source::Region(r) => in_region(c, r, q, x),
    }
}
