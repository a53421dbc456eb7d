// The tests of an access in their order, on plain numbers.
ghost use Rattle.std.specs.Prelude.{◌≡◌, true, ◌+◌, ◌-◌, ◌<◌};
ghost use Rattle.layout.specs.Address.{offsets};
ghost use Rattle.segments.specs.Kinds.{request_valid};
ghost use Rattle.translate.specs.Checks.{first_checks, row_checks};

use super::request::Request;
use address::Address;
use layout::address::ADDRESSES;
use refusal::Refusal;
use segments::kinds::{aligned, request_valid, within};

// The tests before the segment is known: the buffers, the request, the upper bits.
#[tactic(auto, using(refusal::proofs::Checks::need_on, refusal::proofs::Checks::need_stop, refusal::proofs::Checks::need_last, refusal::proofs::Checks::need_refused), unfolding(crate::specs::Checks::first_checks))]
pub fn first_checks(buffers: bool, kind: u8, a: Address, n: usize) -> Result<(), Refusal>
    ensures { result ≡ first_checks buffers kind a.0 n }
{
    if !buffers {
        return Err(Refusal::Invalid);
    }
    if !request_valid(kind, n) {
        return Err(Refusal::BadRequest);
    }
    if a.0 >= ADDRESSES {
        return Err(Refusal::BadAddress);
    }
    Ok(())
}

// The tests once the segment is known, up to presence: the account's entry, alignment, permission, the page's end, presence.
#[tactic(auto, using(refusal::proofs::Checks::need_on, refusal::proofs::Checks::need_stop, refusal::proofs::Checks::need_last, refusal::proofs::Checks::need_refused, segments::proofs::Requests::request_length), unfolding(crate::specs::Checks::row_checks))]
pub fn row_checks(entry: bool, permitted: bool, q: Request, end: usize) -> Result<(), Refusal>
    requires { (request_valid q.kind q.length ≡ true) × (q.offset < offsets) }
    ensures { result ≡ row_checks entry permitted q end }
{
    if !entry {
        return Err(Refusal::Invalid);
    }
    if !aligned(q.kind, q.offset, q.length) {
        return Err(Refusal::Misaligned);
    }
    if !permitted {
        return Err(Refusal::NotPermitted);
    }
    if !within(q.offset, q.length) {
        return Err(Refusal::Crossing);
    }
    if q.offset + q.length > end {
        return Err(Refusal::Absent(end.saturating_sub(q.offset)));
    }
    Ok(())
}
