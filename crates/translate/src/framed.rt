// Where a byte stands whose page may be in a frame: account data and the regions.
ghost use Rattle.std.specs.Prelude.{◌≡◌, true, ◌<◌};
ghost use Rattle.layout.specs.Address.{offsets};
ghost use Rattle.control.specs.Control.{control_valid};
ghost use Rattle.frames.specs.Table.{free_frame};
ghost use Rattle.frames.specs.declared.claim.End.TheVariants.{Highest};
ghost use Rattle.translate.specs.Translate.{copy_place, data_place, region_place};

use super::place::{NewCopy, Place};
use control::header::{frame_count, invocation_count};
use control::shadow::Region;
use frame_search::finding::{free_frame, lowest_copy, lowest_page};
use frames::claim::End;
use frames::table::frame_entry;
use pages::{Frame, in_frame, page_of};
use refusal::Refusal;
use segments::kinds::is_store;
use snapshot::accounts::Account;

// The frame that would be taken for a copy of the page, the highest that is free, or that there is none.
fn copy_place(c: &[u8], a: Account, offset: usize) -> Result<Place, Refusal>
    requires { (control_valid c.now ≡ true) × (offset < offsets) }
    ensures { result ≡ copy_place a offset (free_frame Highest c.now) }
{
    match free_frame(c, End::Highest) {
        Some(f) => Ok(Place::Take(NewCopy {
            at: in_frame(f, offset),
            frame: f,
            account: a,
            page: page_of(offset),
        })),
        None => Err(Refusal::NoFrame),
    }
}

// Where an account's byte stands now: in the page's frame, else where the snapshot has it, or for a store in a frame to be taken. The search
// is asked for a number, which needs no taking apart.
pub fn data_place(
    c: &[u8],
    kind: u8,
    a: Account,
    offset: usize,
    at: usize,
) -> Result<Place, Refusal>
    requires { (control_valid c.now ≡ true) × (offset < offsets) }
    ensures { result ≡ data_place c.now kind a offset at }
{
    let frames = frame_count(c);
    let i = lowest_copy(c, frames, a, page_of(offset));
    if i < frames {
        return Ok(Place::InPool(in_frame(Frame(i as u16), offset)));
    }
    if is_store(kind) {
        return copy_place(c, a, offset);
    }
    Ok(Place::InSnapshot(at))
}

// Where a region's byte stands: in the page's frame, if the frame's tag lets the kind pass.
#[tactic(auto, using(control::proofs::Facts::control_facts, frames::proofs::Claims::search_found, frames::proofs::Claims::search_none), unfolding(crate::specs::Translate::region_place))]
pub fn region_place(c: &[u8], r: Region, kind: u8, offset: usize) -> Result<Place, Refusal>
    requires { (control_valid c.now ≡ true) × (offset < offsets) }
    ensures { result ≡ region_place c.now r kind offset }
{
    let depth = invocation_count(c) - 1;
    let frames = frame_count(c);
    let i = lowest_page(c, frames, r, page_of(offset));
    if frames <= i {
        return Err(Refusal::Invalid);
    }
    let f = Frame(i as u16);
    if is_store(kind) {
        if (frame_entry(c, f).tag as usize) < depth {
            return Err(Refusal::NotPermitted);
        }
    }
    Ok(Place::InPool(in_frame(f, offset)))
}
