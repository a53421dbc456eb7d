// The change list, its application and the page view.
#![tactic(auto, using(crate::proofs::Named::view_number_lem, crate::proofs::Named::view_bytes_lem), unfolding(crate::specs::Steps::step_of, changes::specs::List::change_list_number, apply::specs::Apply::apply_number))]

ghost use Rattle.std.specs.Prelude.{◌≡◌};
ghost use Rattle.apply.specs.Apply.{apply_number, apply_data};
ghost use Rattle.view.specs.View.{view_of};
ghost use Rattle.hekthumar.specs.Steps.{change_list, page_view, lent};
ghost use Rattle.hekthumar.specs.Answers.{view_answer, viewed};

use apply::apply;
use changes::list::change_list;
use pages::Page;
use refusal::{DONE, Refusal, number};
use snapshot::accounts::Account;
use view::{View, find_view};

// The part of a buffer that holds a page's live bytes: holder 0 none, 1 snapshot, 2 pool.
#[repr(C)]
#[derive(Clone, Copy)]
pub struct ViewAnswer {
    pub start: u64,
    pub length: u64,
    pub holder: u8,
    pub number: u8,
}

impl From<Result<View, Refusal>> for ViewAnswer {
    ghost from_gives = { λ view answer. answer ≡ view_answer view };

    fn from(view: Result<View, Refusal>) -> ViewAnswer {
        match view {
            Ok(View::InSnapshot(at, n)) => ViewAnswer {
                start: at as u64,
                length: n as u64,
                holder: 1,
                number: DONE,
            },
            Ok(View::InPool(at, n)) => ViewAnswer {
                start: at as u64,
                length: n as u64,
                holder: 2,
                number: DONE,
            },
            Err(refusal) => ViewAnswer {
                start: 0,
                length: 0,
                holder: 0,
                number: refusal.number(),
            },
        }
    }
}

// Writes the change list into the lent buffer.
pub fn hekthumar_change_list(snapshot: &[u8], control: &[u8], pool: &[u8], out: &mut [u8]) -> u8
    ensures value { result ≡ (lent snapshot.now control.now pool.now (change_list out.old)).answer.number }
    ensures out_after { out.new ≡ (lent snapshot.now control.now pool.now (change_list out.old)).answer.bytes }
    ensures control_value { control.now ≡ (lent snapshot.now control.now pool.now (change_list out.old)).after.control }
    ensures pool_value { pool.now ≡ (lent snapshot.now control.now pool.now (change_list out.old)).after.pool }
{
    number(change_list(snapshot, control, pool, out))
}

// Applies a change list to an account's data.
pub fn hekthumar_apply(list: &[u8], account: u16, data: &mut [u8]) -> u8
    ensures value { result ≡ apply_number list.now (record { 0 = account }) «data».old }
    ensures data_after { «data».new ≡ apply_data list.now (record { 0 = account }) «data».old }
{
    number(apply(list, Account(account), data))
}

// Where an account page's live bytes lie now.
pub fn hekthumar_page_view(
    snapshot: &[u8],
    control: &[u8],
    pool: &[u8],
    account: u16,
    page: u16,
) -> ViewAnswer
    ensures value { result ≡ view_answer (view_of snapshot.now control.now pool.now (record { 0 = account }) (record { 0 = page })) }
    ensures number_value { result.number ≡ (lent snapshot.now control.now pool.now (page_view (record { 0 = account }) (record { 0 = page }))).answer.number }
    ensures result_value { viewed snapshot.now pool.now result ≡ (lent snapshot.now control.now pool.now (page_view (record { 0 = account }) (record { 0 = page }))).answer.bytes }
    ensures control_value { control.now ≡ (lent snapshot.now control.now pool.now (page_view (record { 0 = account }) (record { 0 = page }))).after.control }
    ensures pool_value { pool.now ≡ (lent snapshot.now control.now pool.now (page_view (record { 0 = account }) (record { 0 = page }))).after.pool }
{
    ViewAnswer::from(find_view(snapshot, control, pool, Account(account), Page(page)))
}
