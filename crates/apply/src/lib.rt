// Applying a change list to an account's data.

#![tactic(auto)]

ghost use Rattle.std.specs.Prelude.{◌≡◌, true, ◌+◌, ◌^◌, ◌≤◌, ◌<◌, length};
ghost use Rattle.layout.specs.List.{change_at, change_size};
ghost use Rattle.choice.specs.Search.{every};
ghost use Rattle.refusal.specs.Checks.{need};
ghost use Rattle.refusal.specs.declared.Refusal.TheVariants.{BadList};
ghost use Rattle.apply.specs.Apply.{list_count, ascends, layout_exact, change_good, list_good, apply_entry, applied, apply_data};

use changes::entry::Change;
use layout::list::{LIST_HEADER, list_total, pages_at};
use layout::page::PAGE;
use pages::{live_bytes, page_start};
use refusal::Refusal;
use snapshot::accounts::Account;
use words::numbers::u32_at;
use words::runs::copy;

// Whether the header says exactly the layout that its count gives, and the list holds all of it.
#[tactic(auto, unfolding(crate::specs::Apply::layout_exact))]
fn layout_exact(l: &[u8]) -> bool
    ensures { result ≡ layout_exact l.now }
{
    if l.len() < LIST_HEADER {
        return false;
    }
    let n = u32_at(l, 0);
    u32_at(l, 4) == LIST_HEADER
        && u32_at(l, 8) == pages_at(n)
        && u32_at(l, 12) == list_total(n)
        && list_total(n) <= l.len()
}

// Whether entry i has a higher key than the one before it.
#[tactic(auto, unfolding(crate::specs::Apply::ascends))]
fn ascends(l: &[u8], i: usize) -> bool
    requires { (i < 2 ^ 32) × (change_at i + change_size ≤ length l.now) }
    ensures { result ≡ ascends l.now i }
{
    i == 0 || Change::read(l, i - 1).key() < Change::read(l, i).key()
}

// Whether entry i is in order, ends with a zero, and its live count is one that it may have.
#[tactic(auto, unfolding(crate::specs::Apply::change_good))]
fn change_good(l: &[u8], a: Account, size: usize, i: usize) -> bool
    requires { (i < 2 ^ 32) × (change_at i + change_size ≤ length l.now) }
    ensures { result ≡ change_good l.now a size i }
{
    let e = Change::read(l, i);
    ascends(l, i)
        && e.zero == 0
        && 1 <= e.live
        && e.live <= PAGE
        && (e.account != a || e.live == live_bytes(size, e.page))
}

// Whether every entry is good.
fn changes_good(l: &[u8], a: Account, size: usize) -> bool
    requires { layout_exact l.now ≡ true }
    ensures { result ≡ every (change_good l.now a size) (list_count l.now) }
{
    (0..u32_at(l, 0)).all(|i| change_good(l, a, size, i))
}

// Whether a list may be applied to data of that size.
#[tactic(auto, unfolding(crate::specs::Apply::list_good))]
fn list_good(l: &[u8], a: Account, size: usize) -> bool
    ensures { result ≡ list_good l.now a size }
{
    layout_exact(l) && changes_good(l, a, size)
}

// Replaces the page of entry i by its live bytes, where the entry is this account's.
fn apply_entry(l: &[u8], a: Account, data: &mut [u8], i: usize)
    requires l_value { (layout_exact l.now ≡ true) × (i < list_count l.now) }
    requires i_value { change_good l.now a (length «data».old) i ≡ true }
    ensures { «data».new ≡ apply_entry l.now a «data».old i }
{
    let e = Change::read(l, i);
    if e.account == a {
        let n = u32_at(l, 0);
        copy(data, page_start(e.page), l, pages_at(n) + PAGE * i, e.live);
    }
}

// Replaces the page of every entry of this account.
fn apply_entries(l: &[u8], a: Account, data: &mut [u8])
    requires { list_good l.now a (length «data».old) ≡ true }
    ensures { «data».new ≡ applied l.now a «data».old (list_count l.now) }
{
    for i in 0..u32_at(l, 0) {
        apply_entry(l, a, data, i);
    }
}

// Applies a change list to an account's data. A bad list changes no byte.
#[tactic(auto, unfolding(crate::specs::Apply::apply_data, refusal::specs::Checks::need))]
pub fn apply(l: &[u8], a: Account, data: &mut [u8]) -> Result<(), Refusal>
    ensures value { result ≡ need (list_good l.now a (length «data».old)) BadList }
    ensures data_after { «data».new ≡ apply_data l.now a «data».old }
{
    if !list_good(l, a, data.len()) {
        return Err(Refusal::BadList);
    }
    apply_entries(l, a, data);
    Ok(())
}
