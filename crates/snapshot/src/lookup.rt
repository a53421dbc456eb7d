// An account looked up by its number.
ghost use Rattle.std.specs.Prelude.{◌≡◌, true};
ghost use Rattle.snapshot.specs.Header.{snapshot_valid};
ghost use Rattle.snapshot.specs.Lookup.{look_up};

use super::accounts::{Account, AccountEntry, whole_account_entry};
use super::header::whole_header;
use refusal::Refusal;

// The entry of an account: its number is below the account count, and its entry is valid.
pub fn look_up(s: &[u8], a: Account) -> Result<AccountEntry, Refusal>
    requires { snapshot_valid s.now ≡ true }
    ensures { result ≡ look_up s.now a }
{
    let h = whole_header(s);
    if usize::from(a.0) < h.accounts {
        let e = whole_account_entry(s, a);
        if e.valid(h.data_at, h.total) {
            return Ok(e);
        }
        return Err(Refusal::Invalid);
    }
    Err(Refusal::NoSegment)
}
