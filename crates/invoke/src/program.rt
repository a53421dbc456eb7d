// Whether an account can be run.
ghost use Rattle.std.specs.Prelude.{◌≡◌, true};
ghost use Rattle.snapshot.specs.Header.{snapshot_valid};
ghost use Rattle.invoke.specs.Invoke.{program_check};

use refusal::Refusal;
use snapshot::accounts::Account;
use snapshot::lookup::look_up;

// The account is below the account count, its entry is valid, and it exists.
pub fn program_check(s: &[u8], a: Account) -> Result<(), Refusal>
    requires { snapshot_valid s.now ≡ true }
    ensures { result ≡ program_check s.now a }
{
    let entry = look_up(s, a)?;
    if entry.exists() {
        Ok(())
    } else {
        Err(Refusal::NoSegment)
    }
}
