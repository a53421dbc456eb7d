// Whether the three lent buffers are valid together: the first test of every call but begin's.
ghost use Rattle.std.specs.Prelude.{◌≡◌, true};
ghost use Rattle.control.specs.Control.{control_valid, current_valid, control_ready, buffers_valid};

use super::header::{frame_count, invocation_count, valid};
use super::shadow::invocation_at;
use layout::page::{PAGE, REGION};
use snapshot::header::whole_header;

// Whether the current invocation names a program below the account count and has at most the most pages of each region.
#[tactic(auto, using(crate::proofs::Facts::control_facts), unfolding(crate::specs::Control::current_valid))]
pub fn current_valid(c: &[u8], accounts: usize) -> bool
    requires { control_valid c.now ≡ true }
    ensures { result ≡ current_valid c.now accounts }
{
    let i = invocation_at(c, invocation_count(c));
    usize::from(i.program.0) < accounts
        && usize::from(i.stack) <= REGION
        && usize::from(i.heap) <= REGION
}

// Whether the control block, the pool's length and the current invocation keep their rules, with so many accounts.
#[tactic(auto, using(crate::proofs::Facts::control_facts), unfolding(crate::specs::Control::control_ready))]
pub fn control_ready(c: &[u8], pool: &[u8], accounts: usize) -> bool
    ensures { result ≡ control_ready c.now pool.now accounts }
{
    valid(c) && pool.len() == PAGE * frame_count(c) && current_valid(c, accounts)
}

// Whether headers, buffer lengths and the current invocation keep their rules.
#[tactic(auto, using(snapshot::proofs::Facts::snapshot_facts), unfolding(crate::specs::Control::buffers_valid))]
pub fn buffers_valid(s: &[u8], c: &[u8], pool: &[u8]) -> bool
    ensures { result ≡ buffers_valid s.now c.now pool.now }
{
    snapshot::header::valid(s) && control_ready(c, pool, whole_header(s).accounts)
}
