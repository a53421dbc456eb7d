// Where translation says that the bytes of an access stand.
use pages::{Frame, Page};
use snapshot::accounts::Account;

// A frame that is to be taken for a copy of an account's page, and where the access's first byte stands in the pool then.
#[derive(Clone, Copy)]
pub struct NewCopy {
    pub at: usize,
    pub frame: Frame,
    pub account: Account,
    pub page: Page,
}

// Where the first byte of an access stands.
#[derive(Clone, Copy)]
pub enum Place {
    // in the snapshot, from its start
    InSnapshot(usize),
    // in the control block, from its start
    InControl(usize),
    // nowhere: every byte is 0
    Zeros,
    // in the pool, from its start
    InPool(usize),
    // in the pool once a copy is made
    Take(NewCopy),
}
