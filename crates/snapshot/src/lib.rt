// The snapshot: the read-only buffer that every call is lent. It holds the accounts' entries, the block
// contexts, the transaction and the accounts' data. Functions that begin `whole_` read bytes that their callers know to be there.

#![tactic(auto)]

pub mod accounts;
pub mod header;
pub mod lookup;
