// The snapshots of the trials, written over zeros. Of six accounts, account 0 is the program and account 5 its slots; the others do
// not exist. The slots are what the buffer holds after the program's code.
ghost use Rattle.std.specs.Prelude.{◌+◌, ◌*◌, ◌≤◌, length};
ghost use Rattle.layout.specs.Snapshot.{header_size, entry_size, context_size};

use super::slots;
use layout::snapshot::{ACCOUNT_ENTRY, CONTEXT, CONTEXTS, SNAPSHOT_HEADER};
use snapshot::accounts::Account;
use words::numbers::write;

// Where the block contexts start: after the entries of six accounts.
const CONTEXTS_AT: usize = SNAPSHOT_HEADER + 6 * ACCOUNT_ENTRY;

// The length of the transaction.
const TRANSACTION: usize = 72;

// The length of the program's code: one instruction.
const CODE: usize = 4;

// The length of account 5's data.
pub const SLOTS: usize = 6000;

// The length of a snapshot with one block context and the slots.
pub const ONE_CONTEXT: usize = CONTEXTS_AT + CONTEXT + TRANSACTION + CODE + SLOTS;

// The length of a snapshot with the most block contexts and no slots.
pub const MOST_CONTEXTS: usize = CONTEXTS_AT + CONTEXT * CONTEXTS + TRANSACTION + CODE;

// Writes the header: six accounts, so many block contexts, and the offsets that these counts give.
fn write_header(snapshot: &mut [u8], contexts: u16)
    requires { header_size ≤ length snapshot.old }
{
    let transaction_at = CONTEXTS_AT + CONTEXT * usize::from(contexts);
    write(snapshot, 0, 4, 6);
    write(snapshot, 4, 4, u64::from(contexts));
    write(snapshot, 8, 4, TRANSACTION as u64);
    write(snapshot, 12, 4, SNAPSHOT_HEADER as u64);
    write(snapshot, 16, 4, CONTEXTS_AT as u64);
    write(snapshot, 20, 4, transaction_at as u64);
    write(snapshot, 24, 4, (transaction_at + TRANSACTION) as u64);
    write(snapshot, 28, 4, snapshot.len() as u64);
}

// Writes an account's entry: its flags, the owner 0, and where its data lies.
fn write_entry(snapshot: &mut [u8], account: Account, flags: u64, size: usize, start: usize)
    requires { header_size + entry_size * account.0 + entry_size ≤ length snapshot.old }
{
    let at = SNAPSHOT_HEADER + ACCOUNT_ENTRY * usize::from(account.0);
    write(snapshot, at, 4, flags);
    write(snapshot, at + 4, 4, size as u64);
    write(snapshot, at + 8, 4, start as u64);
}

// Writes a snapshot. Its last block context starts with how many there are.
pub fn write_snapshot(snapshot: &mut [u8], contexts: u16)
    requires { (1 ≤ contexts) × (header_size + 6 * entry_size + context_size * contexts + 76 ≤ length snapshot.old) }
{
    let transaction_at = CONTEXTS_AT + CONTEXT * usize::from(contexts);
    let code_at = transaction_at + TRANSACTION;
    let slots_at = code_at + CODE;
    write_header(snapshot, contexts);
    write_entry(snapshot, Account(0), 1, CODE, code_at);
    write_entry(snapshot, Account(5), 3, snapshot.len() - slots_at, slots_at);
    write(snapshot, transaction_at - CONTEXT, 4, u64::from(contexts));
    write(snapshot, code_at, 4, 0x13);
    slots::fill(&mut snapshot[slots_at..]);
}
