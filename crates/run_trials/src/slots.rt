// The data of account 5, and how much of it differs from what the snapshot holds.
ghost use Rattle.std.specs.Prelude.{◌≡◌, ℕ, ◌%◌, ◌≤◌, ◌<◌, length, get_or};

// Byte i as the snapshot holds it.
fn original(i: usize) -> u8
    ensures { result ≡ i % 251 }
{
    (i % 251) as u8
}

// Fills a buffer with the original bytes.
pub fn fill(slots: &mut [u8])
    ensures { (i : ℕ) → i < length slots.new → get_or slots.new i 0 ≡ i % 251 }
{
    for (i, byte) in slots.iter_mut().enumerate() {
        *byte = original(i);
    }
}

// How many bytes are not the original ones.
pub fn changed(slots: &[u8]) -> usize
    ensures { result ≤ length slots.now }
{
    slots
        .iter()
        .enumerate()
        .filter(|(i, byte)| **byte != original(*i))
        .count()
}
