// Whether the ready list falls.
ghost use Rattle.std.specs.Prelude.{◌≡◌, ℕ, ◌+◌, ◌-◌, ◌<◌, ◌≤◌, get_or};
ghost use Rattle.lists.specs.Lists.{falls};
ghost use Rattle.tables.specs.Limits.{priority_limit, process_limit};
ghost use Rattle.tables.specs.Readers.{priority_of, ready_list};
ghost use Rattle.layout.specs.Offsets.{order_at, priorities_at};
ghost use Rattle.layout.specs.Bytes.{from_bytes};
ghost use Rattle.soundness.specs.Keys.{key_from, key_of, latest_of};

use layout::offsets::{NEXT_SEMAPHORE, ORDER, PRIORITIES, SIZE, STATES};
use layout::state::READY;
use std::array;
use tables::Tables;

// A ready process as its priority and one, any other as 0.
fn key(state: u8, priority: u8) -> u8
    requires { priority ≤ priority_limit }
    ensures { result ≡ key_from state priority }
{
    if state == READY {
        return priority + 1;
    }
    0
}

// The keys in the order of the slots, so that they are made many at a time.
pub fn keys(bytes: &[u8; SIZE]) -> [u8; Tables::PROCESSES]
    requires { (p : ℕ) → p < process_limit → get_or bytes.now (priorities_at + p) 0 ≤ priority_limit }
    ensures { (p : ℕ) → p < process_limit → get_or result p 0 ≡ key_of bytes.now p }
{
    array::from_fn(|i| key(bytes[STATES + i], bytes[PRIORITIES + i]))
}

// The key before the next one: that of the last ready process. In words, which the machine chooses between without widening bytes first.
fn latest(last: u32, v: u32) -> u32
    ensures { result ≡ latest_of last v }
{
    if v == 0 {
        return last;
    }
    v
}

// No key above `top`, nor above that of the ready process before it. Only unsound tables take the branch, so it is guessed right. Of places and keys alone, and so no `Formed`.
pub fn ready_falls(bytes: &[u8; SIZE], k: &[u8; Tables::PROCESSES], top: u32) -> bool
    requires { ((i : ℕ) → i < process_limit → get_or bytes.now (order_at + i) 0 < process_limit) × ((p : ℕ) → p < process_limit → get_or k.now p 0 ≡ key_of bytes.now p) × (0 < top) }
    ensures { result ≡ falls (priority_of (from_bytes bytes.now)) (top - 1) (ready_list (from_bytes bytes.now)) }
{
    let mut last = top;
    for place in &bytes[ORDER..NEXT_SEMAPHORE] {
        let v = k[*place as usize] as u32;
        if last < v {
            return false;
        }
        last = latest(last, v);
    }
    true
}
