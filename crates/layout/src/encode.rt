// Typed tables written to lent bytes.
ghost use Rattle.std.specs.Prelude.{◌≡◌, ◌-◌, ◌/◌, ◌<◌, ◌≤◌};
ghost use Rattle.std.specs.Int.{w32};
ghost use Rattle.std.proofs.Common.{SFits};
ghost use Rattle.tables.specs.Readers.{count_of};
ghost use Rattle.tables.specs.Counts.{CountsFit};
ghost use Rattle.layout.specs.Offsets.{counts_at, order_at, size};
ghost use Rattle.layout.specs.Bytes.{byte_of, to_bytes};

use crate::offsets::{COUNTS, NEXT_PROCESS, NEXT_SEMAPHORE, ORDER, PRIORITIES, SIZE, STATES, USED};
use crate::state::state_byte;
use crate::word::count_byte;
use std::array;
use tables::Tables;

// That a count fits its type is handed on, since it is learnt only as the count is read.
fn byte_of(t: &Tables, i: usize) -> u8
    requires { i < size }
    ensures byte { result ≡ byte_of t.now i }
    ensures fits { counts_at ≤ i → i < order_at → SFits w32 (count_of t.now ((i - counts_at) / 4)) }
{
    match i {
        STATES..PRIORITIES => state_byte(t.processes[i - STATES].state),
        PRIORITIES..USED => t.processes[i - PRIORITIES].priority,
        USED..COUNTS => u8::from(t.semaphores[i - USED].used),
        COUNTS..ORDER => count_byte(t.semaphores[(i - COUNTS) / 4].count, (i - COUNTS) % 4),
        ORDER..NEXT_SEMAPHORE => t.order[i - ORDER],
        NEXT_SEMAPHORE..NEXT_PROCESS => t.next_semaphore,
        _ => t.next_process,
    }
}

// Field by field, since the match of `byte_of` falls away where the field is known: by one `from_fn` over all bytes, which tests at each whose it is, a call by value took 1.4 to 2.2 times as long.
pub fn encode(bytes: &mut [u8; SIZE], t: Tables)
    ensures { (bytes.new ≡ to_bytes t) × CountsFit t }
{
    let states: [u8; Tables::PROCESSES] = array::from_fn(|i| byte_of(&t, STATES + i));
    let priorities: [u8; Tables::PROCESSES] = array::from_fn(|i| byte_of(&t, PRIORITIES + i));
    let used: [u8; Tables::SEMAPHORES] = array::from_fn(|i| byte_of(&t, USED + i));
    let counts: [u8; 4 * Tables::SEMAPHORES] = array::from_fn(|i| byte_of(&t, COUNTS + i));
    let order: [u8; Tables::PROCESSES] = array::from_fn(|i| byte_of(&t, ORDER + i));
    bytes[STATES..PRIORITIES].copy_from_slice(&states);
    bytes[PRIORITIES..USED].copy_from_slice(&priorities);
    bytes[USED..COUNTS].copy_from_slice(&used);
    bytes[COUNTS..ORDER].copy_from_slice(&counts);
    bytes[ORDER..NEXT_SEMAPHORE].copy_from_slice(&order);
    bytes[NEXT_SEMAPHORE] = byte_of(&t, NEXT_SEMAPHORE);
    bytes[NEXT_PROCESS] = byte_of(&t, NEXT_PROCESS);
}
