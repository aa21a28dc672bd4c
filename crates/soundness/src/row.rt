// Whether every process number stands in the row exactly once.
ghost use Rattle.std.specs.Prelude.{◌≡◌, ℕ, ◌+◌, ◌<◌, get_or};
ghost use Rattle.tables.specs.Limits.{process_limit};
ghost use Rattle.tables.specs.Test.{once_each};
ghost use Rattle.layout.specs.Offsets.{order_at};
ghost use Rattle.layout.specs.Bytes.{from_bytes};

use layout::offsets::{NEXT_SEMAPHORE, ORDER, SIZE};
use tables::Tables;

// A bit for each process.
const EVERYBODY: u32 = ((1u64 << Tables::PROCESSES) - 1) as u32;

// As many places as there are bits fill them only if no number stands twice. Of the places alone, and so no `Formed`.
pub fn once_each(bytes: &[u8; SIZE]) -> bool
    requires { (i : ℕ) → i < process_limit → get_or bytes.now (order_at + i) 0 < process_limit }
    ensures { result ≡ once_each (from_bytes bytes.now).order }
{
    let mut seen = 0u32;
    for place in &bytes[ORDER..NEXT_SEMAPHORE] {
        seen |= 1 << *place;
    }
    seen == EVERYBODY
}
