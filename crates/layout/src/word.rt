// A count as four bytes, read and written where it begins.
ghost use Rattle.std.specs.Prelude.{◌≡◌, ◌<◌, ◌+◌, ◌*◌};
ghost use Rattle.std.specs.Int.{w32};
ghost use Rattle.std.proofs.Common.{of_z};
ghost use Rattle.tables.specs.Limits.{semaphore_limit};
ghost use Rattle.layout.specs.Offsets.{counts_at};
ghost use Rattle.layout.specs.Bytes.{count_at, word_byte};
ghost use Rattle.layout.specs.Stands.{store4};

use crate::number::SemaphoreNumber;
use crate::offsets::{COUNTS, SIZE};

// By an index, as the loops over all semaphores have it.
pub fn count_at(bytes: &[u8; SIZE], s: usize) -> i32
    requires { s < semaphore_limit }
    ensures { result ≡ count_at bytes.now s }
{
    let k = COUNTS + s * 4;
    i32::from_le_bytes([bytes[k], bytes[k + 1], bytes[k + 2], bytes[k + 3]])
}

// Byte `d` of a count, by a shift: `to_le_bytes()[d]` would store all four to load one.
pub(crate) fn count_byte(count: i32, d: usize) -> u8
    requires { d < 4 }
    ensures { result ≡ word_byte (of_z w32 count) d }
{
    ((count.cast_unsigned() >> (8 * d)) % 256) as u8
}

pub(crate) fn put_count_at(bytes: &mut [u8; SIZE], s: SemaphoreNumber, count: i32)
    ensures { bytes.new ≡ store4 bytes.old (counts_at + s.number * 4) (of_z w32 count) }
{
    let k = COUNTS + s.number as usize * 4;
    bytes[k..k + 4].copy_from_slice(&count.to_le_bytes());
}
