// The boot tables, written where they are lent.
ghost use Rattle.std.specs.Prelude.{◌≡◌};
ghost use Rattle.tables.specs.Boot.{boot};
ghost use Rattle.layout.specs.Bytes.{to_bytes};
ghost use Rattle.cottonsedge.specs.Entries.{boot_answer, booted};

use layout::offsets::{NEXT_PROCESS, NEXT_SEMAPHORE, ORDER, SIZE, STATES};
use layout::state::CURRENT;
use rules::Refusal;

// Process 0 is current, every other slot and every semaphore is free, the process numbers rise. In place: an encoded `Tables::boot()` takes 2504 bytes of stack, where docs/FIRMWARE.md has less than 1 KiB, and this 24.
fn put_boot(bytes: &mut [u8; SIZE])
    ensures { bytes.new ≡ to_bytes boot }
{
    bytes.fill(0);
    bytes[STATES] = CURRENT;
    for (i, place) in bytes[ORDER..NEXT_SEMAPHORE].iter_mut().enumerate() {
        *place = i as u8;
    }
    bytes[NEXT_PROCESS] = 1;
}

// 0 with the boot tables written, or 15 with nothing written if the length is wrong: a number, as C has it.
#[tactic(auto, unfolding(crate::specs::Entries::boot_answer, crate::specs::Entries::booted))]
pub fn cottonsedge_boot(tables: &mut [u8]) -> u8
    ensures { (result ≡ boot_answer tables.old) × (tables.new ≡ booted tables.old) }
{
    match tables.as_mut_array() {
        Some(bytes) => {
            put_boot(bytes);
            0
        }
        None => Refusal::NotSound.into(),
    }
}
