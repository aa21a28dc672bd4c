// Who runs.
ghost use Rattle.std.specs.Prelude.{◌≡◌, true};
ghost use Rattle.tables.specs.States.{is_current};
ghost use Rattle.layout.specs.Bytes.{from_bytes};
ghost use Rattle.soundness.specs.Laid.{laid_clauses};
ghost use Rattle.soundness.specs.Running.{sole_of, weight_of};

use layout::offsets::{PRIORITIES, SIZE, STATES};
use layout::state::CURRENT;
use queues::formed::Formed;
use tables::Tables;

// What one current process adds beside its number.
const ONE: u16 = Tables::PROCESSES as u16;

// Each current process adds ONE and its number, so that one alone adds less than twice ONE. In one sum there is no branch to guess wrong.
// Tried: filtered and folded as a chain, 129 ns a check where this takes 99.
fn weight(bytes: &[u8; SIZE]) -> u16
    ensures { result ≡ weight_of (from_bytes bytes.now) is_current }
{
    let mut sum = 0u16;
    for (i, state) in bytes[STATES..PRIORITIES].iter().enumerate() {
        if *state == CURRENT {
            sum += ONE + i as u16;
        }
    }
    sum
}

// Of laid tables: the one that is current, if just one is.
pub fn sole(f: Formed) -> Option<u8>
    requires { laid_clauses (from_bytes f.bytes.now) ≡ true }
    ensures { result ≡ sole_of (from_bytes f.entry.bytes.now) }
{
    let w = weight(f.bytes);
    if ONE <= w && w < 2 * ONE {
        Some((w - ONE) as u8)
    } else {
        None
    }
}
