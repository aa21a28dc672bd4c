// Whether the bytes say anything at all.
ghost use Rattle.std.specs.Prelude.{◌≡◌, ◌&&◌, MatchOption, false};
ghost use Rattle.lists.specs.Numbers.{all};
ghost use Rattle.tables.specs.Limits.{process_limit, semaphore_limit};
ghost use Rattle.layout.specs.Bytes.{state_named, flag_plain, place_named, well_formed};

use layout::offsets::{COUNTS, NEXT_SEMAPHORE, ORDER, PRIORITIES, SIZE, STATES, USED};
use layout::state::WAITING;
use queues::formed::Formed;
use tables::Tables;

// Each state names a state, each place of the row a process: both in one loop, since the row's bytes alone would be read one at a time.
fn both_named(bytes: &[u8; SIZE]) -> bool
    ensures { result ≡ all process_limit (λ i. state_named bytes.now i && place_named bytes.now i) }
{
    let places = &bytes[ORDER..NEXT_SEMAPHORE];
    bytes[STATES..PRIORITIES]
        .iter()
        .zip(places)
        .fold(true, |ok, (state, place)| {
            ok & ((*state < WAITING + Tables::SEMAPHORES as u8)
                & (*place < Tables::PROCESSES as u8))
        })
}

// A fold, as in the other tests of all: `all`, which may stop at each byte, takes 148 ns a check where this takes 99.
fn flags_plain(bytes: &[u8; SIZE]) -> bool
    ensures { result ≡ all semaphore_limit (flag_plain bytes.now) }
{
    bytes[USED..COUNTS]
        .iter()
        .fold(true, |ok, flag| ok & (*flag < 2))
}

// The bytes, if they are well formed. The flags are looked at only where the rest is named, so that others are refused sooner.
pub fn formed(bytes: &[u8]) -> Option<Formed>
    ensures { MatchOption result (well_formed bytes.now ≡ false) (λ f. f.bytes.now ≡ bytes.now) }
{
    let bytes: &[u8; SIZE] = bytes.as_array()?;
    if both_named(bytes) && flags_plain(bytes) {
        Some(Formed { bytes })
    } else {
        None
    }
}

pub fn well_formed(bytes: &[u8]) -> bool
    ensures { result ≡ well_formed bytes.now }
{
    formed(bytes).is_some()
}
