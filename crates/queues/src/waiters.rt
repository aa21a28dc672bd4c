// How many wait on each semaphore.
ghost use Rattle.std.specs.Prelude.{◌≡◌, ◌+◌, ◌<◌};
ghost use Rattle.tables.specs.Limits.{semaphore_limit};
ghost use Rattle.layout.specs.Bytes.{from_bytes, waiting_from};
ghost use Rattle.queues.specs.Tallies.{Tallied, cell_limit, cell_of, half_limit};

use crate::formed::Formed;
use layout::offsets::STATES;
use layout::state::WAITING;
use tables::Tables;

// Processes that a tally is of: two tallies, so that many waiters on one semaphore don't all wait for each other.
const HALF: usize = Tables::PROCESSES / 2;

// A cell for each semaphore, and past them a spare one for each process of a tally.
pub const CELLS: usize = Tables::SEMAPHORES + HALF;

// Where process i of a tally adds one: at its semaphore, or at its spare cell, so that there is no branch to guess wrong.
fn cell(i: usize, state: u8) -> usize
    requires { (i < half_limit) × (state < waiting_from + semaphore_limit) }
    ensures { (result < cell_limit) × (result ≡ cell_of i state) }
{
    if state < WAITING {
        return Tables::SEMAPHORES + i;
    }
    (state - WAITING) as usize
}

// The first half of the processes in `many`, the second in `more`. In place: an array handed back would be copied out of the cells just written.
// Tried: both halves zipped, 104 ns a check, and one tally a call, 105 (116 where 31 wait on one semaphore), where this takes 99 (100).
pub fn tally(many: &mut [u8; CELLS], more: &mut [u8; CELLS], f: Formed)
    requires { Tallied (from_bytes f.bytes.now) 0 0 many.old × Tallied (from_bytes f.bytes.now) half_limit 0 more.old }
    ensures { Tallied (from_bytes f.entry.bytes.now) 0 half_limit many.new × Tallied (from_bytes f.entry.bytes.now) half_limit half_limit more.new }
{
    let bytes = f.bytes;
    for i in 0..HALF {
        let s = cell(i, bytes[STATES + i]);
        many[s] += 1;
        let r = cell(i, bytes[STATES + (HALF + i)]);
        more[r] += 1;
    }
}
