// Where each field begins. Only these say so, in code.
ghost use Rattle.std.specs.Prelude.{◌≡◌};
ghost use Rattle.layout.specs.Offsets.{states_at, priorities_at, used_at, counts_at, order_at, next_semaphore_at, next_process_at, size};

use tables::Tables;

pub const STATES: usize = 0;

pub const PRIORITIES: usize = STATES + Tables::PROCESSES;

pub const USED: usize = PRIORITIES + Tables::PROCESSES;

pub const COUNTS: usize = USED + Tables::SEMAPHORES;

pub const ORDER: usize = COUNTS + 4 * Tables::SEMAPHORES;

pub const NEXT_SEMAPHORE: usize = ORDER + Tables::PROCESSES;

pub const NEXT_PROCESS: usize = NEXT_SEMAPHORE + 1;

pub const SIZE: usize = NEXT_PROCESS + 1;

#[derive(Clone, Copy, PartialEq, Eq, Debug)]
pub struct Starts {
    pub states: usize,
    pub priorities: usize,
    pub used: usize,
    pub counts: usize,
    pub order: usize,
    pub next_semaphore: usize,
    pub next_process: usize,
    pub size: usize,
}

// Ties the constants to the definitions that the layout is written with.
pub fn offsets() -> Starts
    ensures { result ≡ record { states = states_at; priorities = priorities_at; used = used_at; counts = counts_at; order = order_at; next_semaphore = next_semaphore_at; next_process = next_process_at; size = size } }
{
    Starts {
        states: STATES,
        priorities: PRIORITIES,
        used: USED,
        counts: COUNTS,
        order: ORDER,
        next_semaphore: NEXT_SEMAPHORE,
        next_process: NEXT_PROCESS,
        size: SIZE,
    }
}
