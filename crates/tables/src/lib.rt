#![tactic(auto)]

ghost use Rattle.std.specs.Prelude.{◌≡◌};
ghost use Rattle.lists.specs.Numbers.{count_up};
ghost use Rattle.tables.specs.Limits.{process_limit, semaphore_limit, priority_limit};
ghost use Rattle.tables.specs.Boot.{boot as boot_tables};

use std::array;

#[derive(Clone, Copy, PartialEq, Eq, Debug)]
pub enum State {
    Free,
    Current,
    Ready,
    Suspended,
    // The semaphore that it waits on.
    Waiting(u8),
}

#[derive(Clone, Copy, PartialEq, Eq, Debug)]
pub struct Process {
    pub state: State,
    pub priority: u8,
}

// A flag beside the count, and no Option: a free entry that holds a count isn't sound, and comes back as it came (`enter`, `bytes_back`).
#[derive(Clone, Copy, PartialEq, Eq, Debug)]
pub struct Semaphore {
    pub used: bool,
    pub count: i32,
}

#[derive(Clone, Copy, PartialEq, Eq, Debug)]
pub struct Tables {
    pub processes: [Process; Tables::PROCESSES],
    pub semaphores: [Semaphore; Tables::SEMAPHORES],
    // Every process number once: a list or a queue is those of its state, in this order.
    pub order: [u8; Tables::PROCESSES],
    pub next_semaphore: u8,
    pub next_process: u8,
}

#[derive(Clone, Copy, PartialEq, Eq, Debug)]
pub struct Limits {
    pub processes: usize,
    pub semaphores: usize,
    pub priority: u8,
}

// The row at boot: the process numbers as they rise.
fn rising() -> [u8; Tables::PROCESSES]
    ensures { result ≡ count_up 0 process_limit }
{
    array::from_fn(|i| i as u8)
}

impl Tables {
    pub const PROCESSES: usize = 32;

    pub const SEMAPHORES: usize = 120;

    pub const PRIORITY: u8 = 63;

    // Ties the constants to the definitions that every promise is written with.
    pub fn limits() -> Limits
        ensures { (result.processes ≡ process_limit) × (result.semaphores ≡ semaphore_limit) × (result.priority ≡ priority_limit) }
    {
        Limits {
            processes: Tables::PROCESSES,
            semaphores: Tables::SEMAPHORES,
            priority: Tables::PRIORITY,
        }
    }

    pub fn boot() -> Tables
        ensures { result ≡ boot_tables }
    {
        let free = Process {
            state: State::Free,
            priority: 0,
        };
        let mut processes = [free; Tables::PROCESSES];
        processes[0] = Process {
            state: State::Current,
            priority: 0,
        };
        let unused = Semaphore {
            used: false,
            count: 0,
        };
        Tables {
            processes,
            semaphores: [unused; Tables::SEMAPHORES],
            order: rising(),
            next_semaphore: 0,
            next_process: 1,
        }
    }
}
