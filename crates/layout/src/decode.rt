// Lent bytes read as typed tables.
ghost use Rattle.std.specs.Prelude.{◌≡◌, ◌<◌};
ghost use Rattle.lists.specs.Numbers.{listed};
ghost use Rattle.tables.specs.Limits.{process_limit, semaphore_limit};
ghost use Rattle.layout.specs.Bytes.{from_bytes, place_at, process_at, semaphore_at};

use crate::fields::process_at;
use crate::offsets::{NEXT_PROCESS, NEXT_SEMAPHORE, ORDER, SIZE, USED};
use crate::word::count_at;
use std::array;
use tables::{Process, Semaphore, Tables};

fn processes(bytes: &[u8; SIZE]) -> [Process; Tables::PROCESSES]
    ensures { result ≡ listed 0 process_limit (process_at bytes.now) }
{
    array::from_fn(|i| process_at(bytes, i))
}

fn semaphore_at(bytes: &[u8; SIZE], s: usize) -> Semaphore
    requires { s < semaphore_limit }
    ensures { result ≡ semaphore_at bytes.now s }
{
    Semaphore {
        used: bytes[USED + s] == 1,
        count: count_at(bytes, s),
    }
}

fn semaphores(bytes: &[u8; SIZE]) -> [Semaphore; Tables::SEMAPHORES]
    ensures { result ≡ listed 0 semaphore_limit (semaphore_at bytes.now) }
{
    array::from_fn(|i| semaphore_at(bytes, i))
}

fn row(bytes: &[u8; SIZE]) -> [u8; Tables::PROCESSES]
    ensures { result ≡ listed 0 process_limit (place_at bytes.now) }
{
    array::from_fn(|i| bytes[ORDER + i])
}

pub fn decode(bytes: &[u8; SIZE]) -> Tables
    ensures { result ≡ from_bytes bytes.now }
{
    Tables {
        processes: processes(bytes),
        semaphores: semaphores(bytes),
        order: row(bytes),
        next_semaphore: bytes[NEXT_SEMAPHORE],
        next_process: bytes[NEXT_PROCESS],
    }
}
