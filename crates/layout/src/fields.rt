// Each field of the lent bytes, read and written where it stands.
// A process is named by a plain byte: `call` of `kernel`, which docs name, takes any for the caller, and one read from a row is below the limit only where the bytes stand for tables. A type that says so would need a test that gives up, or `well_formed` proved anew at every write.
ghost use Rattle.std.specs.Prelude.{◌≡◌, ◌+◌, ◌<◌, get_or, length, set};
ghost use Rattle.tables.specs.Limits.{process_limit, semaphore_limit};
ghost use Rattle.tables.specs.Readers.{process, is_used, count_of};
ghost use Rattle.tables.specs.Setters.{with_process, with_state, with_semaphore, with_used, with_count, with_order, with_next_semaphore, with_next_process};
ghost use Rattle.layout.specs.Offsets.{priorities_at};
ghost use Rattle.layout.specs.Bytes.{process_at};
ghost use Rattle.layout.specs.Stands.{Named, Turns, Tells};

use crate::number::SemaphoreNumber;
use crate::offsets::{NEXT_PROCESS, NEXT_SEMAPHORE, ORDER, PRIORITIES, SIZE, STATES, USED};
use crate::state::{byte_state, state_byte};
use crate::word::{count_at, put_count_at};
use tables::{Process, Semaphore, State};

// By an index, as the loop of decode has it, of any slice that reaches so far.
pub fn process_at(bytes: &[u8], i: usize) -> Process
    requires { priorities_at + i < length bytes.now }
    ensures { result ≡ process_at bytes.now i }
{
    Process {
        state: byte_state(bytes[STATES + i]),
        priority: bytes[PRIORITIES + i],
    }
}

pub fn process(bytes: &[u8; SIZE], p: u8) -> Process
    ensures { p < process_limit → Tells (λ t. process t p) bytes.now result }
{
    process_at(bytes, p as usize)
}

pub fn put_state(bytes: &mut [u8; SIZE], p: u8, state: State)
    requires { Named state }
    ensures { p < process_limit → Turns (λ t. with_state t p state) bytes.old bytes.new }
{
    bytes[STATES + p as usize] = state_byte(state);
}

pub fn put_process(bytes: &mut [u8; SIZE], p: u8, entry: Process)
    requires { Named entry.state }
    ensures { p < process_limit → Turns (λ t. with_process t p entry) bytes.old bytes.new }
{
    let i = p as usize;
    bytes[STATES + i] = state_byte(entry.state);
    bytes[PRIORITIES + i] = entry.priority;
}

pub fn is_used(bytes: &[u8; SIZE], s: SemaphoreNumber) -> bool
    ensures { Tells (λ t. is_used t s.number) bytes.now result }
{
    bytes[USED + s.number as usize] == 1
}

pub fn put_used(bytes: &mut [u8; SIZE], s: u8, used: bool)
    ensures { s < semaphore_limit → Turns (λ t. with_used t s used) bytes.old bytes.new }
{
    bytes[USED + s as usize] = u8::from(used);
}

pub fn count(bytes: &[u8; SIZE], s: SemaphoreNumber) -> i32
    ensures { Tells (λ t. count_of t s.number) bytes.now result }
{
    count_at(bytes, s.number as usize)
}

pub fn put_count(bytes: &mut [u8; SIZE], s: SemaphoreNumber, count: i32)
    ensures { Turns (λ t. with_count t s.number count) bytes.old bytes.new }
{
    put_count_at(bytes, s, count);
}

pub fn put_semaphore(bytes: &mut [u8; SIZE], s: SemaphoreNumber, entry: Semaphore)
    ensures { Turns (λ t. with_semaphore t s.number entry) bytes.old bytes.new }
{
    put_used(bytes, s.number, entry.used);
    put_count(bytes, s, entry.count);
}

// Who stands at place `i` of the row.
pub fn place(bytes: &[u8; SIZE], i: usize) -> u8
    requires { i < process_limit }
    ensures { Tells (λ t. get_or t.order i 0) bytes.now result }
{
    bytes[ORDER + i]
}

pub fn put_place(bytes: &mut [u8; SIZE], i: usize, p: u8)
    requires { i < process_limit }
    ensures { p < process_limit → Turns (λ t. with_order t (set t.order i p)) bytes.old bytes.new }
{
    bytes[ORDER + i] = p;
}

// The cursors have two functions each: one for both would be told the field of the tables beside the place, which is no shorter.
pub fn next_semaphore(bytes: &[u8; SIZE]) -> u8
    ensures { Tells (λ t. t.next_semaphore) bytes.now result }
{
    bytes[NEXT_SEMAPHORE]
}

pub fn put_next_semaphore(bytes: &mut [u8; SIZE], s: u8)
    ensures { Turns (λ t. with_next_semaphore t s) bytes.old bytes.new }
{
    bytes[NEXT_SEMAPHORE] = s;
}

pub fn next_process(bytes: &[u8; SIZE]) -> u8
    ensures { Tells (λ t. t.next_process) bytes.now result }
{
    bytes[NEXT_PROCESS]
}

pub fn put_next_process(bytes: &mut [u8; SIZE], p: u8)
    ensures { Turns (λ t. with_next_process t p) bytes.old bytes.new }
{
    bytes[NEXT_PROCESS] = p;
}
