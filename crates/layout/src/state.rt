// A state as a byte, and back.
ghost use Rattle.std.specs.Prelude.{◌≡◌};
ghost use Rattle.layout.specs.Bytes.{state_byte, byte_state};

use tables::{State, Tables};

// The byte of each state. A process that waits on s has WAITING + s.
pub const FREE: u8 = 0;

pub const CURRENT: u8 = 1;

pub const READY: u8 = 2;

pub const SUSPENDED: u8 = 3;

pub const WAITING: u8 = 4;

// The byte of a state that no table has: waiting on a number past the semaphores. `state_byte` of the definitions has it, of all typed tables.
const NO_STATE: u8 = 255;

// Two functions and no `From`: `State` is declared in `tables`, so the language lets no `impl` of a trait of the library for it stand here (the orphan rule), and `tables` knows no bytes.
pub fn state_byte(state: State) -> u8
    ensures { result ≡ state_byte state }
{
    match state {
        State::Free => FREE,
        State::Current => CURRENT,
        State::Ready => READY,
        State::Suspended => SUSPENDED,
        State::Waiting(s) if s < Tables::SEMAPHORES as u8 => WAITING + s,
        State::Waiting(_) => NO_STATE,
    }
}

pub fn byte_state(b: u8) -> State
    ensures { result ≡ byte_state b }
{
    match b {
        FREE => State::Free,
        CURRENT => State::Current,
        READY => State::Ready,
        SUSPENDED => State::Suspended,
        _ => State::Waiting(b - WAITING),
    }
}
