// One row of the page.
ghost use Rattle.std.specs.Prelude.{◌≡◌, true, ◌<◌};
ghost use Rattle.tables.specs.Limits.{process_limit};
ghost use Rattle.layout.specs.Bytes.{from_bytes, well_formed};
ghost use Rattle.layout.specs.Stands.{Tells};
ghost use Rattle.status.specs.Rows.{row_of, state_number};
ghost use Rattle.status.specs.Search.{row_from};

use crate::Row;
use crate::live::live_from;
use layout::fields::process;
use layout::offsets::SIZE;
use layout::state::state_byte;
use order::row::place_among;
use tables::{Process, State};

// The numbers that C knows the states by.
fn state_number(state: State) -> u8
    ensures { result ≡ state_number state }
{
    match state {
        State::Free => 0,
        State::Current => 1,
        State::Ready => 2,
        State::Suspended => 3,
        State::Waiting(_) => 4,
    }
}

fn row_of(bytes: &[u8; SIZE], p: u8) -> Row
    ensures { p < process_limit → Tells (λ t. row_of t p) bytes.now result }
{
    let Process { state, priority } = process(bytes, p);
    let (awaited, place) = match state {
        State::Waiting(s) => (s, place_among(bytes, p, state_byte(state))),
        _ => (0, 0),
    };
    Row {
        number: p,
        state: state_number(state),
        priority,
        awaited,
        place,
    }
}

// The row of the first live process from `p` on; that of process 0 where there is none, and no Option: docs name it in this form.
pub fn row_from(bytes: &[u8; SIZE], p: u8) -> Row
    requires { well_formed bytes.now ≡ true }
    ensures { result ≡ row_from (from_bytes bytes.now) p }
{
    row_of(bytes, live_from(bytes, p).unwrap_or(0))
}
