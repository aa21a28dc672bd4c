// Who joins the ready list or a queue, and who runs.
ghost use Rattle.std.specs.Prelude.{◌≡◌, ◌<◌};
ghost use Rattle.tables.specs.Limits.{process_limit};
ghost use Rattle.layout.specs.Stands.{Turns};
ghost use Rattle.rules.specs.Schedule.{make_ready, make_wait};
ghost use Rattle.scheduling.specs.Running.{Reschedules};

use layout::fields::{process, put_state};
use layout::number::SemaphoreNumber;
use layout::offsets::SIZE;
use layout::state::READY;
use order::row::{find, put_last, reposition};
use tables::State;

// Behind every ready process whose priority is equal or higher.
pub fn make_ready(bytes: &mut [u8; SIZE], p: u8)
    ensures { p < process_limit → Turns (λ t. make_ready t p) bytes.old bytes.new }
{
    let x = process(bytes, p);
    reposition(bytes, p, x.priority);
    put_state(bytes, p, State::Ready);
}

// At the tail.
pub fn make_wait(bytes: &mut [u8; SIZE], p: u8, s: SemaphoreNumber)
    ensures { p < process_limit → Turns (λ t. make_wait t p s.number) bytes.old bytes.new }
{
    put_last(bytes, p);
    put_state(bytes, p, State::Waiting(s.number));
}

// To reschedule. `c` ran, and nobody else is current; who runs then is told.
pub fn reschedule(bytes: &mut [u8; SIZE], c: u8) -> u8
    ensures { Reschedules c bytes.old bytes.new result }
{
    let Some(f) = find(bytes, READY) else {
        return c;
    };
    let x = process(bytes, c);
    if x.state != State::Current {
        put_state(bytes, f, State::Current);
        return f;
    }
    let y = process(bytes, f);
    if y.priority < x.priority {
        return c;
    }
    make_ready(bytes, c);
    put_state(bytes, f, State::Current);
    f
}
