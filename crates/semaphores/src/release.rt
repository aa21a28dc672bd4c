// What delete and reset share: all waiters of a semaphore become ready.
ghost use Rattle.rules.specs.Calls.{release as released, finish};
ghost use Rattle.scheduling.specs.Steps.{Leads};

use layout::fields::put_semaphore;
use layout::number::SemaphoreNumber;
use layout::offsets::SIZE;
use layout::state::WAITING;
use order::row::find;
use scheduling::step::Step;
use scheduling::waiters::{make_all_ready, picked};
use tables::Semaphore;

// The waiters are read first, then each is made ready; one reschedule follows if there was any.
pub fn release(bytes: &mut [u8; SIZE], s: SemaphoreNumber, entry: Semaphore) -> Step
    ensures { Leads (λ t. finish (released t s.number entry)) bytes.old bytes.new (Ok result) }
{
    if find(bytes, WAITING + s.number).is_none() {
        put_semaphore(bytes, s, entry);
        return Step::Done(1);
    }
    let ps = picked(bytes, WAITING + s.number);
    put_semaphore(bytes, s, entry);
    make_all_ready(bytes, ps);
    Step::Switches(1)
}
