// Call 08, suspend a: a ready process leaves the list; the current one stops, and a reschedule follows. Answers its priority; refuses with 6, 10, 7, and 9 or 19 by the state found.
ghost use Rattle.rules.specs.Calls.{step};
ghost use Rattle.scheduling.specs.Steps.{Leads};

use crate::target::process_number;
use layout::fields::{process, put_state};
use layout::offsets::SIZE;
use rules::{Call, Refusal};
use scheduling::step::Step;
use tables::State;

pub fn suspend(bytes: &mut [u8; SIZE], a: i32) -> Result<Step, Refusal>
    ensures { Leads (λ t. step t (Call.Suspend a)) bytes.old bytes.new result }
{
    let p = process_number(a)?;
    if p == 0 {
        return Err(Refusal::Process0);
    }
    let x = process(bytes, p);
    match x.state {
        State::Free => Err(Refusal::SlotFree),
        State::Current => {
            put_state(bytes, p, State::Suspended);
            Ok(Step::Switches(i32::from(x.priority)))
        }
        State::Ready => {
            put_state(bytes, p, State::Suspended);
            Ok(Step::Done(i32::from(x.priority)))
        }
        State::Suspended => Err(Refusal::FoundSuspended),
        State::Waiting(_) => Err(Refusal::FoundWaiting),
    }
}
