// Call 07, resume a: a suspended process becomes ready, then a reschedule follows. Answers its priority; refuses with 6, 7, and 17, 18 or 19 by the state found.
ghost use Rattle.rules.specs.Calls.{step};
ghost use Rattle.scheduling.specs.Steps.{Leads};

use crate::target::process_number;
use layout::fields::process;
use layout::offsets::SIZE;
use rules::{Call, Refusal};
use scheduling::schedule::make_ready;
use scheduling::step::Step;
use tables::State;

pub fn resume(bytes: &mut [u8; SIZE], a: i32) -> Result<Step, Refusal>
    ensures { Leads (λ t. step t (Call.Resume a)) bytes.old bytes.new result }
{
    let p = process_number(a)?;
    let x = process(bytes, p);
    match x.state {
        State::Free => Err(Refusal::SlotFree),
        State::Current => Err(Refusal::FoundCurrent),
        State::Ready => Err(Refusal::FoundReady),
        State::Suspended => {
            make_ready(bytes, p);
            Ok(Step::Switches(i32::from(x.priority)))
        }
        State::Waiting(_) => Err(Refusal::FoundWaiting),
    }
}
