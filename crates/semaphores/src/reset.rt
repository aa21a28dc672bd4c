// Call 05, reset a to b: all waiters become ready in queue order, and the count is b; then one reschedule follows if there was any. Answers 1; refuses with 3, 1 and 2.
ghost use Rattle.rules.specs.Calls.{step};
ghost use Rattle.scheduling.specs.Steps.{Leads};

use crate::release::release;
use crate::target::used_semaphore;
use layout::offsets::SIZE;
use rules::{Call, Refusal};
use scheduling::step::Step;
use tables::Semaphore;

pub fn reset(bytes: &mut [u8; SIZE], a: i32, b: i32) -> Result<Step, Refusal>
    ensures { Leads (λ t. step t (Call.Reset a b)) bytes.old bytes.new result }
{
    if b < 0 {
        return Err(Refusal::CountBelow0);
    }
    let s = used_semaphore(bytes, a)?;
    let entry = Semaphore {
        used: true,
        count: b,
    };
    Ok(release(bytes, s, entry))
}
