// Call 04, delete a: the entry is free, with count 0; all waiters become ready in queue order, then one reschedule follows if there was any. Answers 1; refuses with 1 and 2.
ghost use Rattle.rules.specs.Calls.{step};
ghost use Rattle.scheduling.specs.Steps.{Leads};

use crate::release::release;
use crate::target::used_semaphore;
use layout::offsets::SIZE;
use rules::{Call, Refusal};
use scheduling::step::Step;
use tables::Semaphore;

pub fn delete(bytes: &mut [u8; SIZE], a: i32) -> Result<Step, Refusal>
    ensures { Leads (λ t. step t (Call.Delete a)) bytes.old bytes.new result }
{
    let s = used_semaphore(bytes, a)?;
    let entry = Semaphore {
        used: false,
        count: 0,
    };
    Ok(release(bytes, s, entry))
}
