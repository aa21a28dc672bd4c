// Call 0b, count of a: nothing changes. Answers the count; refuses with 1 and 2.
ghost use Rattle.rules.specs.Calls.{step};
ghost use Rattle.scheduling.specs.Steps.{Leads};

use crate::target::used_semaphore;
use layout::fields::count;
use layout::offsets::SIZE;
use rules::{Call, Refusal};
use scheduling::step::Step;

pub fn count_of(bytes: &[u8; SIZE], a: i32) -> Result<Step, Refusal>
    ensures { Leads (λ t. step t (Call.Count a)) bytes.now bytes.now result }
{
    let s = used_semaphore(bytes, a)?;
    Ok(Step::Done(count(bytes, s)))
}
