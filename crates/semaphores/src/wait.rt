// Call 01, wait a: the count minus 1; if the new count is below 0 the caller waits at the queue's tail, then a reschedule follows. Answers 1; refuses with 1, 2 and 10.
ghost use Rattle.rules.specs.Calls.{step};
ghost use Rattle.scheduling.specs.Steps.{Leads, Runs};

use crate::target::used_semaphore;
use layout::fields::{count, put_count};
use layout::offsets::SIZE;
use rules::{Call, Refusal};
use scheduling::schedule::make_wait;
use scheduling::step::Step;

// `c` is the caller.
pub fn wait(bytes: &mut [u8; SIZE], c: u8, a: i32) -> Result<Step, Refusal>
    ensures { Runs c bytes.old → Leads (λ t. step t (Call.Wait a)) bytes.old bytes.new result }
{
    let s = used_semaphore(bytes, a)?;
    if c == 0 {
        return Err(Refusal::Process0);
    }
    let m = count(bytes, s).saturating_sub(1);
    put_count(bytes, s, m);
    if m < 0 {
        make_wait(bytes, c, s);
        return Ok(Step::Switches(1));
    }
    Ok(Step::Done(1))
}
